//! The edits of a renaming.
use std::alloc::{AllocError, Global};
use wac_lexer::SourceSpan;

/// What stands in the place of a part of a text.
#[derive(Drop)]
pub struct Edit {
    /// The part: a name with its `%`, or nothing where something is put in.
    pub span: SourceSpan,
    /// What stands there afterwards.
    pub text: String,
    /// Where the name is in that text which stands for the one that was the part.
    pub name: SourceSpan,
    /// Whether that is the new name. Else it is the old one, or there is none.
    pub renames: bool,
}

/// What stands before a name and after it in an edit.
#[derive(Clone, Copy)]
pub(crate) struct Around<'t> {
    pub(crate) before: &'t str,
    pub(crate) after: &'t str,
}

/// An edit that puts a name in the place of a part, with something around it.
pub(crate) fn edit_at(
    alloc: Global,
    span: SourceSpan,
    name: &str,
    renames: bool,
    around: Around<'_>,
) -> Result<Edit, AllocError> {
    let mut text = String::from_str(alloc, around.before)?;
    let start = text.len();
    text.push_str(name)?;
    text.push_str(around.after)?;
    let name = SourceSpan::new(start, name.len());
    Ok(Edit {
        span,
        text,
        name,
        renames,
    })
}

/// Where a span is after edits, in the order of the text: that of an edit is where its name is then.
pub(crate) fn moved(edits: &[Edit], span: SourceSpan) -> SourceSpan {
    let mut added: usize = 0;
    let mut removed: usize = 0;
    let mut found = None;
    for edit in edits {
        if edit.span.offset() == span.offset() && edit.span.len() == span.len() {
            found = Some(edit.name);
            break;
        }
        if span.offset() <= edit.span.offset() {
            break;
        }
        added = added.saturating_add(edit.text.len());
        removed = removed.saturating_add(edit.span.len());
    }
    let offset = span.offset().saturating_add(added).saturating_sub(removed);
    match found {
        Some(name) => SourceSpan::new(offset.saturating_add(name.offset()), name.len()),
        None => SourceSpan::new(offset, span.len()),
    }
}

/// A text after edits, which are in its order. `None` where they aren't, or lie outside it.
pub(crate) fn edited(
    alloc: Global,
    text: &str,
    edits: &[Edit],
) -> Result<Option<String>, AllocError> {
    let mut after = String::new(alloc);
    let mut place = 0;
    for edit in edits {
        let Some(kept) = text.get(place..edit.span.offset()) else {
            return Ok(None);
        };
        after.push_str(kept)?;
        after.push_str(edit.text.as_str())?;
        place = edit.span.offset().saturating_add(edit.span.len());
    }
    let Some(kept) = text.get(place..) else {
        return Ok(None);
    };
    after.push_str(kept)?;
    Ok(Some(after))
}
