//! What always holds of the edits of a renaming.
ghost use Rattle.std.specs.Prelude.{◌≡◌, IfOk, IsTrue};
ghost use Rattle.wac_names.specs.Places.{name_in};
ghost use Rattle.wac_lsp_names.specs.Edits.{AddsOld, AreEdits, AreSound, GivesNew, IsEdit, IsWritten, Joins, Keeps, PutsNew, renamed_offsets};

use crate::edits::Edit;
use std::alloc::{AllocError, Global};
use wac_lexer::SourceSpan;
use wac_names::{is_same, name_in, without_percent};

/// A name of a source that is to get another one.
#[derive(Clone, Copy)]
pub(crate) struct Change<'t> {
    pub(crate) source: &'t str,
    pub(crate) old: &'t str,
    pub(crate) new: &'t str,
}

/// Whether a text has a name in a span, apart from a `%`.
fn is_named(text: &str, span: SourceSpan, name: &str) -> bool
    ensures { IsTrue result → name_in text.now span ≡ name.now }
{
    match name_in(text, span) {
        Some(found) => is_same(found, name),
        None => false,
    }
}

/// Whether a text is a name, with or without `%`.
fn is_written(text: &str, name: &str) -> bool
    ensures { IsTrue result → IsWritten name.now text.now }
{
    is_same(without_percent(text), name)
}

/// Whether a text is a name, something after it, and another name.
#[tactic(auto, using(std::proofs::lemmas::Str::Pattern::split_text_parts))]
fn joins(text: &str, first: &str, between: &str, second: &str) -> bool
    ensures { IsTrue result → Joins first.now between.now second.now text.now }
{
    match text.split_once(between) {
        Some((before, after)) => is_written(before, first) && is_written(after, second),
        None => false,
    }
}

/// Whether a text is the new name, alone or beside the old one.
fn gives_new(text: &str, old: &str, new: &str) -> bool
    ensures { IsTrue result → GivesNew old.now new.now text.now }
{
    is_written(text, new)
        || joins(text, new, " as ", old)
        || joins(text, old, " as ", new)
        || joins(text, old, ": ", new)
}

/// Whether a text is ` as ` and the old name.
#[tactic(auto, using(std::proofs::lemmas::Str::Pattern::split_text_parts))]
fn adds_old(text: &str, old: &str) -> bool
    ensures { IsTrue result → AddsOld old.now text.now }
{
    match text.split_once(" as ") {
        Some((before, after)) => before.is_empty() && is_written(after, old),
        None => false,
    }
}

/// Whether an edit puts the new name in the place of the old one.
fn puts_new(change: &Change<'_>, edit: &Edit) -> bool
    ensures { IsTrue result → PutsNew change.now.source.now change.now.old.now change.now.new.now edit.now }
{
    is_named(change.source, edit.span, change.old)
        && is_named(edit.text.as_str(), edit.name, change.new)
        && gives_new(edit.text.as_str(), change.old, change.new)
}

/// Whether an edit keeps the old name with something beside it, or puts ` as ` and that name between two characters.
fn keeps(change: &Change<'_>, edit: &Edit) -> bool
    ensures { IsTrue result → Keeps change.now.source.now change.now.old.now edit.now }
{
    if edit.span.len() == 0 {
        return adds_old(edit.text.as_str(), change.old);
    }
    is_named(change.source, edit.span, change.old)
        && joins(edit.text.as_str(), change.old, ": ", change.old)
}

/// Whether an edit changes a name of a source as it says.
fn is_edit(change: &Change<'_>, edit: &Edit) -> bool
    ensures { IsTrue result → IsEdit change.now.source.now change.now.old.now change.now.new.now edit.now }
{
    if name_in(change.source, edit.span).is_none() {
        return false;
    }
    if edit.renames {
        puts_new(change, edit)
    } else {
        keeps(change, edit)
    }
}

/// Whether edits change names of a source as they say, each after the one before.
fn are_edits(change: &Change<'_>, edits: &[Edit]) -> bool
    ensures { IsTrue result → AreEdits change.now.source.now change.now.old.now change.now.new.now 0 edits.now }
{
    let mut place = 0;
    for edit in edits {
        if edit.span.offset() < place || !is_edit(change, edit) {
            return false;
        }
        let Some(end) = edit.span.offset().checked_add(edit.span.len()) else {
            return false;
        };
        place = end;
    }
    true
}

/// Where edits put the new name, in their order.
fn renamed_offsets(alloc: Global, edits: &[Edit]) -> Result<Vec<usize>, AllocError>
    ensures { IfOk result (λ all. all.items ≡ renamed_offsets edits.now) }
{
    edits
        .iter()
        .filter(|edit| edit.renames)
        .map(|edit| edit.span.offset())
        .collect(alloc)
}

/// Whether two lists of offsets are the same.
fn are_same(offsets: &[usize], others: &[usize]) -> bool
    ensures { IsTrue result → offsets.now ≡ others.now }
{
    offsets == others
}

/// Whether edits change names of a source as they say, in order, and put the new one at these offsets and nowhere else.
pub(crate) fn are_sound(
    alloc: Global,
    change: &Change<'_>,
    edits: &[Edit],
    offsets: &[usize],
) -> Result<bool, AllocError>
    ensures { IfOk result (λ is. IsTrue is
        → AreSound change.now.source.now change.now.old.now change.now.new.now offsets.now edits.now) }
{
    let renamed = renamed_offsets(alloc, edits)?;
    Ok(are_edits(change, edits) && are_same(offsets, renamed.as_slice()))
}
