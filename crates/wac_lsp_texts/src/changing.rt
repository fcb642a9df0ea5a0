//! A text after the changes of an editor.
ghost use Rattle.std.specs.Prelude.{◌≡◌, ◌≤◌, IfOk, IfSome, drop, length, string_bytes};
ghost use Rattle.wac_positions.specs.Lines.{begins_with_line_feed};
ghost use Rattle.wac_lsp_texts.specs.Started.{Starts};
ghost use Rattle.wac_lsp_texts.specs.Changed.{Changes, ChangesOnce, Edits, StartsAfterSplice, spliced};

use crate::finding::offset_from;
use crate::starts::{LineStart, first_line};
use std::alloc::{AllocError, Global};
use wac_lsp_messages::{Change, Range};
use wac_positions::ColumnUnit;

/// Why a text could not be changed.
#[derive(Clone, Copy, Debug, Drop, PartialEq, Eq)]
pub enum ChangeError {
    /// A place has no offset. None is known for which this comes, and no clause excludes it.
    NoPlace,
    /// A request for memory failed.
    Memory,
}

impl From<AllocError> for ChangeError {
    fn from(_error: AllocError) -> Self {
        ChangeError::Memory
    }
}

/// A text with what is between two offsets replaced, in place where there is room.
fn spliced(text: String, from: usize, to: usize, new: &str) -> Result<Option<String>, AllocError>
    ensures { IfOk result (λ found. IfSome found (λ t. string_bytes t ≡ spliced (string_bytes text) from to new.now)) }
{
    let to = from.max(to);
    if !text.is_char_boundary(from) || !text.is_char_boundary(to) {
        return Ok(None);
    }
    let mut after = text;
    after.replace_range(from..to, new)?;
    Ok(Some(after))
}

/// A text, and the start of one of its lines.
#[derive(Drop)]
struct Edited {
    text: String,
    line: LineStart,
}

/// Whether LF begins what follows an offset.
fn feeds_at(text: &str, at: usize) -> bool
    requires { at ≤ length text.now }
    ensures { result ≡ begins_with_line_feed (drop at text.now) }
{
    let (_, rest) = text.as_bytes().split_at(at);
    !rest.is_empty() && rest[0] == b'\n'
}

/// A line that begins where it did before what follows an offset was replaced; the first one, where that isn't clear.
#[tactic(auto, using(crate::proofs::Starting::first))]
fn line_after(after: &str, line: LineStart, from: usize, feeds: bool) -> LineStart
    ensures { StartsAfterSplice line.line line.offset from feeds after.now result.line result.offset }
{
    if line.offset <= from && line.offset <= after.len() && feeds_at(after, line.offset) == feeds {
        line
    } else {
        first_line()
    }
}

/// A text with a range of it replaced.
fn replaced(
    edited: Edited,
    range: Range,
    new: &str,
    unit: ColumnUnit,
) -> Result<Edited, ChangeError>
    requires { Starts (string_bytes edited.text) edited.line.line edited.line.offset }
    ensures replaces { IfOk result (λ e. Edits unit (string_bytes edited.text) range new.now (string_bytes e.text)) }
    ensures starts { IfOk result (λ after. Starts (string_bytes after.text) after.line.line after.line.offset) }
{
    let Some((from, line)) = offset_from(edited.text.as_str(), edited.line, range.start, unit)
    else {
        return Err(ChangeError::NoPlace);
    };
    let Some((to, _)) = offset_from(edited.text.as_str(), line, range.end, unit) else {
        return Err(ChangeError::NoPlace);
    };
    let feeds = feeds_at(edited.text.as_str(), line.offset);
    let Some(text) = spliced(edited.text, from, to, new)? else {
        return Err(ChangeError::NoPlace);
    };
    let line = line_after(text.as_str(), line, from, feeds);
    Ok(Edited { text, line })
}

/// A text after one change.
#[tactic(auto, using(crate::proofs::Starting::first))]
fn changed_once(
    alloc: Global,
    edited: Edited,
    change: &Change,
    unit: ColumnUnit,
) -> Result<Edited, ChangeError>
    requires { Starts (string_bytes edited.text) edited.line.line edited.line.offset }
    ensures changes { IfOk result (λ e. ChangesOnce unit (string_bytes edited.text) change.now (string_bytes e.text)) }
    ensures starts { IfOk result (λ after. Starts (string_bytes after.text) after.line.line after.line.offset) }
{
    match change.range {
        Some(range) => replaced(edited, range, change.text.as_str(), unit),
        None => match String::from_str(alloc, change.text.as_str()) {
            Ok(text) => Ok(Edited {
                text,
                line: first_line(),
            }),
            Err(_) => Err(ChangeError::Memory),
        },
    }
}

/// The text after changes, each of what the one before leaves. For each change the text between its places and those of
/// the one before is searched for the ends of lines, or all before its end, where it is before them, and what follows
/// it is moved. It takes the memory of one text, and of two while that grows.
#[tactic(auto, using(crate::proofs::Starting::first))]
pub fn changed(
    alloc: Global,
    text: &str,
    changes: &[Change],
    unit: ColumnUnit,
) -> Result<String, ChangeError>
    ensures { IfOk result (λ after. Changes unit text.now changes.now (string_bytes after)) }
{
    let mut after = Edited {
        text: String::from_str(alloc, text)?,
        line: first_line(),
    };
    for change in changes {
        after = changed_once(alloc, after, change, unit)?;
    }
    Ok(after.text)
}
