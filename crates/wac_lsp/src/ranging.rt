//! The edits that lay out a part of a document.
ghost use Rattle.std.specs.Prelude.{◌≡◌, true, IfOk, IfSome};
ghost use Rattle.wac_lsp.specs.Formatting.{IsPartFormatting, IsTidyOf, LaysOutPart, MakesTextOf};

use crate::formatting::{NO_EDITS, edits_value, is_text, layout_of};
use crate::pieces::pieces_of;
use crate::places::{Part, View};
use crate::questions::Answered;
use crate::statements::{Statement, statements};
use std::alloc::{AllocError, Global};
use wac_comments::{Options, TidyError, tidy};
use wac_lsp_messages::{Change, FormattingOptions, Range};
use wac_lsp_texts::{ChangeError, changed, offset_at};
use wac_positions::{ColumnUnit, Lines};

/// A text, and its tidy form.
#[derive(Clone, Copy)]
struct Pair<'t> {
    text: &'t str,
    after: &'t str,
}

/// Whether a statement has a place in a part of its text.
fn is_in(statement: &Statement, part: Part) -> bool {
    statement.first <= part.end && part.start <= statement.end
}

/// The change that makes a statement of a text another text.
fn change_of(
    alloc: Global,
    view: &View<'_>,
    at: &Statement,
    new: &str,
) -> Result<Change, AllocError> {
    let range = Range {
        start: view.place(at.start),
        end: view.place(at.end),
    };
    Ok(Change {
        range: Some(range),
        text: String::from_str(alloc, new)?,
    })
}

/// The statements of a text.
fn statements_of(alloc: Global, text: &str) -> Result<Vec<Statement>, AllocError> {
    let pieces = pieces_of(alloc, text)?;
    statements(alloc, pieces.as_slice(), text.len())
}

/// The changes that make the statements in a part of a text those of its tidy form, from the last to the first: none
/// where that has another number of statements.
fn changes_of(
    alloc: Global,
    view: &View<'_>,
    pair: Pair<'_>,
    part: Part,
) -> Result<Vec<Change>, AllocError> {
    let mut changes = Vec::new(alloc);
    let before = statements_of(alloc, pair.text)?;
    let after = statements_of(alloc, pair.after)?;
    if before.len() != after.len() {
        return Ok(changes);
    }
    let both = before
        .as_slice()
        .iter()
        .rev()
        .zip(after.as_slice().iter().rev());
    for (from, to) in both {
        let old = pair.text.get(from.start..from.end).unwrap_or("");
        let new = pair.after.get(to.start..to.end).unwrap_or("");
        if is_in(from, part) && old != new {
            changes.push(change_of(alloc, view, from, new)?)?;
        }
    }
    Ok(changes)
}

/// The changes in a range of a text.
fn changes_in(
    alloc: Global,
    pair: Pair<'_>,
    range: Range,
    unit: ColumnUnit,
) -> Result<Vec<Change>, AllocError> {
    let lines = Lines::new(alloc, pair.text)?;
    let len = pair.text.len();
    let start = offset_at(&lines, len, range.start, unit).unwrap_or(0);
    let end = offset_at(&lines, len, range.end, unit).unwrap_or(0);
    let view = View::new(alloc, pair.text, unit)?;
    changes_of(alloc, &view, pair, Part { start, end })
}

/// Whether a text has this tidy form.
fn is_tidied(
    alloc: Global,
    text: &str,
    options: Options,
    expected: &str,
) -> Result<bool, AllocError>
    ensures { IfOk result (λ yes. yes ≡ true → IsTidyOf options text.now expected.now) }
{
    match tidy(alloc, text, options) {
        Ok(after) => Ok(is_text(after.as_str(), expected)),
        Err(TidyError::Memory(_)) => Err(AllocError),
        Err(_) => Ok(false),
    }
}

/// Whether changes of a text leave its tidy form.
fn leave_tidy(
    alloc: Global,
    pair: Pair<'_>,
    changes: &[Change],
    options: Options,
    unit: ColumnUnit,
) -> Result<bool, AllocError>
    ensures { IfOk result (λ yes. yes ≡ true
        → MakesTextOf unit options pair.entry.text.now changes.now pair.entry.after.now) }
{
    match changed(alloc, pair.text, changes, unit) {
        Ok(made) => is_tidied(alloc, made.as_str(), options, pair.after),
        Err(ChangeError::NoPlace) => Ok(false),
        Err(ChangeError::Memory) => Err(AllocError),
    }
}

/// Changes, if they leave the tidy form of a text: that is tested.
fn tested(
    alloc: Global,
    pair: Pair<'_>,
    changes: Vec<Change>,
    options: Options,
    unit: ColumnUnit,
) -> Result<Option<Vec<Change>>, AllocError>
    ensures { IfOk result (λ found. IfSome found (λ edits.
        MakesTextOf unit options pair.entry.text.now edits.items pair.entry.after.now)) }
{
    if leave_tidy(alloc, pair, changes.as_slice(), options, unit)? {
        Ok(Some(changes))
    } else {
        Ok(None)
    }
}

/// The changes in a range of a text that leave its tidy form, or `None` where they failed the test. No texts are known for
/// which they do.
fn changes_that_leave(
    alloc: Global,
    pair: Pair<'_>,
    range: Range,
    options: Options,
    unit: ColumnUnit,
) -> Result<Option<Vec<Change>>, AllocError>
    ensures { IfOk result (λ found. IfSome found (λ edits.
        MakesTextOf unit options pair.entry.text.now edits.items pair.entry.after.now)) }
{
    let changes = changes_in(alloc, pair, range, unit)?;
    tested(alloc, pair, changes, options, unit)
}

/// The changes that lay out the statements in a range of a text, none where it is no document, or `None` where a test
/// failed.
#[tactic(auto, using(crate::proofs::Laid::part_laid_out, crate::proofs::Laid::part_is_left))]
fn changes_in_part(
    alloc: Global,
    text: &str,
    range: Range,
    options: Options,
    unit: ColumnUnit,
) -> Result<Option<Vec<Change>>, AllocError>
    ensures { IfOk result (λ found. IfSome found (λ edits. LaysOutPart unit options text.now edits.items)) }
{
    match tidy(alloc, text, options) {
        Ok(after) => {
            let pair = Pair {
                text,
                after: after.as_str(),
            };
            match changes_that_leave(alloc, pair, range, options, unit) {
                Ok(Some(changes)) => Ok(Some(changes)),
                Ok(None) => Ok(None),
                Err(_) => Err(AllocError),
            }
        }
        Err(TidyError::Parse(_)) => Ok(Some(Vec::new(alloc))),
        Err(TidyError::NestedTooDeep { .. }) => Ok(Some(Vec::new(alloc))),
        Err(TidyError::NotKept) => Ok(None),
        Err(TidyError::Memory(_)) => Err(AllocError),
    }
}

/// The edits that lay out the statements in a range of a text: none where they are tidy, or the text is no document.
pub(crate) fn formatted_range(
    alloc: Global,
    text: &str,
    range: Range,
    given: FormattingOptions,
    unit: ColumnUnit,
) -> Result<Answered, AllocError>
    ensures { IfOk result (λ answered. IfOk answered (λ value. IsPartFormatting unit given text.now value)) }
{
    match changes_in_part(alloc, text, range, layout_of(given, text), unit)? {
        Some(changes) => Ok(Ok(edits_value(alloc, changes.as_slice())?)),
        None => Ok(Err(NO_EDITS)),
    }
}
