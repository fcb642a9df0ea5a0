//! The edits that lay out a document.
ghost use Rattle.std.specs.Prelude.{◌≡◌, true, IfOk, IfSome};
ghost use Rattle.serde_json.specs.View.{view};
ghost use Rattle.wac_lsp_texts.specs.Changed.{Changes};
ghost use Rattle.wac_lsp.specs.Edits.{edit_data, edits_data, range_data};
ghost use Rattle.wac_lsp.specs.Formatting.{IsFormatting, LaysOut, indent_asked};

use crate::differing::{Run, differing};
use crate::places::{View, range_value};
use crate::questions::Answered;
use serde_json::{Value, json};
use std::alloc::{AllocError, Global};
use wac_comments::{Indent, Options, TidyError, tidy};
use wac_line_ends::line_end_of;
use wac_lsp_messages::{Change, Code, FormattingOptions, Range, Refusal};
use wac_lsp_texts::{ChangeError, changed};
use wac_positions::ColumnUnit;

/// What indents a line by one level: at most 16 blanks.
fn indent_of(given: FormattingOptions) -> Indent
    ensures { result ≡ indent_asked given }
{
    if !given.insert_spaces {
        return Indent::Tab;
    }
    match u8::try_from(given.tab_size) {
        Ok(count) => Indent::Blanks(count.min(16).max(1)),
        Err(_) => Indent::Blanks(16),
    }
}

/// How a text is laid out.
pub(crate) fn layout_of(given: FormattingOptions, text: &str) -> Options
    ensures { result.indent ≡ indent_asked given }
{
    Options {
        indent: indent_of(given),
        line_end: line_end_of(text),
    }
}

/// The change that makes lines of a text those of another one.
fn change_of(alloc: Global, view: &View<'_>, after: &str, run: &Run) -> Result<Change, AllocError> {
    let range = Range {
        start: view.place(run.old.start),
        end: view.place(run.old.end),
    };
    let new = after.get(run.new.start..run.new.end).unwrap_or("");
    Ok(Change {
        range: Some(range),
        text: String::from_str(alloc, new)?,
    })
}

/// The changes of the lines of a text that differ from those of another one, from the last to the first: none where
/// the texts are the same.
fn differences(
    alloc: Global,
    text: &str,
    after: &str,
    unit: ColumnUnit,
) -> Result<Vec<Change>, AllocError> {
    let mut changes = Vec::new(alloc);
    let runs = differing(alloc, text, after)?;
    let view = View::new(alloc, text, unit)?;
    for run in runs.as_slice().iter().rev() {
        changes.push(change_of(alloc, &view, after, run)?)?;
    }
    Ok(changes)
}

/// Whether two texts are the same.
pub(crate) fn is_text(first: &str, second: &str) -> bool
    ensures { result ≡ true → first.now ≡ second.now }
{
    first == second
}

/// Changes, if they make a text another one, one after another: that is tested.
fn tested(
    alloc: Global,
    text: &str,
    after: &str,
    changes: Vec<Change>,
    unit: ColumnUnit,
) -> Result<Option<Vec<Change>>, AllocError>
    ensures { IfOk result (λ found. IfSome found (λ edits. Changes unit text.now edits.items after.now)) }
{
    match changed(alloc, text, changes.as_slice(), unit) {
        Ok(made) => {
            if is_text(made.as_str(), after) {
                Ok(Some(changes))
            } else {
                Ok(None)
            }
        }
        Err(ChangeError::NoPlace) => Ok(None),
        Err(ChangeError::Memory) => Err(AllocError),
    }
}

/// The changes that make a text another one, or `None` where they failed the test. No texts are known for which they do.
fn changes_to(
    alloc: Global,
    text: &str,
    after: &str,
    unit: ColumnUnit,
) -> Result<Option<Vec<Change>>, AllocError>
    ensures { IfOk result (λ found. IfSome found (λ edits. Changes unit text.now edits.items after.now)) }
{
    let changes = differences(alloc, text, after, unit)?;
    tested(alloc, text, after, changes, unit)
}

/// The changes that make a text its tidy form, none where it is no document, or `None` where a test failed.
#[tactic(auto, using(crate::proofs::Laid::laid_out, crate::proofs::Laid::is_left))]
fn changes_to_tidy(
    alloc: Global,
    text: &str,
    options: Options,
    unit: ColumnUnit,
) -> Result<Option<Vec<Change>>, AllocError>
    ensures { IfOk result (λ found. IfSome found (λ edits. LaysOut unit options text.now edits.items)) }
{
    match tidy(alloc, text, options) {
        Ok(after) => match changes_to(alloc, text, after.as_str(), unit) {
            Ok(Some(changes)) => Ok(Some(changes)),
            Ok(None) => Ok(None),
            Err(_) => Err(AllocError),
        },
        Err(TidyError::Parse(_)) => Ok(Some(Vec::new(alloc))),
        Err(TidyError::NestedTooDeep { .. }) => Ok(Some(Vec::new(alloc))),
        Err(TidyError::NotKept) => Ok(None),
        Err(TidyError::Memory(_)) => Err(AllocError),
    }
}

/// The range of a change: null where there is none.
fn replaced_range(alloc: Global, change: &Change) -> Result<Value, AllocError>
    ensures { IfOk result (λ value. view value ≡ range_data change.now.range) }
{
    match change.range {
        Some(range) => range_value(alloc, range.start, range.end),
        None => Ok(Value::Null),
    }
}

/// A change as an edit of the protocol.
fn edit_value(alloc: Global, change: &Change) -> Result<Value, AllocError>
    ensures { IfOk result (λ value. view value ≡ edit_data change.now) }
{
    let range = replaced_range(alloc, change)?;
    let text = change.text.as_str();
    let edit = json!(in alloc; {"range": range, "newText": text})?;
    Ok(edit)
}

/// Changes as edits of the protocol.
pub(crate) fn edits_value(alloc: Global, changes: &[Change]) -> Result<Value, AllocError>
    ensures { IfOk result (λ value. view value ≡ edits_data changes.now) }
{
    let mut edits = Vec::new(alloc);
    for change in changes {
        edits.push(edit_value(alloc, change)?)?;
    }
    Ok(Value::from(edits))
}

/// Edits that failed a test.
pub(crate) const NO_EDITS: Refusal = Refusal {
    code: Code::InternalError,
    message: "the layout can't be told by edits",
};

/// The edits that lay out a text: none where it is tidy or no document.
pub(crate) fn formatted(
    alloc: Global,
    text: &str,
    given: FormattingOptions,
    unit: ColumnUnit,
) -> Result<Answered, AllocError>
    ensures { IfOk result (λ answered. IfOk answered (λ value. IsFormatting unit given text.now value)) }
{
    match changes_to_tidy(alloc, text, layout_of(given, text), unit)? {
        Some(changes) => Ok(Ok(edits_value(alloc, changes.as_slice())?)),
        None => Ok(Err(NO_EDITS)),
    }
}
