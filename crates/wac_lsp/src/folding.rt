//! Which parts of a document can be folded, as values of the protocol.
use crate::members::put_member;
use crate::pieces::pieces_of;
use crate::places::View;
use crate::questions::Subject;
use serde_json::{Value, json};
use std::alloc::{AllocError, Global};
use wac_lsp_outline::{Fold, folds};

/// Where lines are folded.
fn lines_value(alloc: Global, view: &View<'_>, fold: &Fold) -> Result<Value, AllocError> {
    let first = view.place(fold.start).line;
    let last = view.place(fold.end).line;
    json!(in alloc; {"startLine": first, "endLine": last})
}

/// Where a part is folded, from one column to another.
fn columns_value(alloc: Global, view: &View<'_>, fold: &Fold) -> Result<Value, AllocError> {
    let first = view.place(fold.start);
    let last = view.place(fold.end);
    let line = first.line;
    let column = first.column;
    let end_line = last.line;
    let end_column = last.column;
    json!(in alloc; {
        "startLine": line,
        "startCharacter": column,
        "endLine": end_line,
        "endCharacter": end_column
    })
}

/// A part that can be folded: its lines alone, for a client that folds no others.
fn fold_value(
    alloc: Global,
    view: &View<'_>,
    fold: &Fold,
    by_lines: bool,
) -> Result<Value, AllocError> {
    let mut value = if by_lines {
        lines_value(alloc, view, fold)?
    } else {
        columns_value(alloc, view, fold)?
    };
    if fold.is_comment {
        let kind = Value::try_from_str(alloc, "comment")?;
        put_member(alloc, &mut value, "kind", kind)?;
    }
    Ok(value)
}

/// Whether a part has more than one line.
fn has_lines(view: &View<'_>, fold: &Fold) -> bool {
    view.place(fold.start).line < view.place(fold.end).line
}

/// The parts of a document that can be folded, up to its first rejected character: those of more than one line.
pub(crate) fn folding_ranges(alloc: Global, about: &Subject<'_>) -> Result<Value, AllocError> {
    let pieces = pieces_of(alloc, about.text)?;
    let view = View::new(alloc, about.text, about.unit)?;
    let found = folds(alloc, pieces.as_slice())?;
    let mut values = Vec::new(alloc);
    for fold in found.as_slice() {
        if has_lines(&view, fold) {
            let by_lines = about.features.folds_lines;
            values.push(fold_value(alloc, &view, fold, by_lines)?)?;
        }
    }
    Ok(Value::Array(values))
}
