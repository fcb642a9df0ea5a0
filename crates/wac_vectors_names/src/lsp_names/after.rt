//! Texts after the edits of a renaming.

use crate::lsp_names::refused::RefusedRow;
use crate::marked::unmarked;
use std::alloc::{AllocError, Global};
use wac_lsp_names::{Edit, Stopped, rename};

/// A text with a mark, the new name of what is there, and the text afterwards.
pub(crate) type Row = (&'static str, &'static str, &'static str);

/// A text after an edit of it. It is empty where the edit doesn't lie in it.
fn edited_once(alloc: Global, text: &str, edit: &Edit) -> Result<String, AllocError> {
    let end = edit.span.offset().saturating_add(edit.span.len());
    let before = text.get(..edit.span.offset()).unwrap_or("");
    let rest = text.get(end..).unwrap_or("");
    let new = edit.text.as_str();
    format!(in alloc; "{before}{new}{rest}")
}

/// A text after edits, the last first: so each is of the text as it was.
fn edited(alloc: Global, text: &str, edits: &[Edit]) -> Result<String, AllocError> {
    let mut after = String::from_str(alloc, text)?;
    for edit in edits.iter().rev() {
        after = edited_once(alloc, after.as_str(), edit)?;
    }
    Ok(after)
}

/// The text in which the name at an offset has another one, or why it doesn't get that.
fn renamed(alloc: Global, text: &str, offset: usize, new: &str) -> Result<String, AllocError> {
    match rename(alloc, text, offset, new) {
        Ok(edits) => edited(alloc, text, edits.as_slice()),
        Err(Stopped::Refused(why)) => String::from_str(alloc, why.message()),
        Err(Stopped::Memory) => Err(AllocError),
    }
}

/// The text in which the name at the mark has another one, or why it doesn't get that.
fn renamed_at_mark(alloc: Global, marked: &str, new: &str) -> Result<String, AllocError> {
    let (text, offset) = unmarked(alloc, marked)?;
    renamed(alloc, text.as_str(), offset, new)
}

/// What comes of the first row of which something else is to come.
pub(crate) fn first_other(alloc: Global, rows: &[Row]) -> Result<Option<String>, AllocError> {
    for (marked, new, expected) in rows {
        let found = renamed_at_mark(alloc, marked, new)?;
        if found.as_str() != *expected {
            return Ok(Some(format!(in alloc; "{marked}\n{found}")?));
        }
    }
    Ok(None)
}

/// What comes of the first row whose name is to be refused for a reason, and isn't.
pub(crate) fn first_allowed(
    alloc: Global,
    rows: &[RefusedRow],
) -> Result<Option<String>, AllocError> {
    for (marked, new, why) in rows {
        let found = renamed_at_mark(alloc, marked, new)?;
        if found.as_str() != why.message() {
            return Ok(Some(format!(in alloc; "{marked}\n{found}")?));
        }
    }
    Ok(None)
}
