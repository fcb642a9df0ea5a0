//! Texts with a mark.

use std::alloc::{AllocError, Global};

/// A text with a mark, `|`, where something is asked about it, and the answer.
pub(crate) type Row = (&'static str, &'static str);

/// A text without its mark, and where that was: at its end where there is none.
pub(crate) fn unmarked(alloc: Global, marked: &str) -> Result<(String, usize), AllocError> {
    let (before, after) = marked.split_once('|').unwrap_or((marked, ""));
    let text = format!(in alloc; "{before}{after}")?;
    Ok((text, before.len()))
}
