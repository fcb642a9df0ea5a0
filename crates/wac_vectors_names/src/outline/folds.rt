//! What of texts can be folded.

use crate::marked::Row;
use std::alloc::{AllocError, Global};
use wac_comments_layout::{ReadError, read};
use wac_lsp_outline::{Fold, folds};

/// A text, and its parts that can be folded, each between `|`; comments with `#` before.
pub(crate) static FOLDS: [Row; 7] = [
    ("package a:b;", ""),
    ("interface i { f: func(); }", "| f: func(); |"),
    ("interface i {}", "||"),
    (
        "world w { import x: interface { } ; }",
        "| || import x: interface { } ; |",
    ),
    ("// a\n/* b\n */", "#|// a|#|/* b\n */|"),
    ("interface i { /* } */ }", "#|/* } */|| /* } */ |"),
    ("} interface i { interface j { }", "| |"),
];

/// Parts of a text.
fn parts(alloc: Global, text: &str, found: &[Fold]) -> Result<String, AllocError> {
    let mut told = String::new(alloc);
    for fold in found {
        let sign = if fold.is_comment { "#" } else { "" };
        let part = text.get(fold.start..fold.end).unwrap_or("?");
        told.push_str(format!(in alloc; "{sign}|{part}|")?.as_str())?;
    }
    Ok(told)
}

/// The parts of a text that can be folded.
pub(crate) fn folded(alloc: Global, text: &str) -> Result<String, AllocError> {
    match read(alloc, text, 1) {
        Ok(pieces) => {
            let found = folds(alloc, pieces.as_slice())?;
            parts(alloc, text, found.as_slice())
        }
        Err(ReadError::Memory(error)) => Err(error),
        Err(ReadError::Refused(_, _)) => Ok(String::new(alloc)),
    }
}
