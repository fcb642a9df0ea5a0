//! Where the name is that is at an offset, where it is bound and where it is used, counted by hand.

use crate::marked::Row;
use crate::spans::line_of;
use std::alloc::{AllocError, Global};
use wac_lsp_names::{definition_at, occurrences_at, references_at};

/// Texts with a mark, and where the name is there.
pub(crate) static PLACES: [Row; 3] = [
    ("package a:b; import log: func(); export l|og;", "40+3"),
    ("package a:b; import log|: func(); export log;", "20+3"),
    ("package a:b; import log: func(); let = |log;", ""),
];

/// Texts with a mark, and where the name is bound that is there.
pub(crate) static DEFINITIONS: [Row; 2] = [
    (
        "package a:b; let = 1; import log: func(); export |log;",
        "29+3",
    ),
    ("package a:b; export |log; import log: func();", ""),
];

/// Texts with a mark, and where the name is used that is there.
pub(crate) static REFERENCES: [Row; 2] = [
    (
        "package a:b targets a:b/w; world |w { } world v { include w; }",
        "57+1 24+1",
    ),
    ("package a:b; import log: fun|c(); export log;", ""),
];

/// Where the name is that is at an offset.
pub(crate) fn place(alloc: Global, text: &str, offset: usize) -> Result<String, AllocError> {
    match occurrences_at(alloc, text, offset) {
        Ok(Some(found)) => line_of(alloc, &[found.at]),
        Ok(None) => Ok(String::new(alloc)),
        Err(error) => Err(error),
    }
}

/// Where the name is bound that is at an offset.
pub(crate) fn definition(alloc: Global, text: &str, offset: usize) -> Result<String, AllocError> {
    match definition_at(alloc, text, offset) {
        Ok(Some(span)) => line_of(alloc, &[span]),
        Ok(None) => Ok(String::new(alloc)),
        Err(error) => Err(error),
    }
}

/// Where the name is used that is at an offset.
pub(crate) fn references(alloc: Global, text: &str, offset: usize) -> Result<String, AllocError> {
    match references_at(alloc, text, offset) {
        Ok(spans) => line_of(alloc, spans.as_slice()),
        Err(error) => Err(error),
    }
}
