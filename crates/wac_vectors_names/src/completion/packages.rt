//! What is written of the name of a package at an offset.

use crate::marked::Row;
use std::alloc::{AllocError, Global};
use wac_completion::{PackageWord, package_at};

/// What can stand in the place of a word.
fn sort_of(word: &PackageWord<'_>) -> &'static str {
    match (word.may_be_name, word.may_be_path) {
        (true, true) => "name path",
        (true, false) => "name",
        (false, true) => "path",
        (false, false) => "nothing",
    }
}

/// What is written at an offset, as a line: where it begins, its text, and what can stand there.
pub(crate) fn line_at(alloc: Global, text: &str, offset: usize) -> Result<String, AllocError> {
    match package_at(alloc, text, offset) {
        Ok(Some(word)) => {
            let start = word.start;
            let written = word.text;
            let sort = sort_of(&word);
            format!(in alloc; "{start} `{written}` {sort}")
        }
        Ok(None) => Ok(String::new(alloc)),
        Err(error) => Err(error),
    }
}

/// Texts with a mark, and what is written there.
pub(crate) static PACKAGES: [Row; 18] = [
    ("package a:b; let x = new |", "25 `` name"),
    ("package a:b; let x = new c:d@1.|", "25 `c:d@1.` name"),
    ("package a:b; let x = new c|:d {};", "25 `c` name"),
    ("package a:b; let y = ; let x = new c|", "35 `c` name"),
    ("package a:b; import x: c|", "23 `c` path"),
    ("package a:b; import x:|", "22 `` path"),
    ("package a:b; import x:c:d/|", "22 `c:d/` path"),
    ("package a:b; let x = ; import y:c|", "32 `c` path"),
    ("package a:b; let x = new c:d { log:|", ""),
    ("package a:b; import x: func(y:|", ""),
    (
        "package a:b; interface i { use c:d/e@1.0.|",
        "31 `c:d/e@1.0.` path",
    ),
    ("package a:b; world w { include |", "31 `` path"),
    ("package a:b; world w { import |", "30 `` path"),
    ("package a:b targets c:d/|", "20 `c:d/` path"),
    ("package |", ""),
    ("package a:b; let x = |", ""),
    ("package a:b; let x = new c:d |", ""),
    ("package a:b; // new |", ""),
];
