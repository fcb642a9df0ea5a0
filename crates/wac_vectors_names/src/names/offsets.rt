//! Where the name is bound that is at an offset, and where it is used, counted by hand.

use crate::marked::Row;
use crate::spans::line_of;
use std::alloc::{AllocError, Global};
use wac_names::Names;

/// Texts with a mark, and the place where the name is bound that is there.
pub(crate) static BOUND: [Row; 16] = [
    (
        "|package a:b; import log: func(); export log as \"log\";",
        "",
    ),
    (
        "package a:b;| import log: func(); export log as \"log\";",
        "",
    ),
    (
        "package a:b; import| log: func(); export log as \"log\";",
        "",
    ),
    (
        "package a:b; import |log: func(); export log as \"log\";",
        "20+3",
    ),
    (
        "package a:b; import lo|g: func(); export log as \"log\";",
        "20+3",
    ),
    (
        "package a:b; import log|: func(); export log as \"log\";",
        "20+3",
    ),
    (
        "package a:b; import log:| func(); export log as \"log\";",
        "",
    ),
    (
        "package a:b; import log: func(); export| log as \"log\";",
        "",
    ),
    (
        "package a:b; import log: func(); export |log as \"log\";",
        "20+3",
    ),
    (
        "package a:b; import log: func(); export l|og as \"log\";",
        "20+3",
    ),
    (
        "package a:b; import log: func(); export log| as \"log\";",
        "20+3",
    ),
    (
        "package a:b; import log: func(); export log |as \"log\";",
        "",
    ),
    (
        "package a:b; import log: func(); export log as \"l|og\";",
        "",
    ),
    (
        "package a:b; import log: func(); export log as \"log\";|",
        "",
    ),
    // What is used under its own name is the same name, and what is renamed is free again.
    (
        "package a:b; interface i { type t = u8; } interface j { use i.{t}; f: func() -> |t; }",
        "32+1",
    ),
    (
        "package a:b; world v { import p: func(); } world w { include v with { p as q }; import p: func(); } world u { include w with { |p as r }; }",
        "87+1",
    ),
];

/// Texts with a mark, and the places where the name is used that is there.
pub(crate) static USED: [Row; 2] = [
    (
        "package a:b; import |log: func(); export log as \"log\"; export log;",
        "40+3 61+3",
    ),
    ("package a:b; import log: func|(); export log;", ""),
];

/// Where the name is bound that is at an offset.
pub(crate) fn bound(alloc: Global, text: &str, offset: usize) -> Result<String, AllocError> {
    match Names::of_text(alloc, text) {
        Ok(Some(names)) => match names.definition_at(offset) {
            Some(name) => line_of(alloc, &[name.span]),
            None => Ok(String::new(alloc)),
        },
        Ok(None) => String::from_str(alloc, "no names"),
        Err(error) => Err(error),
    }
}

/// Where the name is used that is at an offset.
pub(crate) fn used(alloc: Global, text: &str, offset: usize) -> Result<String, AllocError> {
    match Names::of_text(alloc, text) {
        Ok(Some(names)) => {
            let spans = names.references_at(alloc, offset)?;
            line_of(alloc, spans.as_slice())
        }
        Ok(None) => String::from_str(alloc, "no names"),
        Err(error) => Err(error),
    }
}
