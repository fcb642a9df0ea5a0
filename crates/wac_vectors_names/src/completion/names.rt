//! Names at an offset, and completions. The names are by the rules of docs/RESOLVING.md.

use crate::marked::Row;
use std::alloc::{AllocError, Global};
use wac_completion::{completions_at, names_at};
use wac_lexer::SourceSpan;

/// Adds a text after a blank.
fn add(line: &mut String, text: &str) -> Result<(), AllocError> {
    if !line.is_empty() {
        line.push(' ')?;
    }
    line.push_str(text)
}

/// The text of a span.
fn slice(text: &str, span: SourceSpan) -> &str {
    let end = span.offset().saturating_add(span.len());
    text.get(span.offset()..end).unwrap_or("?")
}

/// The names that can stand at an offset, as they are spelled where they are bound.
pub(crate) fn names_line(alloc: Global, text: &str, offset: usize) -> Result<String, AllocError> {
    let mut line = String::new(alloc);
    for name in &names_at(alloc, text, offset)? {
        add(&mut line, slice(text, name.span))?;
    }
    Ok(line)
}

/// The completions at an offset.
pub(crate) fn completions_line(
    alloc: Global,
    text: &str,
    offset: usize,
) -> Result<String, AllocError> {
    let mut line = String::new(alloc);
    for completion in &completions_at(alloc, text, offset)?.all {
        add(&mut line, completion.label.as_str())?;
    }
    Ok(line)
}

/// Texts with a mark, and the names that can stand there.
pub(crate) static NAMES: [Row; 25] = [
    ("package a:b; import x: func(); let y = |", "x"),
    ("package a:b; import x: func(); let y = x; export |", "x y"),
    ("package a:b; import x: func(); let y = x; export (|", "x y"),
    ("package a:b; export |; let z = new c:d {};", ""),
    ("package a:b; interface i {} import x: |", "i"),
    ("package a:b; interface i {} let |", ""),
    ("package a:b; type t = u8; type u = list<|", "t"),
    (
        "package a:b; type t = u8; interface i { type u = u8; f: func(p: |",
        "u",
    ),
    (
        "package a:b; interface i {} world w { type u = u8; import x: |",
        "i u",
    ),
    ("package a:b; interface i {} interface j { use |", "i"),
    (
        "package a:b; interface i { type t = u8; f: func(); resource r; } interface j { use i.{|",
        "t r",
    ),
    (
        "package a:b; interface i { type t = u8; resource r; } interface j { use i.{t as u, |",
        "t r",
    ),
    (
        "package a:b; interface i { type t = u8; } interface j { use i.{t as u}; f: func() -> |",
        "u",
    ),
    (
        "package a:b; import x: interface { f: func(); g: func(); } ; let y = x.|",
        "f g",
    ),
    (
        "package a:b; interface i { f: func(); } import x: i; let y = x.|",
        "f",
    ),
    (
        "package a:b; interface i { f: func(); } import x: func(); let y = x.|",
        "",
    ),
    ("package a:b; import x: func(); let y = new c:d { |", "x"),
    ("package a:b; import x: func(); let y = new c:d { a: |", "x"),
    ("package a:b; world v {} world w { include |", "v"),
    ("package a:b; import x: func(); let = 5; let y = |", "x"),
    ("package a; import x: func(); export |", "x"),
    ("package a:b; import x: func(); export export |", ""),
    ("package a:b; import foo: func(); export ba|r;", "foo"),
    ("package a:b; import x: func(); // |", ""),
    ("package a:b; import %let: func(); export |", "%let"),
];

/// Texts with a mark, and the completions there.
pub(crate) static COMPLETIONS: [Row; 12] = [
    ("package a:b; le|", "let"),
    ("package a:b; import log: func(); export l|", "log"),
    (
        "package a:b; import new-log: func(); export ne|",
        "new-log new",
    ),
    ("package a:b; import %let: func(); export le|", "%let"),
    ("package a:b; import %let: func(); export %|", "%let"),
    ("package a:b; let = 5; in|", "interface"),
    ("package a:b; import x: in|", "interface"),
    ("package a:b; type t = s|", "s8 s16 s32 s64 string stream"),
    ("package a:b; let x = y |", "; [ ."),
    ("package a:b; // l|", ""),
    ("package a:b; let let le|", ""),
    ("package a:b; let x = 5; le|", "let"),
];
