//! Which names of foreign packages an offset asks for.

use crate::marked::Row;
use std::alloc::{AllocError, Global};
use wac_completion::{Asked, Foreign, Origin, foreign_at};

/// A line with a word and the texts after it.
fn joined(alloc: Global, word: &str, texts: &[&str]) -> Result<String, AllocError> {
    let mut line = String::from_str(alloc, word)?;
    for text in texts {
        line.push(' ')?;
        line.push_str(text)?;
    }
    Ok(line)
}

/// What is asked for and where the quote is, as a line.
fn asked_line(alloc: Global, asked: &Asked<'_>) -> Result<String, AllocError> {
    let line = foreign_line(alloc, &asked.foreign)?;
    match asked.quote {
        Some(at) => format!(in alloc; "{at} {line}"),
        None => Ok(line),
    }
}

/// What is asked for, as a line.
fn foreign_line(alloc: Global, foreign: &Foreign<'_>) -> Result<String, AllocError> {
    match foreign {
        Foreign::Argument { package, given } => {
            let word = format!(in alloc; "argument {package}")?;
            joined(alloc, word.as_str(), given)
        }
        Foreign::Export { origin, along } => {
            let word = match origin {
                Origin::Package(package) => format!(in alloc; "export {package}")?,
                Origin::Interface(path) => format!(in alloc; "export {path}")?,
            };
            joined(alloc, word.as_str(), along)
        }
        Foreign::UsedType { path, given } => {
            let word = format!(in alloc; "type {path}")?;
            joined(alloc, word.as_str(), given)
        }
    }
}

/// What an offset asks for, as a line: where the quote is, if there is one, what, of which package, and what is given
/// or leads there.
pub(crate) fn line_at(alloc: Global, text: &str, offset: usize) -> Result<String, AllocError> {
    match foreign_at(alloc, text, offset) {
        Ok(Some(asked)) => asked_line(alloc, &asked),
        Ok(None) => Ok(String::new(alloc)),
        Err(error) => Err(error),
    }
}

/// Texts with a mark, and what it asks for.
pub(crate) static FOREIGN: [Row; 42] = [
    ("package a:b; let x = new c:d { |", "argument c:d"),
    (
        "package a:b; let x = new c:d@1.2.0 {|}",
        "argument c:d@1.2.0",
    ),
    ("package a:b; let x = new c:d { log, s|", "argument c:d log"),
    (
        "package a:b; let x = new c:d { log: y, |",
        "argument c:d log",
    ),
    (
        "package a:b; let x = new c:d { \"e:f/g@1.0.0\": y, |",
        "argument c:d e:f/g@1.0.0",
    ),
    ("package a:b; let x = new c:d { ...y, |", "argument c:d"),
    ("package a:b; let x = new c:d { log: |", ""),
    ("package a:b; let x = new c:d { log |", ""),
    (
        "package a:b; let x = new c:d { log: new e:f { |",
        "argument e:f",
    ),
    (
        "package a:b; let x = new c:d { log: new e:f { z }, |",
        "argument c:d log",
    ),
    (
        "package a:b; let x = new c:d { log: new e:f {}.|",
        "export e:f",
    ),
    ("package a:b; let x = new c:d {}; export x.|", "export c:d"),
    ("package a:b; let x = new c:d {}; export x.l|", "export c:d"),
    (
        "package a:b; let x = new c:d {}; export x.y.|",
        "export c:d y",
    ),
    (
        "package a:b; let x = new c:d {}.y; export x.|",
        "export c:d y",
    ),
    (
        "package a:b; let x = new c:d {}.y; let z = x[\"e:f/g\"]; export z.v.|",
        "export c:d y e:f/g v",
    ),
    (
        "package a:b; let x = new c:d {}; let y = x; let z = (y); export z.|",
        "export c:d",
    ),
    (
        "package a:b; import x: c:d/e@1.0.0; export x.|",
        "export c:d/e@1.0.0",
    ),
    (
        "package a:b; import x as \"y\": c:d/e; let z = new f:g { x: x.|",
        "export c:d/e",
    ),
    ("package a:b; world w { import x: c:d/e; } export x.|", ""),
    ("package a:b; import x: interface { }; export x.|", ""),
    (
        "package a:b; import x: c:d/e; export x[\"|",
        "39 export c:d/e",
    ),
    (
        "package a:b; import x: c:d/e; export x.y[\"f:g/h|",
        "41 export c:d/e y",
    ),
    ("package a:b; import x: c:d/e; export x[\"y\"|", ""),
    ("package a:b; import x: c:d/e; export x[|", ""),
    (
        "package a:b; let x = new c:d { log, \"s|",
        "36 argument c:d log",
    ),
    ("package a:b; let x = new c:d { log: \"s|", ""),
    ("package a:b; import x: func(); export x as \"|", ""),
    ("package a:b; import x: func(); export x.|", ""),
    (
        "package a:b; let x = new c:d {}; let x = new e:f {}; export x.|",
        "export e:f",
    ),
    (
        "package a:b; let x = (new c:d {}); export x.|",
        "export c:d",
    ),
    ("package a:b; interface i { use c:d/e.{|", "type c:d/e"),
    (
        "package a:b; interface i { use c:d/e@1.0.0.{t, u as v, |",
        "type c:d/e@1.0.0 t u",
    ),
    ("package a:b; interface i { use e.{|", ""),
    ("package a:b; interface i { |", ""),
    ("package a:b; // new c:d { |", ""),
    ("package a:b; let x = new c:d { // s|", ""),
    ("package a:b; let x = new c:d { /* s|", ""),
    ("package a:b; let x = new c:d { /* s */ |", "argument c:d"),
    ("package a:b; let y = ; let x = new c:d { |", "argument c:d"),
    ("package a:b; let x = new c:d { log: ) , |", ""),
    ("package a:b; export |", ""),
];
