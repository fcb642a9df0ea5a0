//! What binds each name of a document, and in whose declaration it is.

use std::alloc::{AllocError, Global};
use wac_names::{Kind, Name, Names};

const DOCUMENT: &str = "package a:b;
import i: func(p: u8) -> (r: u8);
let l = i;
interface f {
    resource s { constructor(c: u8); m: func(); }
    variant v { x }
    record k { y: u8 }
    flags g { z }
    enum e { w }
    type t = u8;
    h: func();
    use c:d/j.{u};
}
world n {
    import o: func();
    export q: func();
    include c:d/k with { d as b };
}
";

/// A name, what binds it, and the name in whose declaration it is.
type Row = (&'static str, Kind, Option<&'static str>);

static ROWS: [Row; 23] = [
    ("i", Kind::Import, None),
    ("p", Kind::Parameter, Some("i")),
    ("r", Kind::NamedResult, Some("i")),
    ("l", Kind::Let, None),
    ("f", Kind::Interface, None),
    ("s", Kind::Resource, Some("f")),
    ("c", Kind::Parameter, Some("s")),
    ("m", Kind::Method, Some("s")),
    ("v", Kind::Variant, Some("f")),
    ("x", Kind::Case, Some("v")),
    ("k", Kind::Record, Some("f")),
    ("y", Kind::Field, Some("k")),
    ("g", Kind::Flags, Some("f")),
    ("z", Kind::Flag, Some("g")),
    ("e", Kind::Enum, Some("f")),
    ("w", Kind::Case, Some("e")),
    ("t", Kind::Alias, Some("f")),
    ("h", Kind::Function, Some("f")),
    ("u", Kind::UsedType, Some("f")),
    ("n", Kind::World, None),
    ("o", Kind::WorldImport, Some("n")),
    ("q", Kind::WorldExport, Some("n")),
    ("b", Kind::IncludedItem, Some("n")),
];

/// What the document has in the span of a name.
fn text_of(name: &Name) -> &'static str {
    let start = name.span.offset();
    DOCUMENT
        .get(start..start.saturating_add(name.span.len()))
        .unwrap_or("")
}

/// The text of the name of a number.
fn numbered(names: &[Name], number: Option<usize>) -> Option<&'static str> {
    let name = names.get(number?)?;
    Some(text_of(name))
}

/// Whether a name is the one of a row.
fn is_row(names: &[Name], name: &Name, row: &Row) -> bool {
    let (text, kind, container) = *row;
    text_of(name) == text && name.kind == kind && numbered(names, name.container) == container
}

/// The first row that the names don't have at its place.
fn first_missing(names: &[Name]) -> Option<&'static str> {
    for (at, row) in ROWS.iter().enumerate() {
        match names.get(at) {
            Some(name) if is_row(names, name, row) => {}
            _ => return Some(row.0),
        }
    }
    None
}

/// What is wrong with the names of the document.
pub(crate) fn fault(alloc: Global) -> Result<Option<&'static str>, AllocError> {
    match Names::of_text(alloc, DOCUMENT) {
        Ok(Some(names)) if names.symbols().len() != ROWS.len() => Ok(Some("the number of names")),
        Ok(Some(names)) => Ok(first_missing(names.symbols())),
        Ok(None) => Ok(Some("no names")),
        Err(error) => Err(error),
    }
}
