//! What texts declare: the rows were written by the grammar.

use crate::marked::Row;
use std::alloc::{AllocError, Global};
use wac_lexer::SourceSpan;
use wac_lsp_outline::{Symbol, outline};

/// Statements of documents, and what they declare, as `words` has it.
pub(crate) static STATEMENTS: [Row; 12] = [
    ("package a:b;", ""),
    (
        "package a:b; import x: func(a: u8) -> u8;",
        "Binding x = func(a: u8) -> u8 | import x: func(a: u8) -> u8;\n",
    ),
    (
        "package a:b; import x as \"y\": c:d/e@1.2.0;",
        "Binding x = as \"y\": c:d/e@1.2.0 | import x as \"y\": c:d/e@1.2.0;\n",
    ),
    (
        "package a:b; import x: interface { f: func(); };",
        "Binding x = interface | import x: interface { f: func(); };\n  Function f = func() | f: func();\n",
    ),
    (
        "package a:b; let x = new c:d { a: b, c, ... }; let y = x.z;",
        "Binding x = new c:d | let x = new c:d { a: b, c, ... };\nBinding y = x.z | let y = x.z;\n",
    ),
    (
        "package a:b; let x = (new c:d { }).y[\"z\"];",
        "Binding x = (new c:d | let x = (new c:d { }).y[\"z\"];\n",
    ),
    ("package a:b; export x as y; export x...;", ""),
    (
        "package a:b; record r { a: u8, b: tuple<u8, list<u8>> }",
        "Record r | record r { a: u8, b: tuple<u8, list<u8>> }\n  Field a = u8 | a: u8\n  Field b = tuple<u8, list<u8>> | b: tuple<u8, list<u8>>\n",
    ),
    (
        "package a:b; variant v { a, b(u8), }",
        "Choice v | variant v { a, b(u8), }\n  Case a | a\n  Case b = (u8) | b(u8)\n",
    ),
    (
        "package a:b; enum e { a, b } flags f { c }",
        "Choice e | enum e { a, b }\n  Case a | a\n  Case b | b\nChoice f | flags f { c }\n  Case c | c\n",
    ),
    (
        "package a:b; type t = list<u8>; type g = func();",
        "Alias t = list<u8> | type t = list<u8>;\nAlias g = func() | type g = func();\n",
    ),
    (
        "package a:b; /// doc\nlet %let = x;",
        "Binding %let = x | let %let = x;\n",
    ),
];

/// Interfaces and worlds.
pub(crate) static BODIES: [Row; 8] = [
    ("interface i {}", "Interface i | interface i {}\n"),
    (
        "interface i { use j.{t as u}; f: func(); g: t; }",
        "Interface i | interface i { use j.{t as u}; f: func(); g: t; }\n  Function f = func() | f: func();\n  Function g = t | g: t;\n",
    ),
    (
        "interface i { resource r; resource s { constructor(a: u8); m: func(); n: static func(); } }",
        "Interface i | interface i { resource r; resource s { constructor(a: u8); m: func(); n: static func(); } }\n  Resource r | resource r;\n  Resource s | resource s { constructor(a: u8); m: func(); n: static func(); }\n    Constructor constructor = (a: u8) | constructor(a: u8);\n    Method m = func() | m: func();\n    Method n = static func() | n: static func();\n",
    ),
    (
        "interface i { record r { a: u8 } f: func() -> (x: r); }",
        "Interface i | interface i { record r { a: u8 } f: func() -> (x: r); }\n  Record r | record r { a: u8 }\n    Field a = u8 | a: u8\n  Function f = func() -> (x: r) | f: func() -> (x: r);\n",
    ),
    (
        "world w { import f: func(); export g: async func(); import x: t; }",
        "World w | world w { import f: func(); export g: async func(); import x: t; }\n  Function f = func() | import f: func();\n  Function g = async func() | export g: async func();\n  Binding x = t | import x: t;\n",
    ),
    (
        "world w { import a:b/c@1.0.0; export i; include v with { p as q }; }",
        "World w | world w { import a:b/c@1.0.0; export i; include v with { p as q }; }\n  Interface a:b/c@1.0.0 | import a:b/c@1.0.0;\n  Interface i | export i;\n",
    ),
    (
        "world w { export x: interface { f: func(); }; type t = u8; }",
        "World w | world w { export x: interface { f: func(); }; type t = u8; }\n  Interface x = interface | export x: interface { f: func(); };\n    Function f = func() | f: func();\n  Alias t = u8 | type t = u8;\n",
    ),
    (
        "world w { resource r { constructor(); } }",
        "World w | world w { resource r { constructor(); } }\n  Resource r | resource r { constructor(); }\n    Constructor constructor = () | constructor();\n",
    ),
];

/// Texts with faults.
pub(crate) static FAULTS: [Row; 9] = [
    ("lte x = y; let z = x;", "Binding z = x | let z = x;\n"),
    (
        "import x: func() let y = x;",
        "Binding x = func() | import x: func()\nBinding y = x | let y = x;\n",
    ),
    (
        "record r { a: u8 record s { b: u8 }",
        "Record r | record r { a: u8\n  Field a = u8 | a: u8\nRecord s | record s { b: u8 }\n  Field b = u8 | b: u8\n",
    ),
    (
        "interface i { f: func( } let x = y;",
        "Interface i | interface i { f: func( }\n  Function f = func( | f: func(\nBinding x = y | let x = y;\n",
    ),
    (
        "interface i { f: func();",
        "Interface i | interface i { f: func();\n  Function f = func() | f: func();\n",
    ),
    ("} let x = y; }", "Binding x = y | let x = y;\n"),
    (
        "let = y; interface { f: func(); }",
        "Function f = func() | f: func();\n",
    ),
    (
        "record r { a, : , b",
        "Record r | record r { a, : , b\n  Field a | a\n  Field b | b\n",
    ),
    ("let x", "Binding x | let x\n"),
];

/// The text of a span.
fn slice(text: &str, span: SourceSpan) -> &str {
    let end = span.offset().saturating_add(span.len());
    text.get(span.offset()..end).unwrap_or("?")
}

/// A symbol in words: its kind and its name, what is said of it after `=`, and its declaration, with two blanks before
/// for each that is around it.
fn words(alloc: Global, text: &str, symbol: &Symbol) -> Result<String, AllocError> {
    let indent = "  ".repeat(alloc, symbol.depth)?;
    let kind = symbol.kind;
    let name = slice(text, symbol.name);
    let detail = slice(text, symbol.detail);
    let sign = if detail.is_empty() { "" } else { " = " };
    let declaration = text.get(symbol.start..symbol.end).unwrap_or("?");
    format!(in alloc; "{indent}{kind:?} {name}{sign}{detail} | {declaration}\n")
}

/// What a text declares, a line each.
pub(crate) fn declared(alloc: Global, text: &str) -> Result<String, AllocError> {
    let mut told = String::new(alloc);
    for symbol in &outline(alloc, text)? {
        told.push_str(words(alloc, text, symbol)?.as_str())?;
    }
    Ok(told)
}
