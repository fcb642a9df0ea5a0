//! Statements and expressions.

use crate::completion::kinds::{EXPRESSION, STATEMENT, TYPE};
use crate::marked::Row;

/// Texts with a mark, and the kinds that can stand there.
pub(crate) static STATEMENTS: [Row; 64] = [
    // The directive.
    ("|", "package"),
    ("// c\n|", "package"),
    ("package |", "name"),
    ("package a:b |", "targets ;"),
    ("package a:b targets |", "path"),
    ("package a:b targets c:d/e |", ";"),
    ("package a:b; |", STATEMENT),
    ("package a:b;\nexport x;\n|", STATEMENT),
    // Imports.
    ("package a:b; import |", "id"),
    ("package a:b; import x |", "as :"),
    ("package a:b; import x as |", "id str"),
    ("package a:b; import x as y |", ":"),
    ("package a:b; import x as \"y\" |", ":"),
    ("package a:b; import x: |", "id path func interface async"),
    ("package a:b; import x: y |", ";"),
    ("package a:b; import x: c:d/e |", ";"),
    ("package a:b; import x: interface |", "{"),
    (
        "package a:b; import x: interface { |",
        "id type resource variant record flags enum use }",
    ),
    ("package a:b; import x: interface {} |", ";"),
    ("package a:b; import x: y; |", STATEMENT),
    // Functions.
    ("package a:b; import x: async |", "func"),
    ("package a:b; import x: func |", "("),
    ("package a:b; import x: func( |", "id )"),
    ("package a:b; import x: func(a |", ":"),
    ("package a:b; import x: func(a: |", TYPE),
    ("package a:b; import x: func(a: u8 |", ") ,"),
    ("package a:b; import x: func(a: u8, |", "id )"),
    ("package a:b; import x: func() |", "; ->"),
    (
        "package a:b; import x: func() -> |",
        "id tuple list option result borrow u8 s8 u16 s16 u32 s32 u64 s64 f32 f64 char bool string stream future error-context ; (",
    ),
    ("package a:b; import x: func() -> ( |", "id"),
    ("package a:b; import x: func() -> (a: u8 |", ") ,"),
    ("package a:b; import x: func() -> (a: u8, |", "id )"),
    ("package a:b; import x: func() -> (a: u8) |", ";"),
    ("package a:b; import x: func() -> u8 |", ";"),
    // `let` and expressions.
    ("package a:b; let |", "id"),
    ("package a:b; let x |", "="),
    ("package a:b; let x = |", EXPRESSION),
    ("package a:b; let x = y |", "; [ ."),
    ("package a:b; let x = ( |", EXPRESSION),
    ("package a:b; let x = (y |", ") [ ."),
    ("package a:b; let x = (y) |", "; [ ."),
    ("package a:b; let x = y. |", "id"),
    ("package a:b; let x = y.z |", "; [ ."),
    ("package a:b; let x = y[ |", "str"),
    ("package a:b; let x = y[\"z\" |", "]"),
    ("package a:b; let x = y[\"z\"] |", "; [ ."),
    // Instantiations.
    ("package a:b; let x = new |", "name"),
    ("package a:b; let x = new c:d |", "{"),
    ("package a:b; let x = new c:d { |", "id str } ..."),
    ("package a:b; let x = new c:d { a |", "} : ,"),
    ("package a:b; let x = new c:d { \"a\" |", ":"),
    ("package a:b; let x = new c:d { a: |", EXPRESSION),
    ("package a:b; let x = new c:d { \"a\": |", EXPRESSION),
    ("package a:b; let x = new c:d { a: b |", "} [ . ,"),
    ("package a:b; let x = new c:d { a, |", "id str } ..."),
    ("package a:b; let x = new c:d { ... |", "id } ,"),
    ("package a:b; let x = new c:d { ...a |", "} ,"),
    ("package a:b; let x = new c:d {} |", "; [ ."),
    // Exports.
    ("package a:b; export |", EXPRESSION),
    ("package a:b; export x |", "as ; [ . ..."),
    ("package a:b; export x as |", "id str"),
    ("package a:b; export x as y |", ";"),
    ("package a:b; export x as \"y\" |", ";"),
    ("package a:b; export x... |", ";"),
];
