//! Parts of texts in one line.

use crate::marked::Row;

/// A part of a text, and its tokens in one line.
pub(crate) static DETAILS: [Row; 8] = [
    ("", ""),
    ("u8", "u8"),
    ("func(a: u8) -> u8", "func(a: u8) -> u8"),
    ("func(\n    a: u8,\n)", "func( a: u8, )"),
    ("list</* of */u8>", "list< u8>"),
    ("func() // c\n  -> u8", "func() -> u8"),
    ("  new\ta:b  ", "new a:b"),
    ("\"\u{e9}\"", "\"\u{e9}\""),
];
