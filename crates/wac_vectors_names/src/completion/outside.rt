//! Words at an offset, comments, strings, faults and brackets.

use crate::completion::kinds::{EXPRESSION, STATEMENT};
use crate::marked::Row;

/// Texts with a mark, and the kinds that can stand there.
pub(crate) static OUTSIDE: [Row; 39] = [
    // Words that touch the offset, which are cut off.
    ("pack|", "package"),
    ("package|", "package"),
    ("package a:b; le|", STATEMENT),
    ("package a:b; let x = ne|w y:z {};", "id new ("),
    (
        "package a:b; import x: %fu|",
        "id path func interface async",
    ),
    ("package a:b; let x = y.z|", "id"),
    (
        "package a:b; type t = error-con|",
        "id tuple list option result borrow func u8 s8 u16 s16 u32 s32 u64 s64 f32 f64 char bool string async stream future error-context",
    ),
    ("package a:b; import x: func() -|", "; ->"),
    (
        "package a:b; import x: func() ->|",
        "id tuple list option result borrow u8 s8 u16 s16 u32 s32 u64 s64 f32 f64 char bool string stream future error-context ; (",
    ),
    ("package a:b; interface i { use a.{b|", "id }"),
    ("package a:b|", ""),
    ("package a:b; import x: c:d/e|", ""),
    // Comments, and what is after them.
    ("//|", ""),
    ("/// do|", ""),
    ("/// docs |", ""),
    ("/// docs\n|", "package"),
    ("package a:b; // c|", ""),
    ("package a:b; // c\n|", STATEMENT),
    ("package a:b; /* |", ""),
    ("package a:b; /* c |*/ let x = y;", ""),
    ("package a:b; /* c */|", STATEMENT),
    ("package a:b; /* c */ |", STATEMENT),
    ("package a:b; let x /* = */ |", "="),
    // Strings.
    ("package a:b; import x as \"|", ""),
    ("package a:b; import x as \"y|\": z;", ""),
    ("package a:b; import x as \"y |\": z;", ""),
    ("package a:b; import x as \"y\"|: z;", ":"),
    ("package a:b; let x = y[\"z|", ""),
    ("package a:b; let x = y[\"//|", ""),
    ("package a:b; let x = y[\"//\"|", "]"),
    // Texts with a fault before the offset, and with others after it.
    ("package a:b; let = |", ""),
    ("package a:b; let x = y; ) |", ""),
    ("package a:b; let x = \u{e9} |", ""),
    ("package a:b@1.0; |", ""),
    ("package a:b@1.0.0; |", STATEMENT),
    ("let |", ""),
    ("package a:b; let x |= = ) \u{e9} /*", "="),
    ("package a:b; \u{202a}|", ""),
    // Brackets.
    (
        "package a:b; let x = ((((((((((((((((((((((((((((((((((((((((((((((((((|",
        EXPRESSION,
    ),
];
