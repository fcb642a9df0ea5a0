//! Types and declarations.

use crate::completion::kinds::{STATEMENT, TYPE};
use crate::marked::Row;

/// Texts with a mark, and the kinds that can stand there.
pub(crate) static TYPES: [Row; 52] = [
    // Aliases, and types without others in them.
    ("package a:b; type |", "id"),
    ("package a:b; type t |", "="),
    (
        "package a:b; type t = |",
        "id tuple list option result borrow func u8 s8 u16 s16 u32 s32 u64 s64 f32 f64 char bool string async stream future error-context",
    ),
    ("package a:b; type t = u8 |", ";"),
    ("package a:b; type t = u |", ";"),
    ("package a:b; type t = error-context |", ";"),
    ("package a:b; type t = func() |", "; ->"),
    // Types with others in them.
    ("package a:b; type t = tuple |", "<"),
    ("package a:b; type t = tuple< |", TYPE),
    ("package a:b; type t = tuple<u8 |", "> ,"),
    (
        "package a:b; type t = tuple<u8, |",
        "id tuple list option result borrow u8 s8 u16 s16 u32 s32 u64 s64 f32 f64 char bool string stream future error-context >",
    ),
    ("package a:b; type t = list |", "<"),
    ("package a:b; type t = list< |", TYPE),
    ("package a:b; type t = list<u8 |", ">"),
    ("package a:b; type t = option |", "<"),
    ("package a:b; type t = option<u8 |", ">"),
    ("package a:b; type t = borrow |", "<"),
    ("package a:b; type t = borrow< |", "id"),
    ("package a:b; type t = borrow<r |", ">"),
    ("package a:b; type t = stream |", "; <"),
    ("package a:b; type t = stream< |", TYPE),
    ("package a:b; type t = future<u8 |", ">"),
    // Results.
    ("package a:b; type t = result |", "; <"),
    (
        "package a:b; type t = result< |",
        "id tuple list option result borrow u8 s8 u16 s16 u32 s32 u64 s64 f32 f64 char bool string stream future error-context _",
    ),
    ("package a:b; type t = result<u8 |", "> ,"),
    ("package a:b; type t = result<_ |", "> ,"),
    (
        "package a:b; type t = result<_, |",
        "id tuple list option result borrow u8 s8 u16 s16 u32 s32 u64 s64 f32 f64 char bool string stream future error-context _",
    ),
    ("package a:b; type t = result<_, u8 |", ">"),
    // Variants. An empty body can't be closed.
    ("package a:b; variant |", "id"),
    ("package a:b; variant v |", "{"),
    ("package a:b; variant v { |", "id"),
    ("package a:b; variant v { a |", "} ( ,"),
    ("package a:b; variant v { a( |", TYPE),
    ("package a:b; variant v { a(u8 |", ")"),
    ("package a:b; variant v { a(u8) |", "} ,"),
    ("package a:b; variant v { a, |", "id }"),
    ("package a:b; variant v { a } |", STATEMENT),
    // Records, flags and enums.
    ("package a:b; record |", "id"),
    ("package a:b; record r { |", "id"),
    ("package a:b; record r { a |", ":"),
    ("package a:b; record r { a: |", TYPE),
    ("package a:b; record r { a: u8 |", "} ,"),
    ("package a:b; record r { a: u8, |", "id }"),
    ("package a:b; flags f |", "{"),
    ("package a:b; flags f { |", "id"),
    ("package a:b; flags f { a |", "} ,"),
    ("package a:b; flags f { a, |", "id }"),
    ("package a:b; enum e |", "{"),
    ("package a:b; enum e { |", "id"),
    ("package a:b; enum e { a |", "} ,"),
    ("package a:b; enum e { a, |", "id }"),
    ("package a:b; enum e { a } |", STATEMENT),
];
