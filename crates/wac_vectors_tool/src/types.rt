//! Types and declarations of types: the entries that they add to the table of a graph, and their errors.

use crate::documents::{Row, With, hold};
use crate::readings::Asked;
use std::alloc::AllocError;
use std::test::Fail;
use wac_resolution::Error;

/// Documents, and the entries of the tables of their graphs.
static ENTRIES: &[Row] = &[
    (With::Nothing, "package a:b; type a = u8;", "alias U8; "),
    (
        With::Nothing,
        "package a:b; type a = list<u8>; type b = a;",
        "list U8; alias 0; alias 1; ",
    ),
    (
        With::Nothing,
        "package a:b; type a = tuple<s8, option<char>, f64>;",
        "option Char; tuple S8 0 F64; alias 1; ",
    ),
    (
        With::Nothing,
        "package a:b; type a = result<u8, string>;",
        "result U8 String; alias 0; ",
    ),
    (
        With::Nothing,
        "package a:b; type a = result<_, bool>;",
        "result - Bool; alias 0; ",
    ),
    (
        With::Nothing,
        "package a:b; type a = result;",
        "result - -; alias 0; ",
    ),
    (
        With::Nothing,
        "package a:b; import x: interface { resource r; }; let r = x.r; type a = list<r>;",
        "resource r; interface; list own 0; alias 2; ",
    ),
    (
        With::Nothing,
        "package a:b; import x: interface { resource r; }; let r = x.r; type a = list<borrow<r>>;",
        "resource r; interface; list borrow 0; alias 2; ",
    ),
    (
        With::Nothing,
        "package a:b; type a = stream<u32>; type b = future;",
        "stream U32; alias 0; future -; alias 2; ",
    ),
    (
        With::Nothing,
        "package a:b; variant a { x, y(list<u16>), z(error-context) }",
        "list U16; variant x: - y: 0 z: ErrorContext; ",
    ),
    (
        With::Nothing,
        "package a:b; import x: interface { resource r; }; let r = x.r; record a { x: u8, y: r } record b { x: a }",
        "resource r; interface; record x: U8 y: own 0; record x: 2; ",
    ),
    (
        With::Nothing,
        "package a:b; flags a { y, x, %z }",
        "flags y x z; ",
    ),
    (With::Nothing, "package a:b; enum a { y, x }", "enum y x; "),
    (
        With::Nothing,
        "package a:b; import x: interface { resource r; }; let r = x.r; type a = func(x: u8, y: borrow<r>) -> r;",
        "resource r; interface; func x: U8 y: borrow 0 -> own 0; ",
    ),
    (
        With::Nothing,
        "package a:b; import x: interface { resource r; }; let r = x.r; type a = func(x: u8) -> (x: u8, y: list<r>);",
        "resource r; interface; list own 0; func x: U8 -> x: U8 y: 2; ",
    ),
    (
        With::Nothing,
        "package a:b; interface g { resource r; type a = async func() -> (%a: r,); }",
        "resource r; async func -> a: own 0; interface; ",
    ),
    (
        With::Nothing,
        "package a:b; import f: func(); type a = async func(); type b = a; type c = f;",
        "func -> -; async func -> -; ",
    ),
    (
        With::Nothing,
        "package a:b; interface g { type a = u8; type b = func(); }",
        "alias U8; func -> -; interface; ",
    ),
    (
        With::Nothing,
        "package a:b; interface g { resource r; f: func(a: r); } interface h { resource r; f: func(a: r); }",
        "resource r; func a: own 0 -> -; interface; resource r; func a: own 3 -> -; interface; ",
    ),
    (
        With::Nothing,
        "package a:b; interface g { resource r; type a = r; type b = a; }",
        "resource r; resource a of 0; resource b of 1; interface; ",
    ),
    (
        With::Nothing,
        "package a:b; interface i { resource q; } interface g { use i.{ q }; type a = q; }",
        "resource q; interface; resource a of 0; interface; ",
    ),
    (
        With::Nothing,
        "package a:b; interface g { resource r { constructor(x: u8); m: func(x: r) -> list<u8>; s: static func(self: u8); n: async func(); } }",
        "resource r; func x: U8 -> own 0; list U8; func self: borrow 0 x: own 0 -> 2; func self: U8 -> -; async func self: borrow 0 -> -; interface; ",
    ),
    (
        With::Nothing,
        "package a:b; interface g { resource r { constructor(); m: func() -> (self: u8, x: r); s: static func() -> (a: u8); } }",
        "resource r; func -> own 0; func self: borrow 0 -> self: U8 x: own 0; func -> a: U8; interface; ",
    ),
];

/// Documents whose last declaration breaks a rule.
static ERRORS: &[Row] = &[
    (
        With::Nothing,
        "package a:b; type a = list<%x>;",
        "27+2: undefined name `x`\nUndefinedName { name: \"x\", span: SourceSpan { offset: 27, len: 2 } }",
    ),
    (
        With::Nothing,
        "package a:b; type a = y;",
        "22+1: undefined name `y`\nUndefinedName { name: \"y\", span: SourceSpan { offset: 22, len: 1 } }",
    ),
    (
        With::Nothing,
        "package a:b; interface g { type a = y; }",
        "36+1: undefined name `y`\nUndefinedName { name: \"y\", span: SourceSpan { offset: 36, len: 1 } }",
    ),
    (
        With::Nothing,
        "package a:b; interface i { } record a { x: i }",
        "43+1: `i` (interface) cannot be used as a value type\nNotValueType { name: \"i\", kind: \"interface\", span: SourceSpan { offset: 43, len: 1 } }",
    ),
    (
        With::Nothing,
        "package a:b; type t = func(); variant a { x(t) }",
        "44+1: `t` (function type) cannot be used as a value type\nNotValueType { name: \"t\", kind: \"function type\", span: SourceSpan { offset: 44, len: 1 } }",
    ),
    (
        With::Nothing,
        "package a:b; import f: func(); type t = f; record a { x: t }",
        "57+1: `t` (function type) cannot be used as a value type\nNotValueType { name: \"t\", kind: \"function type\", span: SourceSpan { offset: 57, len: 1 } }",
    ),
    (
        With::Nothing,
        "package a:b; import f: func(); type a = option<f>;",
        "47+1: `f` (function) cannot be used as a value type\nNotValueType { name: \"f\", kind: \"function\", span: SourceSpan { offset: 47, len: 1 } }",
    ),
    (
        With::Nothing,
        "package a:b; type t = u8; type a = func(x: borrow<t>);",
        "50+1: `t` (value type) is not a resource type\nNotResourceType { name: \"t\", kind: \"value type\", span: SourceSpan { offset: 50, len: 1 } }",
    ),
    (
        With::Nothing,
        "package a:b; type a = func(x: borrow<x>);",
        "37+1: undefined name `x`\nUndefinedName { name: \"x\", span: SourceSpan { offset: 37, len: 1 } }",
    ),
    (
        With::Nothing,
        "package a:b; variant v { a(u8), b, a }",
        "35+1: duplicate case `a` for variant type `v`\nDuplicateVariantCase { case: \"a\", name: \"v\", span: SourceSpan { offset: 35, len: 1 } }",
    ),
    (
        With::Nothing,
        "package a:b; variant v { a, a(x) }",
        "30+1: undefined name `x`\nUndefinedName { name: \"x\", span: SourceSpan { offset: 30, len: 1 } }",
    ),
    (
        With::Nothing,
        "package a:b; record r { a: u8, a: u8, b: y }",
        "31+1: duplicate field `a` for record type `r`\nDuplicateRecordField { field: \"a\", name: \"r\", span: SourceSpan { offset: 31, len: 1 } }",
    ),
    (
        With::Nothing,
        "package a:b; record r { a: u8, a: y }",
        "34+1: undefined name `y`\nUndefinedName { name: \"y\", span: SourceSpan { offset: 34, len: 1 } }",
    ),
    (
        With::Nothing,
        "package a:b; enum e { a, b, %a }",
        "28+2: duplicate case `a` for enum type `e`\nDuplicateEnumCase { case: \"a\", name: \"e\", span: SourceSpan { offset: 28, len: 2 } }",
    ),
    (
        With::Nothing,
        "package a:b; flags f { a, b, a }",
        "29+1: duplicate flag `a` for flags type `f`\nDuplicateFlag { flag: \"a\", name: \"f\", span: SourceSpan { offset: 29, len: 1 } }",
    ),
    (
        With::Nothing,
        "package a:b; type a = func(x: u8, x: u8);",
        "34+1: duplicate function parameter `x`\nDuplicateParameter { kind: Free, name: \"x\", span: SourceSpan { offset: 34, len: 1 } }",
    ),
    (
        With::Nothing,
        "package a:b; type a = func(x: u8, x: y);",
        "37+1: undefined name `y`\nUndefinedName { name: \"y\", span: SourceSpan { offset: 37, len: 1 } }",
    ),
    (
        With::Nothing,
        "package a:b; import x: interface { resource r; }; let r = x.r; type a = func() -> list<borrow<r>>;",
        "82+15: function result cannot recursively contain a borrow type\nBorrowInResult { span: SourceSpan { offset: 82, len: 15 } }",
    ),
    (
        With::Nothing,
        "package a:b; import x: interface { resource r; }; let r = x.r; record t { x: list<borrow<r>> } type a = func() -> t;",
        "114+1: function result cannot recursively contain a borrow type\nBorrowInResult { span: SourceSpan { offset: 114, len: 1 } }",
    ),
    (
        With::Nothing,
        "package a:b; type a = func() -> (a: u8, a: u8);",
        "40+1: duplicate function result `a`\nDuplicateResult { kind: Free, name: \"a\", span: SourceSpan { offset: 40, len: 1 } }",
    ),
    (
        With::Nothing,
        "package a:b; type a = func() -> (a: u8, a: y);",
        "43+1: undefined name `y`\nUndefinedName { name: \"y\", span: SourceSpan { offset: 43, len: 1 } }",
    ),
    (
        With::Nothing,
        "package a:b; import x: interface { resource r; }; let r = x.r; type a = func() -> (a: borrow<r>, b: y);",
        "86+9: function result cannot recursively contain a borrow type\nBorrowInResult { span: SourceSpan { offset: 86, len: 9 } }",
    ),
    (
        With::Nothing,
        "package a:b; import x: interface { resource r; }; let r = x.r; type a = func() -> (a: u8, a: list<borrow<r>>);",
        "93+15: function result cannot recursively contain a borrow type\nBorrowInResult { span: SourceSpan { offset: 93, len: 15 } }",
    ),
    (
        With::Nothing,
        "package a:b; type a = func(x: y) -> (a: z);",
        "30+1: undefined name `y`\nUndefinedName { name: \"y\", span: SourceSpan { offset: 30, len: 1 } }",
    ),
    (
        With::Nothing,
        "package a:b; interface g { resource r { m: func() -> (a: u8, a: u8); } }",
        "61+1: duplicate method result `a`\nDuplicateResult { kind: Method, name: \"a\", span: SourceSpan { offset: 61, len: 1 } }",
    ),
    (
        With::Nothing,
        "package a:b; interface g { resource r { s: static func() -> (a: u8, %a: u8); } }",
        "68+2: duplicate static method result `a`\nDuplicateResult { kind: Static, name: \"a\", span: SourceSpan { offset: 68, len: 2 } }",
    ),
    (
        With::Nothing,
        "package a:b; interface g { resource r { m: func() -> (a: u8, b: list<borrow<r>>); } }",
        "64+15: function result cannot recursively contain a borrow type\nBorrowInResult { span: SourceSpan { offset: 64, len: 15 } }",
    ),
    (
        With::Nothing,
        "package a:b; interface i { } type a = i;",
        "38+1: `i` (interface) cannot be used in a type alias\nInvalidAliasType { name: \"i\", kind: \"interface\", span: SourceSpan { offset: 38, len: 1 } }",
    ),
    (
        With::Nothing,
        "package a:b; import x: interface { resource r; }; let r = x.r; type a = r;",
        "72+1: `r` (resource) cannot be used in a type alias\nInvalidAliasType { name: \"r\", kind: \"resource\", span: SourceSpan { offset: 72, len: 1 } }",
    ),
    (
        With::Nothing,
        "package a:b; type a = result<x, y>;",
        "29+1: undefined name `x`\nUndefinedName { name: \"x\", span: SourceSpan { offset: 29, len: 1 } }",
    ),
    (
        With::Nothing,
        "package a:b; type a = tuple<u8, y, x>;",
        "32+1: undefined name `y`\nUndefinedName { name: \"y\", span: SourceSpan { offset: 32, len: 1 } }",
    ),
    (
        With::Nothing,
        "package a:b; interface g { resource r { m: func(self: u8); } }",
        "48+4: duplicate method parameter `self`\nDuplicateParameter { kind: Method, name: \"self\", span: SourceSpan { offset: 48, len: 4 } }",
    ),
    (
        With::Nothing,
        "package a:b; interface g { resource r { s: static func(self: u8, self: u8); } }",
        "65+4: duplicate static method parameter `self`\nDuplicateParameter { kind: Static, name: \"self\", span: SourceSpan { offset: 65, len: 4 } }",
    ),
    (
        With::Nothing,
        "package a:b; interface g { resource r { constructor(x: u8, x: u8); } }",
        "59+1: duplicate constructor parameter `x`\nDuplicateParameter { kind: Constructor, name: \"x\", span: SourceSpan { offset: 59, len: 1 } }",
    ),
    (
        With::Nothing,
        "package a:b; interface g { resource r { constructor(x: y); } }",
        "55+1: undefined name `y`\nUndefinedName { name: \"y\", span: SourceSpan { offset: 55, len: 1 } }",
    ),
];

#[test]
fn types_are_added(rt: HostRuntime) -> Result<(), Fail> {
    Ok(hold(&rt, rt.alloc(), Asked::Entries, ENTRIES)?)
}

#[test]
fn errors_of_types_are_reported(rt: HostRuntime) -> Result<(), Fail> {
    Ok(hold(&rt, rt.alloc(), Asked::Answer, ERRORS)?)
}

/// No document makes this error.
#[test]
fn running_out_of_memory_has_its_text(rt: HostRuntime) -> Result<(), Fail> {
    let text = Error::Memory(AllocError).to_string(rt.alloc())?;
    assert!(rt; text.as_str() == "out of memory", "memory");
    Ok(())
}
