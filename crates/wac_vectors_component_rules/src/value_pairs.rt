//! Types of values, both ways.

use crate::pairs::{Of, Row, hold};
use std::test::Fail;

static PLAIN: &[Row] = &[
    (Of::Types, "type a = u8; type b = u8;", ""),
    (
        Of::Types,
        "type a = u8; type b = u16;",
        "expected u16, found u8",
    ),
    (
        Of::Types,
        "type a = string; type b = char;",
        "expected char, found string",
    ),
    (
        Of::Types,
        "type a = bool; type b = list<bool>;",
        "expected list, found bool",
    ),
    (
        Of::Types,
        "type c = u8; type d = c; type a = d; type b = u8;",
        "",
    ),
    (
        Of::Types,
        "type c = u8; type a = list<c>; type b = list<u8>;",
        "",
    ),
    (
        Of::Types,
        "type c = u8; type d = c; type a = list<d>; type b = list<char>;",
        "at element: expected char, found u8",
    ),
    (
        Of::Types,
        "type a = list<u8>; type b = list<s8>;",
        "at element: expected s8, found u8",
    ),
    (
        Of::Types,
        "type a = list<list<u8>>; type b = list<list<s8>>;",
        "at element, element: expected s8, found u8",
    ),
    (Of::Types, "type a = option<u8>; type b = option<u8>;", ""),
    (
        Of::Types,
        "type a = option<u8>; type b = option<char>;",
        "at element: expected char, found u8",
    ),
    (
        Of::Types,
        "type a = option<u8>; type b = list<u8>;",
        "expected list, found option",
    ),
    (
        Of::Types,
        "type a = f32; type b = f64;",
        "expected f64, found f32",
    ),
];

static BUILT: &[Row] = &[
    (
        Of::Types,
        "type a = tuple<u8, char>; type b = tuple<u8, char>;",
        "",
    ),
    (
        Of::Types,
        "type a = tuple<u8, char>; type b = tuple<u8, bool>;",
        "at element 1: expected bool, found char",
    ),
    (
        Of::Types,
        "type a = tuple<u8>; type b = tuple<u8, u8>;",
        "expected 2 elements, found 1 element",
    ),
    (
        Of::Types,
        "type a = tuple<u8, u8>; type b = tuple<u8>;",
        "expected 1 element, found 2 elements",
    ),
    (
        Of::Types,
        "type a = result<u8, char>; type b = result<u8, char>;",
        "",
    ),
    (
        Of::Types,
        "type a = result<u8, char>; type b = result<s8, char>;",
        "at ok: expected s8, found u8",
    ),
    (
        Of::Types,
        "type a = result<u8, char>; type b = result<u8, bool>;",
        "at err: expected bool, found char",
    ),
    (
        Of::Types,
        "type a = result<u8>; type b = result<u8, char>;",
        "at err: expected char, found no type",
    ),
    (
        Of::Types,
        "type a = result<_, char>; type b = result;",
        "at err: expected no type, found char",
    ),
    (
        Of::Types,
        "type a = result; type b = result<u8>;",
        "at ok: expected u8, found no type",
    ),
    (
        Of::Types,
        "type a = tuple<u8, list<u8>>; type b = tuple<u8, list<u16>>;",
        "at element 1, element: expected u16, found u8",
    ),
    (
        Of::Types,
        "type a = tuple<u8>; type b = list<u8>;",
        "expected list, found tuple",
    ),
];

static RECORDS: &[Row] = &[
    (
        Of::Types,
        "record a { x: u8, y: char } record b { x: u8, y: char }",
        "",
    ),
    (
        Of::Types,
        "record a { x: u8, y: char } record b { y: char, x: u8 }",
        "expected field `y`, found field `x`",
    ),
    (
        Of::Types,
        "record a { x: u8 } record b { y: u8 }",
        "expected field `y`, found field `x`",
    ),
    (
        Of::Types,
        "record a { x: u8 } record b { x: s8 }",
        "at field `x`: expected s8, found u8",
    ),
    (
        Of::Types,
        "record a { x: u8, y: u8 } record b { x: u8 }",
        "expected 1 field, found 2 fields",
    ),
    (
        Of::Types,
        "record a { x: u8 } record b { x: u8, y: u8 }",
        "expected 2 fields, found 1 field",
    ),
    (Of::Types, "record a { x: u8 } type b = a;", ""),
    (
        Of::Types,
        "record a { x: tuple<u8, u8> } record b { x: tuple<u8, s8> }",
        "at field `x`, element 1: expected s8, found u8",
    ),
    (
        Of::Types,
        "record c { z: u8 } record d { z: char } record a { x: c } record b { x: d }",
        "at field `x`, field `z`: expected char, found u8",
    ),
    (
        Of::Types,
        "record a { x: u8 } variant b { x(u8) }",
        "expected variant, found record",
    ),
    (
        Of::Types,
        "record a { x: u8, y: s8 } record b { x: s8, z: u8 }",
        "at field `x`: expected s8, found u8",
    ),
    (
        Of::Types,
        "type t = u8; record a { x: t } record b { x: u8 }",
        "",
    ),
];

static CASES: &[Row] = &[
    (
        Of::Types,
        "variant a { x, y(u8) } variant b { x, y(u8) }",
        "",
    ),
    (
        Of::Types,
        "variant a { x, y(u8) } variant b { x, y }",
        "at case `y`: expected no type, found u8",
    ),
    (
        Of::Types,
        "variant a { x, y } variant b { x, y(u8) }",
        "at case `y`: expected u8, found no type",
    ),
    (
        Of::Types,
        "variant a { x(u8) } variant b { x(s8) }",
        "at case `x`: expected s8, found u8",
    ),
    (
        Of::Types,
        "variant a { x, y } variant b { y, x }",
        "expected case `y`, found case `x`",
    ),
    (
        Of::Types,
        "variant a { x } variant b { x, y }",
        "expected 2 cases, found 1 case",
    ),
    (Of::Types, "flags a { x, y } flags b { x, y }", ""),
    (
        Of::Types,
        "flags a { x, y } flags b { x, z }",
        "expected flag `z`, found flag `y`",
    ),
    (
        Of::Types,
        "flags a { x } flags b { x, y }",
        "expected 2 flags, found 1 flag",
    ),
    (Of::Types, "enum a { x, y } enum b { x, y }", ""),
    (
        Of::Types,
        "enum a { x, y } enum b { y, x }",
        "expected case `y`, found case `x`",
    ),
    (
        Of::Types,
        "enum a { x } flags b { x }",
        "expected flags, found enum",
    ),
];

static STREAMS: &[Row] = &[
    (Of::Types, "type a = stream<u8>; type b = stream<u8>;", ""),
    (
        Of::Types,
        "type a = stream<u8>; type b = stream<s8>;",
        "at element: expected s8, found u8",
    ),
    (Of::Types, "type a = stream; type b = stream;", ""),
    (
        Of::Types,
        "type a = stream; type b = stream<u8>;",
        "at element: expected u8, found no type",
    ),
    (Of::Types, "type a = future<u8>; type b = future<u8>;", ""),
    (
        Of::Types,
        "type a = future<list<u8>>; type b = future<list<s8>>;",
        "at element, element: expected s8, found u8",
    ),
    (
        Of::Types,
        "type a = future<u8>; type b = future;",
        "at element: expected no type, found u8",
    ),
    (
        Of::Types,
        "type a = future<u8>; type b = stream<u8>;",
        "expected stream, found future",
    ),
];

#[test]
fn types_of_values(rt: HostRuntime) -> Result<(), Fail> {
    for rows in [PLAIN, BUILT, RECORDS, CASES, STREAMS] {
        hold(&rt, rt.alloc(), rows)?;
    }
    Ok(())
}
