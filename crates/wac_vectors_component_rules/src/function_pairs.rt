//! Functions, and their types.

use crate::pairs::{Of, Row, hold};
use std::test::Fail;

static PARAMETERS: &[Row] = &[
    (Of::Items, "type a = func(); type b = func();", ""),
    (Of::Items, "type a = func(x: u8); type b = func(x: u8);", ""),
    (
        Of::Items,
        "type a = func(x: u8); type b = func(x: s8);",
        "at parameter `x`: expected s8, found u8",
    ),
    (
        Of::Items,
        "type a = func(x: u8); type b = func(y: u8);",
        "expected parameter `y`, found parameter `x`",
    ),
    (
        Of::Items,
        "type a = func(x: u8); type b = func();",
        "expected 0 parameters, found 1 parameter",
    ),
    (
        Of::Items,
        "type a = func(); type b = func(x: u8, y: u8);",
        "expected 2 parameters, found 0 parameters",
    ),
    (
        Of::Items,
        "type a = func(x: u8, y: u8); type b = func(y: u8, x: u8);",
        "expected parameter `y`, found parameter `x`",
    ),
    (
        Of::Items,
        "type a = func(x: u8, z: u8); type b = func(x: s8);",
        "at parameter `x`: expected s8, found u8",
    ),
    (
        Of::Items,
        "type a = func(x: list<u8>); type b = func(x: list<s8>);",
        "at parameter `x`, element: expected s8, found u8",
    ),
    (Of::Types, "type a = func(x: u8); type b = func(x: u8);", ""),
    (
        Of::Types,
        "type a = func(x: u8); type b = func(x: s8);",
        "at parameter `x`: expected s8, found u8",
    ),
    (
        Of::Types,
        "type a = func(); type b = u8;",
        "expected value type, found function type",
    ),
];

static RESULTS: &[Row] = &[
    (
        Of::Items,
        "type a = func() -> u8; type b = func() -> u8;",
        "",
    ),
    (
        Of::Items,
        "type a = func() -> u8; type b = func() -> s8;",
        "at result: expected s8, found u8",
    ),
    (
        Of::Items,
        "type a = func() -> u8; type b = func();",
        "expected 0 results, found 1 result",
    ),
    (
        Of::Items,
        "type a = func(); type b = func() -> u8;",
        "expected 1 result, found 0 results",
    ),
    (
        Of::Items,
        "type a = func() -> (r: u8); type b = func() -> (r: u8);",
        "",
    ),
    (
        Of::Items,
        "type a = func() -> (r: u8); type b = func() -> (r: s8);",
        "at result `r`: expected s8, found u8",
    ),
    (
        Of::Items,
        "type a = func() -> (r: u8); type b = func() -> (s: u8);",
        "expected result `s`, found result `r`",
    ),
    (
        Of::Items,
        "type a = func() -> (r: u8); type b = func() -> u8;",
        "expected result without a name, found result `r`",
    ),
    (
        Of::Items,
        "type a = func() -> (r: u8, s: u8); type b = func() -> (r: u8);",
        "expected 1 result, found 2 results",
    ),
    (
        Of::Items,
        "type a = func(x: u8) -> u8; type b = func(x: s8) -> s8;",
        "at parameter `x`: expected s8, found u8",
    ),
    (
        Of::Items,
        "type a = func() -> option<u8>; type b = func() -> option<s8>;",
        "at result, element: expected s8, found u8",
    ),
    (
        Of::Types,
        "type a = func() -> u8; type b = func() -> s8;",
        "at result: expected s8, found u8",
    ),
];

#[test]
fn functions(rt: HostRuntime) -> Result<(), Fail> {
    for rows in [PARAMETERS, RESULTS] {
        hold(&rt, rt.alloc(), rows)?;
    }
    Ok(())
}
