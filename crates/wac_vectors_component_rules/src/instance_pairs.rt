//! Instances, components, resources, and types of them.

use crate::pairs::{Of, Row, hold};
use std::test::Fail;

static EXPORTS: &[Row] = &[
    (
        Of::Items,
        "interface a { f: func(); } interface b { f: func(); }",
        "",
    ),
    (
        Of::Items,
        "interface a { f: func(); g: func(); } interface b { f: func(); }",
        "",
    ),
    (
        Of::Items,
        "interface a { g: func(); f: func(); } interface b { f: func(); g: func(); }",
        "",
    ),
    (
        Of::Items,
        "interface a { f: func(); } interface b { f: func(); g: func(); }",
        "at export `g`: expected function, found no export of that name",
    ),
    (Of::Items, "interface a { } interface b { }", ""),
    (
        Of::Items,
        "interface a { f: func(x: u8); } interface b { f: func(x: s8); }",
        "at export `f`, parameter `x`: expected s8, found u8",
    ),
    (
        Of::Items,
        "interface a { f: func(); } interface b { type f = u8; }",
        "at export `f`: expected value type, found function",
    ),
    (
        Of::Items,
        "interface a { type t = u8; } interface b { type t = s8; }",
        "at export `t`: expected s8, found u8",
    ),
    (
        Of::Types,
        "interface a { f: func(); } interface b { f: func(); }",
        "",
    ),
    (
        Of::Types,
        "interface a { g: func(x: char); f: func(x: u8); } interface b { f: func(x: u8); g: func(x: char); }",
        "",
    ),
    (
        Of::Types,
        "interface a { f: func(); g: func(); } interface b { f: func(); }",
        "at export `g`: expected no export of that name, found function",
    ),
    (
        Of::Types,
        "interface a { f: func(); } interface b { f: func(); g: func(); }",
        "at export `g`: expected function, found no export of that name",
    ),
    (
        Of::Types,
        "interface a { } type b = u8;",
        "expected value type, found interface",
    ),
];

static RESOURCES: &[Row] = &[
    (
        Of::Items,
        "interface a { resource r; } interface b { resource r; }",
        "",
    ),
    (
        Of::Items,
        "interface a { resource r; f: func(x: borrow<r>); } interface b { resource r; f: func(x: borrow<r>); }",
        "",
    ),
    (
        Of::Items,
        "interface a { resource r; f: func(x: r); } interface b { resource r; f: func(x: borrow<r>); }",
        "at export `f`, parameter `x`: expected borrow `r`, found own `r`",
    ),
    (
        Of::Items,
        "interface a { resource s; } interface b { resource r; }",
        "at export `r`: expected resource `r`, found no export of that name",
    ),
    (
        Of::Items,
        "interface i { resource r; } interface a { use i.{r}; f: func(x: r); } interface b { resource r; f: func(x: r); }",
        "",
    ),
    (
        Of::Items,
        "interface i { resource s; } interface a { use i.{s as r}; f: func(x: r); } interface b { resource r; f: func(x: r); }",
        "at export `r`: expected resource `r`, found resource `s`",
    ),
    (
        Of::Items,
        "interface i { resource s; } interface a { use i.{s as r}; } interface b { use i.{s as r}; }",
        "",
    ),
    (
        Of::Items,
        "interface a { resource r { m: func(); } } interface b { resource r { m: func(); } }",
        "",
    ),
    (
        Of::Items,
        "interface a { resource r { m: func(); } } interface b { resource r; }",
        "",
    ),
    (
        Of::Items,
        "interface a { resource r; } interface b { resource r { m: func(); } }",
        "at export `[method]r.m`: expected function, found no export of that name",
    ),
    (
        Of::Items,
        "interface a { resource r { constructor(x: u8); } } interface b { resource r { constructor(x: s8); } }",
        "at export `[constructor]r`, parameter `x`: expected s8, found u8",
    ),
    (
        Of::Items,
        "interface a { resource r; type t = r; } interface b { resource r; type t = u8; }",
        "at export `t`: expected value type, found resource `r`",
    ),
];

static WORLDS: &[Row] = &[
    (
        Of::Items,
        "world a { import f: func(); export g: func(); } world b { import f: func(); export g: func(); }",
        "",
    ),
    (
        Of::Items,
        "world a { export g: func(); } world b { import f: func(); export g: func(); }",
        "",
    ),
    (
        Of::Items,
        "world a { import f: func(); } world b { }",
        "at import `f`: expected no import of that name, found function",
    ),
    (
        Of::Items,
        "world a { } world b { export g: func(); }",
        "at export `g`: expected function, found no export of that name",
    ),
    (Of::Items, "world a { export g: func(); } world b { }", ""),
    (
        Of::Items,
        "world a { import f: func(x: u8); } world b { import f: func(x: s8); }",
        "at import `f`, parameter `x`: expected s8, found u8",
    ),
    (
        Of::Items,
        "interface i { f: func(); g: func(); } interface j { f: func(); } world a { import n: interface { f: func(); }; } world b { import n: interface { f: func(); g: func(); }; }",
        "",
    ),
    (
        Of::Items,
        "world a { import n: interface { f: func(); g: func(); }; } world b { import n: interface { f: func(); }; }",
        "at import `n`, export `g`: expected no export of that name, found function",
    ),
    (
        Of::Items,
        "world a { export n: interface { f: func(); g: func(); }; } world b { export n: interface { f: func(); }; }",
        "",
    ),
    (
        Of::Types,
        "world a { export g: func(); } world b { }",
        "at export `g`: expected no export of that name, found function",
    ),
    (
        Of::Types,
        "world a { import f: func(); } world b { import f: func(); }",
        "",
    ),
    (
        Of::Items,
        "world a { export g: func(); } interface b { g: func(); }",
        "expected instance, found component",
    ),
];

/// Types of instances and of components fit where they do so both ways: this way is compared first.
static BOTH_WAYS: &[Row] = &[
    (
        Of::Types,
        "interface a { f: func(); } interface b { g: func(); }",
        "at export `g`: expected function, found no export of that name",
    ),
    (
        Of::Types,
        "world a { } world b { import f: func(); }",
        "at import `f`: expected function, found no import of that name",
    ),
    (
        Of::Types,
        "world a { import f: func(); } world b { import g: func(); }",
        "at import `f`: expected no import of that name, found function",
    ),
    (
        Of::Types,
        "world a { import n: interface { f: func(); }; } world b { import n: interface { f: func(); g: func(); }; }",
        "at import `n`, export `g`: expected function, found no export of that name",
    ),
];

#[test]
fn items(rt: HostRuntime) -> Result<(), Fail> {
    for rows in [EXPORTS, RESOURCES, WORLDS, BOTH_WAYS] {
        hold(&rt, rt.alloc(), rows)?;
    }
    Ok(())
}
