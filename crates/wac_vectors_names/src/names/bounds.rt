//! Which identifiers are looked up in scopes, and where these bind what they find.

use crate::marked::Row;
use std::alloc::{AllocError, Global};
use wac_names::{Mention, Names};

/// Documents, and what is looked up in a scope: each identifier with its offset, and after `>` where that scope binds
/// what it finds, which is the item of a `use` where that brings it in. Members, as the exports of an instance, are none
/// of these, and neither is what finds nothing.
pub(crate) static LOOKED_UP: [Row; 32] = [
    // Expressions: a name is bound after its own, and arguments are looked up as they come.
    (
        "package a:b; import x: func(); let y = x; let z = z; export y; export x as \"y\";",
        "x 39>20, y 60>35, x 70>20",
    ),
    (
        "package a:b; import x: func(); let i = new c:d { x, ...x, x: (x), \"x\": new c:e { x: x }, y, ... }; export i.x;",
        "x 49>20, x 55>20, x 62>20, x 84>20, i 106>35",
    ),
    (
        "package a:b; export x; import x: interface { f: func(); }; export x.f; export ((x))[\"f\"]; export x...;",
        "x 66>30, x 80>30, x 97>30",
    ),
    // Of two names the first is found.
    (
        "package a:b; import x: func(); import x: interface { }; let y = x;",
        "x 64>20",
    ),
    (
        "package a:b; interface i { type t = u8; type t = u16; f: func(x: t); }",
        "t 65>32",
    ),
    // Types at root.
    (
        "package a:b; type t = u8; type u = list<option<t>>; record r { a: u, b: tuple<t, r> } import x: func(a: r);",
        "t 47>18, u 66>31, t 78>18, r 104>59",
    ),
    (
        "package a:b; type t = u8; variant v { a, b(t), c(result<v, t>), d(stream<t>), e(future<t>) } import x: func() -> v;",
        "t 43>18, t 59>18, t 73>18, t 87>18, v 113>34",
    ),
    (
        "package a:b; flags f { a } enum e { b } type g = func(a: f) -> (b: e, c: c); type h = g; import x: h;",
        "f 57>19, e 67>32, g 86>45, h 99>82",
    ),
    // A body sees its own names alone, and those that come before.
    (
        "package a:b; type t = u8; interface i { f: func(x: t); type t = u16; g: func(x: t); } import h: func(x: t);",
        "t 80>60, t 104>18",
    ),
    (
        "package a:b; interface i { type t = u8; f: func(x: t); } interface j { f: func(x: t); }",
        "t 51>32",
    ),
    (
        "package a:b; type t = u8; world w { import f: func(x: t); type t = u16; export f: func(x: t); } import g: func(x: t);",
        "t 90>63, t 114>18",
    ),
    (
        "package a:b; import x: interface { type t = u8; f: func() -> t; }; import y: interface { f: func() -> t; };",
        "t 61>40",
    ),
    // A resource is bound before its methods.
    (
        "package a:b; interface i { resource r { constructor(x: r); m: func(x: borrow<r>, y: s); n: static func() -> r; } resource s; }",
        "r 55>36, r 77>36, r 108>36",
    ),
    // A function of an interface is bound for what is outside alone.
    (
        "package a:b; interface i { f: func(); g: f; type h = func(); k: h; } import x: i; export i.f;",
        "h 64>49, i 79>23, i 89>23",
    ),
    // An interface within a world doesn't see the world's names, and the world doesn't see those of the interface.
    (
        "package a:b; world w { type t = u8; import x: interface { f: func(x: t); type t = u8; g: func(x: t); }; import y: func(x: t); }",
        "t 97>78, t 122>28",
    ),
    (
        "package a:b; world w { import x: interface { type t = u8; f: func(x: t); }; export y: interface { f: func(x: t); }; export z: func(x: t); }",
        "t 69>50",
    ),
    // The type of a named item of a world is looked up in the world, else at root.
    (
        "package a:b; interface i { } world w { import x: i; export y: i; }",
        "i 49>23, i 62>23",
    ),
    (
        "package a:b; type t = func(); world w { type t = func(); import x: t; } world v { import x: t; }",
        "t 67>45, t 92>18",
    ),
    // An item without a name is looked up at root, and binds none.
    (
        "package a:b; interface i { } world w { type i = u8; import i; export i; import x: i2; }",
        "i 59>23, i 69>23",
    ),
    // A `use` binds its items, under the name after `as` where there is one; its interface is looked up at root.
    (
        "package a:b; interface i { type t = u8; } interface j { use i.{t}; f: func(x: t); }",
        "i 60>23, t 78>63",
    ),
    (
        "package a:b; interface i { type t = u8; } interface j { use i.{t as u}; f: func(x: u, y: t); }",
        "i 60>23, u 83>68",
    ),
    (
        "package a:b; interface i { type t = u8; } interface j { use i.{t}; f: func(x: t); } world w { use j.{t}; import f: func(x: t); }",
        "i 60>23, t 78>63, j 98>52, t 123>101",
    ),
    (
        "package a:b; interface j { type i = u8; use i.{t}; use c:d/e.{u, v as w}; f: func(x: t, y: u, z: w, v: v); }",
        "t 85>47, u 91>62, w 97>70",
    ),
    (
        "package a:b; interface i { type t = u8; type u = u8; } world w { use i.{t, u as v}; import x: t; type y = v; export z: y; }",
        "i 69>23, t 94>72, v 106>80, y 119>102",
    ),
    // The first segment of a path into the document's own package is looked up at root.
    (
        "package a:b; interface i { type t = u8; } interface j { use a:b/i.{t}; f: func(x: t); } import x: a:b/i; import y: a:c/i; import z: a:b/k;",
        "i 64>23, t 82>67, i 102>23",
    ),
    (
        "package a:b; world w { export i: interface { type t = u8; }; } interface j { use a:b/w/i.{t}; f: func(x: t); }",
        "w 85>19, t 105>90",
    ),
    (
        "package a:b@1.2.3; interface i { } world w { import a:b/i; export a:b/i@2.0.0; import b:b/i; }",
        "i 56>29, i 70>29",
    ),
    // `%` is no part of an identifier, but one of a package's name and of a path.
    (
        "package a:b; interface %i { type t = u8; } interface j { use i.{t}; } interface k { use %i.{t}; use a:b/i.{t}; use a:b/%i.{t}; use %a:b/i.{t}; }",
        "i 61>23, %i 88>23, i 104>23",
    ),
    // The world of an `include` is looked up at root; what it brings is bound for what is outside alone.
    (
        "package a:b; world w { import f: func(); } world v { include w; import g: f; } world u { include a:b/w with { f as g }; include v2; }",
        "w 61>19, w 101>19",
    ),
    // A name of a body is none at root, and the name of a body is bound after it.
    (
        "package a:b; interface i { type t = u8; use i.{u}; } world w { include w; import i; } import x: i; import y: w; import z: t;",
        "i 81>23, i 96>23, w 109>59",
    ),
    // The target is looked up last of all.
    (
        "package a:b targets a:b/w; export w; world w { }",
        "w 24>43",
    ),
    ("package a:b targets a:c/w; world w { } world v { }", ""),
];

/// Adds an identifier that is looked up in a scope, and where that binds what it finds. Nothing of a member.
fn push_found(
    line: &mut String,
    alloc: Global,
    text: &str,
    mention: &Mention,
) -> Result<(), AllocError> {
    let Some(bound) = mention.bound else {
        return Ok(());
    };
    let start = mention.span.offset();
    let name = text
        .get(start..start.saturating_add(mention.span.len()))
        .unwrap_or("?");
    let before = if line.is_empty() { "" } else { ", " };
    let place = bound.offset();
    line.push_str(format!(in alloc; "{before}{name} {start}>{place}")?.as_str())
}

/// What is looked up in scopes.
fn found(alloc: Global, text: &str, mentions: &[Mention]) -> Result<String, AllocError> {
    let mut line = String::new(alloc);
    for mention in mentions {
        push_found(&mut line, alloc, text, mention)?;
    }
    Ok(line)
}

/// What is looked up in scopes in a document.
pub(crate) fn looked_up(alloc: Global, text: &str) -> Result<String, AllocError> {
    match Names::of_text(alloc, text) {
        Ok(Some(names)) => found(alloc, text, names.mentions.as_slice()),
        Ok(None) => String::from_str(alloc, "no names"),
        Err(error) => Err(error),
    }
}
