//! Documents that show how the rules are read.

use crate::documents::{Row, With, hold};
use crate::readings::Asked;
use std::test::Fail;

/// Whether `x` and `y` mean the same: an alias is a type of its own, but that of a function is a copy, and that of a resource
/// is a resource of its own. So is each resource that is declared, also under one name. Lists are equal in order, and a type
/// that is used under its own name, written once more, was renamed.
static SAME: &[Row] = &[
    (
        With::Nothing,
        "package a:b; type t = u8; type x = func(a: t); type y = func(a: u8);",
        "different",
    ),
    (
        With::Nothing,
        "package a:b; type t = u8; type x = t; type y = u8;",
        "different",
    ),
    (
        With::Nothing,
        "package a:b; type x = u8; type y = u8;",
        "same",
    ),
    (
        With::Nothing,
        "package a:b; type x = func(a: u8); type y = x;",
        "same",
    ),
    (
        With::Nothing,
        "package a:b; import i: interface { resource r; type s = r; f: func(a: r); g: func(a: s); }; export i.f as x; export i.g as y;",
        "different",
    ),
    (
        With::Nothing,
        "package a:b; import i: interface { resource r; type s = r; f: func(a: r); g: func(a: s); h: func(a: r); }; export i.f as x; export i.h as y;",
        "same",
    ),
    (
        With::Nothing,
        "package a:b; interface i { resource r; f: func(a: r); } interface j { resource r; f: func(a: r); } import m: i; import n: j; export m.f as x; export n.f as y;",
        "different",
    ),
    (
        With::Nothing,
        "package a:b; variant x { a, b } variant y { b, a }",
        "different",
    ),
    (
        With::Nothing,
        "package a:b; variant x { a, b } variant y { a, b }",
        "same",
    ),
    (
        With::Nothing,
        "package a:b; record x { a: u8, b: u8 } record y { b: u8, a: u8 }",
        "different",
    ),
    (
        With::Nothing,
        "package a:b; record x { a: u8, b: u8 } record y { a: u8, b: u8 }",
        "same",
    ),
    (
        With::Nothing,
        "package a:b; flags x { a, b } flags y { b, a }",
        "different",
    ),
    (
        With::Nothing,
        "package a:b; enum x { a, b } enum y { b, a }",
        "different",
    ),
    (
        With::Nothing,
        "package a:b; type x = func(a: u8, b: u8); type y = func(b: u8, a: u8);",
        "different",
    ),
    (
        With::Nothing,
        "package a:b; import i: interface { f: func(); g: func(); }; import j: interface { g: func(); f: func(); }; export i as x; export j as y;",
        "different",
    ),
    (
        With::Nothing,
        "package a:b; import i: interface { f: func(); g: func(); }; import j: interface { f: func(); g: func(); }; export i as x; export j as y;",
        "same",
    ),
    (
        With::Nothing,
        "package a:b; interface i { type t = u8; } import j: interface { use i.{ t }; }; import k: interface { use i.{ t as t }; }; export j as x; export k as y;",
        "different",
    ),
    (
        With::Nothing,
        "package a:b; interface i { type t = u8; } import j: interface { use i.{ t }; }; import k: interface { use i.{ t }; }; export j as x; export k as y;",
        "same",
    ),
];

/// Which of several broken rules is reported.
static FIRST: &[Row] = &[
    (
        With::Nothing,
        "package a:b; record r { a: u8, a: u8, b: y }",
        "31+1: duplicate field `a` for record type `r`\nDuplicateRecordField { field: \"a\", name: \"r\", span: SourceSpan { offset: 31, len: 1 } }",
    ),
    (
        With::SameFits,
        "package a:b targets a:b/w; world w { import f: func(); } import f: func(x: u8); import q: func();",
        "64+1: import `f` has a mismatched type for target world `a:b/w`\nTargetMismatch { kind: Import, name: \"f\", world: \"a:b/w\", source: Reason(1), span: Some(SourceSpan { offset: 64, len: 1 }) }",
    ),
    (
        With::SameFits,
        "package a:b targets a:b/w; world w { import f: func(); } import q: func(); import f: func(x: u8);",
        "64+1: target world `a:b/w` does not have an import named `q`\nImportNotInTarget { name: \"q\", world: \"a:b/w\", span: Some(SourceSpan { offset: 64, len: 1 }) }",
    ),
    (
        With::Packages,
        "package a:b targets a:b/w; world w { } let i = new c:d { ... }; import q: func();",
        "71+1: target world `a:b/w` does not have an import named `q`\nImportNotInTarget { name: \"q\", world: \"a:b/w\", span: Some(SourceSpan { offset: 71, len: 1 }) }",
    ),
    (
        With::Packages,
        "package a:b targets a:b/w; world w { export g: func(); } import q: func();",
        "64+1: target world `a:b/w` does not have an import named `q`\nImportNotInTarget { name: \"q\", world: \"a:b/w\", span: Some(SourceSpan { offset: 64, len: 1 }) }",
    ),
    (
        With::SameFits,
        "package a:b targets a:b/w; world w { export f: func(); export g: func(); } type f = u8;",
        "80+1: export `f` has a mismatched type for target world `a:b/w`\nTargetMismatch { kind: Export, name: \"f\", world: \"a:b/w\", source: Reason(1), span: Some(SourceSpan { offset: 80, len: 1 }) }",
    ),
    (
        With::SameFits,
        "package a:b targets a:b/w; world w { export g: func(); export f: func(); } type f = u8;",
        "20+5: target world `a:b/w` requires an export named `g`\nMissingTargetExport { name: \"g\", world: \"a:b/w\", kind: \"function\", span: SourceSpan { offset: 20, len: 5 } }",
    ),
    (
        With::Nothing,
        "package a:b; world v { import p: func(); } world w { include v with { z as d, p as c, y as b }; }",
        "70+1: world `v` does not have an import or export named `z`\nMissingWorldInclude { world: \"v\", name: \"z\", span: SourceSpan { offset: 70, len: 1 } }",
    ),
    (
        With::Nothing,
        "package a:b; interface i { type t = u8; } interface j { type t = u8; use i.{ t }; }",
        "77+1: use of type `t` conflicts with an export of the same name\nUseConflict { kind: Export, name: \"t\", span: SourceSpan { offset: 77, len: 1 }, help: Some(\"consider using an `as` clause to use a different name\") }",
    ),
];

/// What a target does not allow.
static OUTSIDE: &[Row] = &[
    (
        With::Nothing,
        "package a:b targets a:b/w; interface i { type t = u8; } world v { use i.{ t }; } world w { include v; } import x: a:b/i;",
        "114+5: target world `a:b/w` does not have an import named `a:b/i`\nImportNotInTarget { name: \"a:b/i\", world: \"a:b/w\", span: Some(SourceSpan { offset: 114, len: 5 }) }",
    ),
    (
        With::Nothing,
        "package a:b targets a:b/w; interface i { type t = u8; } interface j { use i.{ t }; } world w { use j.{ t }; } import x: a:b/i;",
        "120+5: target world `a:b/w` does not have an import named `a:b/i`\nImportNotInTarget { name: \"a:b/i\", world: \"a:b/w\", span: Some(SourceSpan { offset: 120, len: 5 }) }",
    ),
    (
        With::Nothing,
        "package a:b targets a:b/w; interface i { type t = u8; } interface j { use i.{ t }; } interface k { use j.{ t }; } world w { import k; } import x: a:b/i;",
        "146+5: target world `a:b/w` does not have an import named `a:b/i`\nImportNotInTarget { name: \"a:b/i\", world: \"a:b/w\", span: Some(SourceSpan { offset: 146, len: 5 }) }",
    ),
    (
        With::SameFits,
        "package a:b targets a:b/w; world w { export f: func(); } type f = func();",
        "62+1: export `f` has a mismatched type for target world `a:b/w`\nTargetMismatch { kind: Export, name: \"f\", world: \"a:b/w\", source: Reason(1), span: Some(SourceSpan { offset: 62, len: 1 }) }",
    ),
];

/// What a target allows.
static INSIDE: &[Row] = &[
    (
        With::SameFits,
        "package a:b targets a:b/w; interface i { type t = u8; } world w { use i.{ t }; } import x: a:b/i;",
        "0 definition: interface [i]\n1 definition: world [w]\n2 import a:b/i: instance [x]\nexport i = 0\nexport w = 1\n",
    ),
    (
        With::SameFits,
        "package a:b targets a:b/w; interface i { type t = u8; } interface j { use i.{ t }; } world v { import j; } world w { include v; } import x: a:b/i;",
        "0 definition: interface [i]\n1 definition: interface [j]\n2 definition: world [v]\n3 definition: world [w]\n4 import a:b/i: instance [x]\nexport i = 0\nexport j = 1\nexport v = 2\nexport w = 3\n",
    ),
    (
        With::SameFits,
        "package a:b targets a:b/w; interface i { type t = u8; } interface j { use i.{ t }; } interface k { use j.{ t }; } world w { import k; } import x: a:b/j;",
        "0 definition: interface [i]\n1 definition: interface [j]\n2 definition: interface [k]\n3 definition: world [w]\n4 import a:b/j: instance [x]\nexport i = 0\nexport j = 1\nexport k = 2\nexport w = 3\n",
    ),
    (
        With::SameFits,
        "package a:b targets a:b/w; world w { type t = func(); } import t: func();",
        "0 definition: world [w]\n1 import t: function [t]\nexport w = 0\n",
    ),
];

/// What the world `w` includes: no uses. The import alone is renamed where an export has its name too.
static INCLUDED: &[Row] = &[
    (
        With::Nothing,
        "package a:b; interface i { type t = u8; } world v { use i.{ t }; } world w { include v; }",
        "import t: value type\n",
    ),
    (
        With::Nothing,
        "package a:b; interface i { type t = u8; } world w { use i.{ t }; }",
        "use t\nimport t: value type\n",
    ),
    (
        With::Nothing,
        "package a:b; world v { import k: func(); export k: func(); } world w { include v with { k as h }; }",
        "import h: function\nexport k: function\n",
    ),
];

/// Names of paths, exports and world items.
static NAMES: &[Row] = &[
    (
        With::Nothing,
        "package a:b; interface i { } import x: a:b/%i;",
        "43+2: undefined name `%i`\nUndefinedName { name: \"%i\", span: SourceSpan { offset: 43, len: 2 } }",
    ),
    (
        With::Nothing,
        "package %a:b; interface i { } import x: a:b/i;",
        "40+3: unknown package `a:b`\nUnknownPackage { name: \"a:b\", span: SourceSpan { offset: 40, len: 3 } }",
    ),
    (
        With::Nothing,
        "package a:b; world v { export n: interface { }; } import x: a:b/v/n/q;",
        "68+1: `n` (instance) has no export named `q`\nPackagePathMissingExport { name: \"n\", kind: \"instance\", export: \"q\", span: SourceSpan { offset: 68, len: 1 } }",
    ),
    (
        With::Packages,
        "package a:b; import x: c:d/w/run/q/r;",
        "33+1: function `w/run` in package `c:d` has no export named `q`\nPackageMissingExport { package: \"c:d\", export: \"q\", kind: Some(\"function\"), path: \"w/run\", span: SourceSpan { offset: 33, len: 1 } }",
    ),
    (
        With::Packages,
        "package a:b; import z: interface { }; let i = new c:d { \"z\": z, ... };",
        "56+3: component `c:d` has no import named `z`\nMissingComponentImport { package: \"c:d\", import: \"z\", span: SourceSpan { offset: 56, len: 3 } }",
    ),
    (
        With::Nothing,
        "package a:b; type t = u32; let d = t; import f: func(); export f as d;",
        "68+1: export `d` conflicts with value type definition\nExportConflict { name: \"d\", kind: \"value type\", span: SourceSpan { offset: 68, len: 1 }, definition: SourceSpan { offset: 31, len: 1 }, help: None }",
    ),
    (
        With::Nothing,
        "package a:b; type t = u32; let f = t; import x: interface { f: func(); }; export x...;",
        "82+3: export `f` conflicts with value type definition\nExportConflict { name: \"f\", kind: \"value type\", span: SourceSpan { offset: 82, len: 3 }, definition: SourceSpan { offset: 31, len: 1 }, help: None }",
    ),
    (
        With::Nothing,
        "package a:b; import f: func(); world w { import g: f; }",
        "51+1: `f` (function) is not a function type or interface\nNotFuncOrInterface { name: \"f\", kind: \"function\", span: SourceSpan { offset: 51, len: 1 } }",
    ),
    (
        With::Nothing,
        "package a:b; world v { import p: func(); } world w { import p: func(); include v with {}; }",
        "79+1: import `p` from world `v` conflicts with import of the same name in world `w`\nWorldIncludeConflict { kind: Import, name: \"p\", from: \"v\", to: \"w\", span: SourceSpan { offset: 79, len: 1 }, help: Some(\"consider using a `with` clause to use a different name\") }",
    ),
];

/// Names of imports and exports.
static NAMED: &[Row] = &[
    (
        With::Nothing,
        "package %a:b; interface i { } import x: %a:b/i;",
        "0 definition: interface [i]\n1 import %a:b/i: instance [x]\nexport i = 0\n",
    ),
    (
        With::Nothing,
        "package a:b@1.0.0; interface i { } import x: a:b/i; import y: i; import z: y; export y;",
        "0 definition: interface [i]\n1 import a:b/i: instance [x]\n2 import y: instance [y]\n3 import a:b/i@1.0.0: instance [z]\nexport i = 0\nexport a:b/i@1.0.0 = 2\n",
    ),
    (
        With::Nothing,
        "package a:b; import f: func(); type t = f;",
        "0 import f: function [f]\n1 definition: function type [t]\nexport t = 1\n",
    ),
];

/// Arguments whose imports are inferred from their identifiers and nodes, and a spread of what is not exported yet.
static FOUND: &[Row] = &[
    (
        With::Packages,
        "package a:b; import z: interface { f: func(); }; let i = new c:d { z, log: z.f };",
        "0 import z: instance [z]\n1 alias 0 f: function\n2 new c:d: instance [i]\n  x:y/z = 0\n  log = 1\n",
    ),
    (
        With::Packages,
        "package a:b; import q as w: c:d/z; let i = new c:d { q, ... };",
        "0 import w: instance [q]\n1 new c:d: instance [i]\n  x:y/z = 0\n",
    ),
    (
        With::Packages,
        "package a:b; import a as log: func(); let i = new c:d@1.0.0 { a, ... };",
        "0 import log: function [a]\n1 new c:d@1.0.0: instance [i]\n  log = 0\n",
    ),
    (
        With::Packages,
        "package a:b; import x: interface { log: func(); }; let l = x.log; let i = new c:d { l, ... };",
        "0 import x: instance [x]\n1 alias 0 log: function [l]\n2 new c:d: instance [i]\n  log = 1\n",
    ),
    (
        With::Nothing,
        "package a:b; import x: interface { f: func(); g: func(); }; let y = x; export y.f; export x...;",
        "0 import x: instance [x]\n1 alias 0 f: function\n2 alias 0 g: function\nexport f = 1\nexport g = 2\n",
    ),
];

#[test]
fn meanings(rt: HostRuntime) -> Result<(), Fail> {
    Ok(hold(&rt, rt.alloc(), Asked::Same, SAME)?)
}

#[test]
fn readings_of_the_rules(rt: HostRuntime) -> Result<(), Fail> {
    hold(&rt, rt.alloc(), Asked::Answer, FIRST)?;
    hold(&rt, rt.alloc(), Asked::Answer, NAMES)?;
    hold(&rt, rt.alloc(), Asked::Answer, NAMED)?;
    hold(&rt, rt.alloc(), Asked::Answer, FOUND)?;
    hold(&rt, rt.alloc(), Asked::Answer, OUTSIDE)?;
    hold(&rt, rt.alloc(), Asked::Answer, INSIDE)?;
    Ok(hold(&rt, rt.alloc(), Asked::World, INCLUDED)?)
}
