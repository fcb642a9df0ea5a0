//! Worked examples of declarations and compositions.

use crate::documents::{Row, With, hold};
use crate::readings::Asked;
use std::test::Fail;

/// Declarations that are rejected.
static DECLARATIONS: &[Row] = &[
    (
        With::Nothing,
        "package a:b; interface i { f: func(); type f = u32; }",
        "43+1: duplicate interface export `f` for interface `i`\nDuplicateInterfaceExport { name: \"f\", interface_name: Some(\"i\"), span: SourceSpan { offset: 43, len: 1 } }",
    ),
    (
        With::Nothing,
        "package a:b; type t = u32; type t = u8;",
        "32+1: type declaration `t` conflicts with a previous export of the same name\nDeclarationConflict { name: \"t\", span: SourceSpan { offset: 32, len: 1 }, export: SourceSpan { offset: 18, len: 1 } }",
    ),
    (
        With::Nothing,
        "package a:b; interface i { type r = u8; type r = u8; }",
        "45+1: `r` is already defined\nDuplicateName { name: \"r\", span: SourceSpan { offset: 45, len: 1 }, previous: SourceSpan { offset: 32, len: 1 } }",
    ),
    (
        With::Nothing,
        "package a:b; type t = u32; interface i { f: func(x: t); }",
        "52+1: undefined name `t`\nUndefinedName { name: \"t\", span: SourceSpan { offset: 52, len: 1 } }",
    ),
    (
        With::Nothing,
        "package a:b; interface i { resource r; f: func() -> list<borrow<r>>; }",
        "52+15: function result cannot recursively contain a borrow type\nBorrowInResult { span: SourceSpan { offset: 52, len: 15 } }",
    ),
    (
        With::Nothing,
        "package a:b; interface i { f: func() -> (a: u8, a: u8); }",
        "48+1: duplicate function result `a`\nDuplicateResult { kind: Free, name: \"a\", span: SourceSpan { offset: 48, len: 1 } }",
    ),
    (
        With::Nothing,
        "package a:b; interface i { resource r { m: func(self: u8); } }",
        "48+4: duplicate method parameter `self`\nDuplicateParameter { kind: Method, name: \"self\", span: SourceSpan { offset: 48, len: 4 } }",
    ),
    (
        With::Nothing,
        "package a:b; world v { import p: func(); export q: func(); } world w { include v with { p as p2, z as y }; }",
        "97+1: world `v` does not have an import or export named `z`\nMissingWorldInclude { world: \"v\", name: \"z\", span: SourceSpan { offset: 97, len: 1 } }",
    ),
];

/// Declarations, and what the world `w` imports and exports.
static WORLDS: &[Row] = &[
    (
        With::Nothing,
        "package a:b; world v { import p: func(); export q: func(); } world w { include v with { p as p2 }; }",
        "import p2: function\nexport q: function\n",
    ),
    (
        With::Nothing,
        "package a:b; interface i { } world v { import i; } world w { import i; include v; }",
        "import a:b/i: instance\n",
    ),
];

/// Compositions that are rejected.
static COMPOSITIONS: &[Row] = &[
    (
        With::Packages,
        "package a:b; let x = new c:d { ..., y };",
        "31+3: implicit import argument `...` must be the last argument\nFillArgumentNotLast { span: SourceSpan { offset: 31, len: 3 } }",
    ),
    (
        With::Packages,
        "package a:b; import log: func(); let i = new c:d { log }; export i.run;",
        "45+3: missing instantiation argument `x:y/z` for package `c:d`\nMissingInstantiationArg { name: \"x:y/z\", package: \"c:d\", span: SourceSpan { offset: 45, len: 3 } }",
    ),
    (
        With::Packages,
        "package a:b; import x: c:d/q/r;",
        "27+1: package `c:d` has no export named `q`\nPackageMissingExport { package: \"c:d\", export: \"q\", kind: None, path: \"\", span: SourceSpan { offset: 27, len: 1 } }",
    ),
    (
        With::Nothing,
        "package a:b; import g: func(); import k: func(); export g as f; export g as h; export k as f;",
        "91+1: duplicate export `f`\nDuplicateExternName { kind: Export, name: \"f\", span: SourceSpan { offset: 91, len: 1 }, previous: SourceSpan { offset: 61, len: 1 }, help: None }",
    ),
    (
        With::Nothing,
        "package a:b targets a:b/w; world w { export run: func(); }",
        "20+5: target world `a:b/w` requires an export named `run`\nMissingTargetExport { name: \"run\", world: \"a:b/w\", kind: \"function\", span: SourceSpan { offset: 20, len: 5 } }",
    ),
    (
        With::NothingFits,
        "package a:b; import x: interface { log: func(); }; let i = new c:d { ...x, ... };",
        "72+1: mismatched instantiation argument `log`\nMismatchedInstantiationArg { name: \"log\", source: Reason(7), span: SourceSpan { offset: 72, len: 1 } }",
    ),
    (
        With::Packages,
        "package a:b; import q: func(); let i = new c:d { q, ... };",
        "49+1: component `c:d` has no import named `q`\nMissingComponentImport { package: \"c:d\", import: \"q\", span: SourceSpan { offset: 49, len: 1 } }",
    ),
    (
        With::Nothing,
        "package a:b; let x = new c:d {};",
        "25+3: unknown package `c:d`\nUnknownPackage { name: \"c:d\", span: SourceSpan { offset: 25, len: 3 } }",
    ),
    (
        With::Nothing,
        "package a:b; import i: interface { resource r; }; let x = i.r; type y = x;",
        "72+1: `x` (resource) cannot be used in a type alias\nInvalidAliasType { name: \"x\", kind: \"resource\", span: SourceSpan { offset: 72, len: 1 } }",
    ),
    (
        With::Nothing,
        "package a:b; import g: func(); let y = g.h;",
        "39+1: an instance is required to perform an access operation\nNotAnInstance { kind: \"function\", operation: Access, span: SourceSpan { offset: 39, len: 1 } }",
    ),
];

/// Compositions, and their graphs.
static GRAPHS: &[Row] = &[
    (
        With::Packages,
        "package a:b; import log: func(); let i = new c:d { log, ... }; export i.run;",
        "0 import log: function [log]\n1 new c:d: instance [i]\n  log = 0\n2 alias 1 run: function\nexport run = 2\n",
    ),
    (
        With::Nothing,
        "package a:b; import x: interface { f: func(); }; export x.f;",
        "0 import x: instance [x]\n1 alias 0 f: function\nexport f = 1\n",
    ),
    (
        With::Packages,
        "package a:b; import x: interface { log: func(); }; let i = new c:d { ...x, ... };",
        "0 import x: instance [x]\n1 alias 0 log: function\n2 new c:d: instance [i]\n  log = 1\n",
    ),
    (
        With::Nothing,
        "package a:b; import x: interface { f: func(); }; export x.f as g; export x.f as h;",
        "0 import x: instance [x]\n1 alias 0 f: function\nexport g = 1\nexport h = 1\n",
    ),
    (
        With::Nothing,
        "package a:b; type t = u32;",
        "0 definition: value type [t]\nexport t = 0\n",
    ),
];

#[test]
fn worked_examples(rt: HostRuntime) -> Result<(), Fail> {
    hold(&rt, rt.alloc(), Asked::Answer, DECLARATIONS)?;
    hold(&rt, rt.alloc(), Asked::World, WORLDS)?;
    hold(&rt, rt.alloc(), Asked::Answer, COMPOSITIONS)?;
    Ok(hold(&rt, rt.alloc(), Asked::Answer, GRAPHS)?)
}
