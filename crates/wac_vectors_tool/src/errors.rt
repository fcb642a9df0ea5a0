//! Each error of resolving, made by documents: where it points, what it says, and all its fields.

use crate::documents::{Row, With, hold};
use crate::readings::Asked;
use std::test::Fail;

/// Of names and worlds.
static NAMES: &[Row] = &[
    (
        With::Nothing,
        "package a:b; import g: func(); let h = f;",
        "39+1: undefined name `f`\nUndefinedName { name: \"f\", span: SourceSpan { offset: 39, len: 1 } }",
    ),
    (
        With::Nothing,
        "package a:b; let x = %y;",
        "21+2: undefined name `y`\nUndefinedName { name: \"y\", span: SourceSpan { offset: 21, len: 2 } }",
    ),
    (
        With::Nothing,
        "package a:b; let x = y; let x = z;",
        "21+1: undefined name `y`\nUndefinedName { name: \"y\", span: SourceSpan { offset: 21, len: 1 } }",
    ),
    (
        With::Nothing,
        "package a:b; import x: a:b/i/j;",
        "27+1: undefined name `i`\nUndefinedName { name: \"i\", span: SourceSpan { offset: 27, len: 1 } }",
    ),
    (
        With::Nothing,
        "package a:b; import g: func(); let g = g;",
        "35+1: `g` is already defined\nDuplicateName { name: \"g\", span: SourceSpan { offset: 35, len: 1 }, previous: SourceSpan { offset: 20, len: 1 } }",
    ),
    (
        With::Nothing,
        "package a:b; import x: interface { f: func(); f: func(); };",
        "46+1: duplicate interface export `f`\nDuplicateInterfaceExport { name: \"f\", interface_name: None, span: SourceSpan { offset: 46, len: 1 } }",
    ),
    (
        With::Nothing,
        "package a:b; world w { import p: func(); import p: func(); }",
        "48+1: import `p` conflicts with existing import of the same name in world `w`\nDuplicateWorldItem { kind: Import, name: \"p\", world: \"w\", span: SourceSpan { offset: 48, len: 1 } }",
    ),
    (
        With::Nothing,
        "package a:b; interface i { } world w { export i; export a:b/i; }",
        "56+5: export `a:b/i` conflicts with existing export of the same name in world `w`\nDuplicateWorldItem { kind: Export, name: \"a:b/i\", world: \"w\", span: SourceSpan { offset: 56, len: 5 } }",
    ),
    (
        With::Nothing,
        "package a:b; world v { } world w { import x: v; }",
        "45+1: `v` (world) is not a function type or interface\nNotFuncOrInterface { name: \"v\", kind: \"world\", span: SourceSpan { offset: 45, len: 1 } }",
    ),
    (
        With::Nothing,
        "package a:b; world v { } interface i { use v.{ t }; }",
        "43+1: `v` (world) is not an interface\nNotInterface { name: \"v\", kind: \"world\", span: SourceSpan { offset: 43, len: 1 } }",
    ),
    (
        With::Nothing,
        "package a:b; world v { } world w { import a:b/v; }",
        "42+5: `a:b/v` (world) is not an interface\nNotInterface { name: \"a:b/v\", kind: \"world\", span: SourceSpan { offset: 42, len: 5 } }",
    ),
    (
        With::Nothing,
        "package a:b; world v { import p: func(); } world w { include v with { p as x, p as y }; }",
        "78+1: duplicate `p` in world include `with` clause\nDuplicateWorldIncludeName { name: \"p\", span: SourceSpan { offset: 78, len: 1 } }",
    ),
    (
        With::Nothing,
        "package a:b; interface i { } world w { include i; }",
        "47+1: `i` (interface) is not a world\nNotWorld { name: \"i\", kind: \"interface\", span: SourceSpan { offset: 47, len: 1 } }",
    ),
    (
        With::Nothing,
        "package a:b targets a:b/i; interface i { }",
        "20+5: `a:b/i` (interface) is not a world\nNotWorld { name: \"a:b/i\", kind: \"interface\", span: SourceSpan { offset: 20, len: 5 } }",
    ),
    (
        With::Nothing,
        "package a:b; world v { export q: func(); } world w { include v with { p as x }; }",
        "70+1: world `v` does not have an import or export named `p`\nMissingWorldInclude { world: \"v\", name: \"p\", span: SourceSpan { offset: 70, len: 1 } }",
    ),
    (
        With::Nothing,
        "package a:b; world v { import p: func(); } world w { import p: func(); include v; }",
        "79+1: import `p` from world `v` conflicts with import of the same name in world `w`\nWorldIncludeConflict { kind: Import, name: \"p\", from: \"v\", to: \"w\", span: SourceSpan { offset: 79, len: 1 }, help: Some(\"consider using a `with` clause to use a different name\") }",
    ),
    (
        With::Nothing,
        "package a:b; world v { export p: func(); } world w { export q: func(); include v with { p as q }; }",
        "93+1: export `q` from world `v` conflicts with export of the same name in world `w`\nWorldIncludeConflict { kind: Export, name: \"q\", from: \"v\", to: \"w\", span: SourceSpan { offset: 93, len: 1 }, help: None }",
    ),
    (
        With::Nothing,
        "package a:b; interface i { } interface j { use a:b/i.{ t as s }; }",
        "55+1: a type named `t` is not defined in interface `a:b/i`\nUndefinedInterfaceType { name: \"t\", interface_name: \"a:b/i\", span: SourceSpan { offset: 55, len: 1 } }",
    ),
    (
        With::Nothing,
        "package a:b; interface i { f: func(); } interface j { use i.{ f }; }",
        "62+1: `f` (function) is not a value type in interface `i`\nNotInterfaceValueType { name: \"f\", kind: \"function\", interface_name: \"i\", span: SourceSpan { offset: 62, len: 1 } }",
    ),
];

/// Of types.
static TYPES: &[Row] = &[
    (
        With::Nothing,
        "package a:b; interface i { resource r { constructor(); constructor(); } }",
        "55+11: duplicate constructor for resource `r`\nDuplicateResourceConstructor { resource: \"r\", span: SourceSpan { offset: 55, len: 11 } }",
    ),
    (
        With::Nothing,
        "package a:b; interface i { resource r { m: func(); m: static func(); } }",
        "51+1: duplicate method `m` for resource `r`\nDuplicateResourceMethod { name: \"m\", resource: \"r\", span: SourceSpan { offset: 51, len: 1 } }",
    ),
    (
        With::Nothing,
        "package a:b; variant v { a, b(u8), a(u8) }",
        "35+1: duplicate case `a` for variant type `v`\nDuplicateVariantCase { case: \"a\", name: \"v\", span: SourceSpan { offset: 35, len: 1 } }",
    ),
    (
        With::Nothing,
        "package a:b; record r { a: u8, a: u8 }",
        "31+1: duplicate field `a` for record type `r`\nDuplicateRecordField { field: \"a\", name: \"r\", span: SourceSpan { offset: 31, len: 1 } }",
    ),
    (
        With::Nothing,
        "package a:b; enum e { a, b, a }",
        "28+1: duplicate case `a` for enum type `e`\nDuplicateEnumCase { case: \"a\", name: \"e\", span: SourceSpan { offset: 28, len: 1 } }",
    ),
    (
        With::Nothing,
        "package a:b; flags f { a, a, a }",
        "26+1: duplicate flag `a` for flags type `f`\nDuplicateFlag { flag: \"a\", name: \"f\", span: SourceSpan { offset: 26, len: 1 } }",
    ),
    (
        With::Nothing,
        "package a:b; interface i { } type t = i;",
        "38+1: `i` (interface) cannot be used in a type alias\nInvalidAliasType { name: \"i\", kind: \"interface\", span: SourceSpan { offset: 38, len: 1 } }",
    ),
    (
        With::Nothing,
        "package a:b; interface i { resource r; f: r; }",
        "42+1: `r` (resource) is not a function type\nNotFuncType { name: \"r\", kind: \"resource\", span: SourceSpan { offset: 42, len: 1 } }",
    ),
    (
        With::Nothing,
        "package a:b; interface i { type t = u8; f: func(x: borrow<t>); }",
        "58+1: `t` (value type) is not a resource type\nNotResourceType { name: \"t\", kind: \"value type\", span: SourceSpan { offset: 58, len: 1 } }",
    ),
    (
        With::Nothing,
        "package a:b; interface i { } record r { x: list<i> }",
        "48+1: `i` (interface) cannot be used as a value type\nNotValueType { name: \"i\", kind: \"interface\", span: SourceSpan { offset: 48, len: 1 } }",
    ),
    (
        With::Nothing,
        "package a:b; type f = func(x: u8, y: u8, x: u8);",
        "41+1: duplicate function parameter `x`\nDuplicateParameter { kind: Free, name: \"x\", span: SourceSpan { offset: 41, len: 1 } }",
    ),
    (
        With::Nothing,
        "package a:b; interface i { resource r { constructor(x: u8, x: u8); } }",
        "59+1: duplicate constructor parameter `x`\nDuplicateParameter { kind: Constructor, name: \"x\", span: SourceSpan { offset: 59, len: 1 } }",
    ),
    (
        With::Nothing,
        "package a:b; interface i { resource r { m: static func(x: u8, x: u8); } }",
        "62+1: duplicate static method parameter `x`\nDuplicateParameter { kind: Static, name: \"x\", span: SourceSpan { offset: 62, len: 1 } }",
    ),
    (
        With::Nothing,
        "package a:b; interface i { resource r { m: func() -> borrow<r>; } }",
        "53+9: function result cannot recursively contain a borrow type\nBorrowInResult { span: SourceSpan { offset: 53, len: 9 } }",
    ),
    (
        With::Nothing,
        "package a:b; interface i { resource r { m: static func() -> (x: u8, x: u8); } }",
        "68+1: duplicate static method result `x`\nDuplicateResult { kind: Static, name: \"x\", span: SourceSpan { offset: 68, len: 1 } }",
    ),
    (
        With::Nothing,
        "package a:b; interface i { resource r { m: func() -> (x: u8, y: list<borrow<r>>); } }",
        "64+15: function result cannot recursively contain a borrow type\nBorrowInResult { span: SourceSpan { offset: 64, len: 15 } }",
    ),
];

/// Of packages and arguments.
static PACKAGES: &[Row] = &[
    (
        With::Packages,
        "package a:b; let x = new a:b {};",
        "25+3: unknown package `a:b`\nUnknownPackage { name: \"a:b\", span: SourceSpan { offset: 25, len: 3 } }",
    ),
    (
        With::Packages,
        "package a:b; let x = new c:d@2.0.0 {};",
        "25+9: unknown package `c:d`\nUnknownPackage { name: \"c:d\", span: SourceSpan { offset: 25, len: 9 } }",
    ),
    (
        With::Nothing,
        "package a:b; import x: c:d/z@1.0.0;",
        "23+3: unknown package `c:d`\nUnknownPackage { name: \"c:d\", span: SourceSpan { offset: 23, len: 3 } }",
    ),
    (
        With::Packages,
        "package a:b; import x: c:d/w/run/q@1.0.0;",
        "33+1: function `w/run` in package `c:d` has no export named `q`\nPackageMissingExport { package: \"c:d\", export: \"q\", kind: Some(\"function\"), path: \"w/run\", span: SourceSpan { offset: 33, len: 1 } }",
    ),
    (
        With::Nothing,
        "package a:b; interface i { } import x: a:b/i/q;",
        "45+1: `i` (interface) has no export named `q`\nPackagePathMissingExport { name: \"i\", kind: \"interface\", export: \"q\", span: SourceSpan { offset: 45, len: 1 } }",
    ),
    (
        With::Packages,
        "package a:b; import f: func(); let i = new c:d@1.0.0 { \"q\": f, ... };",
        "55+3: component `c:d` has no import named `q`\nMissingComponentImport { package: \"c:d\", import: \"q\", span: SourceSpan { offset: 55, len: 3 } }",
    ),
    (
        With::SameFits,
        "package a:b; import f: func(x: u8); let i = new c:d { log: f, ... };",
        "54+3: mismatched instantiation argument `log`\nMismatchedInstantiationArg { name: \"log\", source: Reason(1), span: SourceSpan { offset: 54, len: 3 } }",
    ),
    (
        With::Packages,
        "package a:b; import q: func(); let i = new c:d { q, q };",
        "52+1: duplicate instantiation argument `q`\nDuplicateInstantiationArg { name: \"q\", span: SourceSpan { offset: 52, len: 1 } }",
    ),
    (
        With::Packages,
        "package a:b; let i = new c:d@1.0.0 {};",
        "25+9: missing instantiation argument `log` for package `c:d@1.0.0`\nMissingInstantiationArg { name: \"log\", package: \"c:d@1.0.0\", span: SourceSpan { offset: 25, len: 9 } }",
    ),
];

/// Of accesses, exports and names outside.
static EXPORTS: &[Row] = &[
    (
        With::Packages,
        "package a:b; import g: func(); let i = new c:d { ...g };",
        "52+1: an instance is required to perform a spread operation\nNotAnInstance { kind: \"function\", operation: Spread, span: SourceSpan { offset: 52, len: 1 } }",
    ),
    (
        With::Nothing,
        "package a:b; type t = u8; export t...;",
        "33+1: an instance is required to perform a spread operation\nNotAnInstance { kind: \"value type\", operation: Spread, span: SourceSpan { offset: 33, len: 1 } }",
    ),
    (
        With::Nothing,
        "package a:b; import i: interface { f: func(); }; let y = (i).f.h;",
        "60+2: an instance is required to perform an access operation\nNotAnInstance { kind: \"function\", operation: Access, span: SourceSpan { offset: 60, len: 2 } }",
    ),
    (
        With::Nothing,
        "package a:b; import i: interface { }; let y = i[\"f\"];",
        "47+5: the instance has no export named `f`\nMissingInstanceExport { name: \"f\", span: SourceSpan { offset: 47, len: 5 } }",
    ),
    (
        With::Packages,
        "package a:b; export (new c:d { ... });",
        "20+17: export statement requires an `as` clause as the export name cannot be inferred\nExportRequiresAs { span: SourceSpan { offset: 20, len: 17 } }",
    ),
    (
        With::Nothing,
        "package a:b; import f: func(); export f as t; type t = u8;",
        "51+1: type declaration `t` conflicts with a previous export of the same name\nDeclarationConflict { name: \"t\", span: SourceSpan { offset: 51, len: 1 }, export: SourceSpan { offset: 43, len: 1 } }",
    ),
    (
        With::Nothing,
        "package a:b; type t = u32; import f: func(); export f as t;",
        "57+1: export `t` conflicts with value type definition\nExportConflict { name: \"t\", kind: \"value type\", span: SourceSpan { offset: 57, len: 1 }, definition: SourceSpan { offset: 18, len: 1 }, help: None }",
    ),
    (
        With::Nothing,
        "package a:b; interface t { } import f as \"t\": func(); export f;",
        "61+1: export `t` conflicts with interface definition\nExportConflict { name: \"t\", kind: \"interface\", span: SourceSpan { offset: 61, len: 1 }, definition: SourceSpan { offset: 23, len: 1 }, help: Some(\"consider using an `as` clause to use a different name\") }",
    ),
    (
        With::Nothing,
        "package a:b; import g: func(); import g: func();",
        "38+1: duplicate import `g`\nDuplicateExternName { kind: Import, name: \"g\", span: SourceSpan { offset: 38, len: 1 }, previous: SourceSpan { offset: 20, len: 1 }, help: Some(\"consider using an `as` clause to use a different name\") }",
    ),
    (
        With::Nothing,
        "package a:b; import f as \"g\": func(); import h as g: func();",
        "50+1: duplicate import `g`\nDuplicateExternName { kind: Import, name: \"g\", span: SourceSpan { offset: 50, len: 1 }, previous: SourceSpan { offset: 25, len: 3 }, help: None }",
    ),
    (
        With::Nothing,
        "package a:b; import g: func(); export g; export (g);",
        "48+3: duplicate export `g`\nDuplicateExternName { kind: Export, name: \"g\", span: SourceSpan { offset: 48, len: 3 }, previous: SourceSpan { offset: 38, len: 1 }, help: Some(\"consider using an `as` clause to use a different name\") }",
    ),
    (
        With::NoNames,
        "package a:b; import f as \"\": func();",
        "25+2: import name `` is not valid\nInvalidExternName { name: \"\", kind: Import, source: Reason(8), span: SourceSpan { offset: 25, len: 2 } }",
    ),
    (
        With::NoNames,
        "package a:b; let i = new c:d { ... }; export i as \"q\";",
        "50+3: export name `q` is not valid\nInvalidExternName { name: \"q\", kind: Export, source: Reason(8), span: SourceSpan { offset: 50, len: 3 } }",
    ),
    (
        With::Nothing,
        "package a:b; interface i { type t = u8; } interface j { t: func(); use i.{ t }; }",
        "75+1: use of type `t` conflicts with an export of the same name\nUseConflict { kind: Export, name: \"t\", span: SourceSpan { offset: 75, len: 1 }, help: Some(\"consider using an `as` clause to use a different name\") }",
    ),
    (
        With::Nothing,
        "package a:b; interface i { type t = u8; } world w { import u: func(); use i.{ t as u }; }",
        "83+1: use of type `u` conflicts with an import of the same name\nUseConflict { kind: Import, name: \"u\", span: SourceSpan { offset: 83, len: 1 }, help: None }",
    ),
    (
        With::Packages,
        "package a:b; import x: interface { g: func(); }; let i = new c:d { log: x.g, ..., ...x };",
        "77+3: implicit import argument `...` must be the last argument\nFillArgumentNotLast { span: SourceSpan { offset: 77, len: 3 } }",
    ),
    (
        With::Packages,
        "package a:b; import x: interface { f: func(); }; let i = new c:d { ...x, ... };",
        "70+1: the instance has no matching exports for the remaining unsatisfied arguments\nSpreadInstantiationNoMatch { span: SourceSpan { offset: 70, len: 1 } }",
    ),
    (
        With::Nothing,
        "package a:b; import x: interface { }; export x...;",
        "45+1: instance has no exports or all exports of the instance match previously exported names\nSpreadExportNoEffect { span: SourceSpan { offset: 45, len: 1 } }",
    ),
];

/// Of targets.
static TARGETS: &[Row] = &[
    (
        With::Nothing,
        "package a:b targets a:b/w; world w { } import f as \"g\": func();",
        "51+3: target world `a:b/w` does not have an import named `g`\nImportNotInTarget { name: \"g\", world: \"a:b/w\", span: Some(SourceSpan { offset: 51, len: 3 }) }",
    ),
    (
        With::Packages,
        "package a:b targets a:b/w; world w { } let i = new c:d { ... };",
        "target world `a:b/w` does not have an import named `log`\nImportNotInTarget { name: \"log\", world: \"a:b/w\", span: None }",
    ),
    (
        With::Nothing,
        "package a:b targets a:b/w; interface i { } world w { export i; }",
        "20+5: target world `a:b/w` requires an export named `a:b/i`\nMissingTargetExport { name: \"a:b/i\", world: \"a:b/w\", kind: \"instance\", span: SourceSpan { offset: 20, len: 5 } }",
    ),
    (
        With::SameFits,
        "package a:b targets a:b/w; world w { import f: func(); } import f: func(x: u8);",
        "64+1: import `f` has a mismatched type for target world `a:b/w`\nTargetMismatch { kind: Import, name: \"f\", world: \"a:b/w\", source: Reason(1), span: Some(SourceSpan { offset: 64, len: 1 }) }",
    ),
    (
        With::NothingFits,
        "package a:b targets a:b/w; world w { import log: func(); } let i = new c:d { ... };",
        "import `log` has a mismatched type for target world `a:b/w`\nTargetMismatch { kind: Import, name: \"log\", world: \"a:b/w\", source: Reason(7), span: None }",
    ),
    (
        With::SameFits,
        "package a:b targets a:b/w; world w { import g: func(x: u8); export f: func(); } import g: func(x: u8); export g as f;",
        "115+1: export `f` has a mismatched type for target world `a:b/w`\nTargetMismatch { kind: Export, name: \"f\", world: \"a:b/w\", source: Reason(1), span: Some(SourceSpan { offset: 115, len: 1 }) }",
    ),
];

#[test]
fn each_error_is_reported(rt: HostRuntime) -> Result<(), Fail> {
    hold(&rt, rt.alloc(), Asked::Answer, NAMES)?;
    hold(&rt, rt.alloc(), Asked::Answer, TYPES)?;
    hold(&rt, rt.alloc(), Asked::Answer, PACKAGES)?;
    hold(&rt, rt.alloc(), Asked::Answer, EXPORTS)?;
    Ok(hold(&rt, rt.alloc(), Asked::Answer, TARGETS)?)
}
