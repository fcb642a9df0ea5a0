//! Texts in which a name gets another one, written by hand.

use crate::lsp_names::after::Row;

/// Imports, `let`, arguments and exports.
pub(crate) static STATEMENTS: [Row; 35] = [
    (
        "package a:b; import |log: func(); export log;",
        "write",
        "package a:b; import write as log: func(); export write;",
    ),
    (
        "package a:b; import log: func(); export |log;",
        "%write",
        "package a:b; import write as log: func(); export write;",
    ),
    (
        "package a:b; import log: func(); export log|;",
        "LOG-line2",
        "package a:b; import LOG-line2 as log: func(); export LOG-line2;",
    ),
    (
        "package a:b; import |log: func(); export log;",
        "log",
        "package a:b; import log: func(); export log;",
    ),
    (
        "package a:b; import |log: async func(); export log;",
        "x",
        "package a:b; import x as log: async func(); export x;",
    ),
    (
        "package a:b; import |log as \"x\": func(); export log;",
        "write",
        "package a:b; import write as \"x\": func(); export write;",
    ),
    (
        "package a:b; import |log as x: func(); export log as log;",
        "write",
        "package a:b; import write as x: func(); export write as log;",
    ),
    // An import by a path is named by the path.
    (
        "package a:b; import |h: wasi:http/handler@0.2.0; export h;",
        "in",
        "package a:b; import in: wasi:http/handler@0.2.0; export in;",
    ),
    // An import of an interface of the document is named by its own identifier.
    (
        "package a:b; interface i { } import |y: i; export y;",
        "z",
        "package a:b; interface i { } import z as y: i; export z;",
    ),
    (
        "package a:b; interface |i { f: func(); } import y: i; import z: a:b/i; export y.f;",
        "j",
        "package a:b; interface j { f: func(); } import y: j; import z: a:b/j; export y.f;",
    ),
    (
        "package a:b; import x: interface { }; import |y: x;",
        "z",
        "package a:b; import x: interface { }; import z as y: x;",
    ),
    // Arguments that stand alone.
    (
        "package a:b; import log: func(); let i = new c:d { |log, ... };",
        "write",
        "package a:b; import write as log: func(); let i = new c:d { log: write, ... };",
    ),
    (
        "package a:b; import log: wasi:logging/log@0.1.0; let i = new c:d { |log };",
        "l",
        "package a:b; import l: wasi:logging/log@0.1.0; let i = new c:d { log: l };",
    ),
    (
        "package a:b; let |i = new c:d { ... }; let j = new e:f { i, x: i.y }; export j...;",
        "k",
        "package a:b; let k = new c:d { ... }; let j = new e:f { i: k, x: k.y }; export j...;",
    ),
    (
        "package a:b; import %import: func(); let i = new c:d { |%import };",
        "x",
        "package a:b; import x as %import: func(); let i = new c:d { %import: x };",
    ),
    (
        "package a:b; import log: func(); let i = new c:d { log: |log, \"log\": (new e:f { log }).log };",
        "write",
        "package a:b; import write as log: func(); let i = new c:d { log: write, \"log\": (new e:f { log: write }).log };",
    ),
    (
        "package a:b; import |x: c:d/e; let i = new c:f { ...x, ... };",
        "y",
        "package a:b; import y: c:d/e; let i = new c:f { ...y, ... };",
    ),
    (
        "package a:b; import x: c:d/e; let |f = x.f; let i = new c:f { f };",
        "g",
        "package a:b; import x: c:d/e; let g = x.f; let i = new c:f { f: g };",
    ),
    (
        "package a:b; type t = func(); import |log: t; let i = new c:d { log };",
        "write",
        "package a:b; type t = func(); import write as log: t; let i = new c:d { log: write };",
    ),
    (
        "package a:b; import x: interface { f: func(); }; let y = x; let i = new c:d { f: y.f }; export y.|f;",
        "g",
        "package a:b; import x: interface { g: func(); }; let y = x; let i = new c:d { f: y.g }; export y.g as f;",
    ),
    (
        "package a:b;\r\nimport |log: func();\r\nexport log;\r\n",
        "write",
        "package a:b;\r\nimport write as log: func();\r\nexport write;\r\n",
    ),
    // Keywords.
    (
        "package a:b; let |x = new c:d { }; export x.run;",
        "interface",
        "package a:b; let %interface = new c:d { }; export %interface.run;",
    ),
    (
        "package a:b; import |%import: func(); export %import;",
        "f",
        "package a:b; import f as %import: func(); export f;",
    ),
    (
        "package a:b; interface |i { f: func(); } import x: a:b/i;",
        "type",
        "package a:b; interface %type { f: func(); } import x: a:b/type;",
    ),
    (
        "package a:b; interface %type { } world w { import a: |%type; import a:b/type; }",
        "t",
        "package a:b; interface t { } world w { import a: t; import a:b/t; }",
    ),
    (
        "package a:b; let |%x = new c:d { }; export %x.run;",
        "y",
        "package a:b; let y = new c:d { }; export y.run;",
    ),
    // Accesses: an export keeps the name that it has by one.
    (
        "package a:b; import i: interface { |f: func(); }; export i.f as \"a\"; let g = i[\"f\"]; export g as b;",
        "func",
        "package a:b; import i: interface { %func: func(); }; export i.%func as \"a\"; let g = i[\"func\"]; export g as b;",
    ),
    (
        "package a:b; import i: interface { f: func(); }; export i.|f;",
        "h",
        "package a:b; import i: interface { h: func(); }; export i.h as f;",
    ),
    (
        "package a:b; import i: interface { %func: func(); }; export (i.|%func) ;",
        "h",
        "package a:b; import i: interface { h: func(); }; export (i.h) as %func ;",
    ),
    (
        "package a:b; import i: interface { f: func(); }; let g = (i).|f; let k = g; export k;",
        "h",
        "package a:b; import i: interface { h: func(); }; let g = (i).h; let k = g; export k as f;",
    ),
    (
        "package a:b; import i: interface { f: func(); }; let f = i.|f; let j = new c:d { f };",
        "h",
        "package a:b; import i: interface { h: func(); }; let f = i.h; let j = new c:d { f: f };",
    ),
    (
        "package a:b; import i: interface { f: func(); }; let |g = i.f; export g;",
        "h",
        "package a:b; import i: interface { f: func(); }; let h = i.f; export h;",
    ),
    // Lines, and letters of more than one byte before names.
    (
        "package a:b;\n/* \u{e9} */ import |log: func(); /* \u{1f600} */ export log;\n/* \u{1f600}\u{e9} */ export log as a;\n",
        "write",
        "package a:b;\n/* \u{e9} */ import write as log: func(); /* \u{1f600} */ export write;\n/* \u{1f600}\u{e9} */ export write as a;\n",
    ),
    // A faulty statement with other names stays as it is.
    (
        "package a:b; import |log: func(); let = x-log; // log\nexport log;",
        "write",
        "package a:b; import write as log: func(); let = x-log; // log\nexport write;",
    ),
    (
        "package a:b targets a:b/|w; world w { }",
        "v",
        "package a:b targets a:b/v; world v { }",
    ),
];

/// Interfaces, worlds and types.
pub(crate) static DECLARATIONS: [Row; 28] = [
    (
        "package a:b; interface j { use c:d/i.{|t}; f: func(x: t); }",
        "u",
        "package a:b; interface j { use c:d/i.{t as u}; f: func(x: u); }",
    ),
    (
        "package a:b; interface j { use c:d/i.{%type}; f: func(x: |%type); }",
        "u",
        "package a:b; interface j { use c:d/i.{%type as u}; f: func(x: u); }",
    ),
    (
        "package a:b; interface j { use c:d/i.{t as |u}; f: func(x: u); }",
        "v",
        "package a:b; interface j { use c:d/i.{t as v}; f: func(x: v); }",
    ),
    (
        "package a:b; interface j { use c:d/i.{t}; } interface k { use j.{|t}; f: func(x: t); }",
        "u",
        "package a:b; interface j { use c:d/i.{t as u}; } interface k { use j.{u}; f: func(x: u); }",
    ),
    (
        "package a:b; interface i { type |t = u8; } interface j { use i.{t, }; f: func() -> t; }",
        "s",
        "package a:b; interface i { type s = u8; } interface j { use i.{s, }; f: func() -> s; }",
    ),
    (
        "package a:b; interface i { type |t = u8; } interface j { use i.{t as r}; f: func() -> r; }",
        "s",
        "package a:b; interface i { type s = u8; } interface j { use i.{s as r}; f: func() -> r; }",
    ),
    // Another scope may have the new name.
    (
        "package a:b; type t = u8; interface i { type |u = u8; f: func(x: u); } interface j { type t = u8; }",
        "t",
        "package a:b; type t = u8; interface i { type t = u8; f: func(x: t); } interface j { type t = u8; }",
    ),
    // The inner type of that name isn't this one.
    (
        "package a:b; type |t = u8; record r { x: t } interface i { type t = u16; f: func(x: t); }",
        "s",
        "package a:b; type s = u8; record r { x: s } interface i { type t = u16; f: func(x: t); }",
    ),
    (
        "package a:b; type |t = u8; record r { x: list<t>, y: option<tuple<t, t>> }",
        "s",
        "package a:b; type s = u8; record r { x: list<s>, y: option<tuple<s, s>> }",
    ),
    (
        "package a:b; record r { |x: u8, y: u8 } record s { x: u8 }",
        "z",
        "package a:b; record r { z: u8, y: u8 } record s { x: u8 }",
    ),
    (
        "package a:b; variant v { |x(u8), y }",
        "record",
        "package a:b; variant v { %record(u8), y }",
    ),
    (
        "package a:b; enum e { x, |y }",
        "z",
        "package a:b; enum e { x, z }",
    ),
    (
        "package a:b; flags f { |x, y }",
        "z",
        "package a:b; flags f { z, y }",
    ),
    (
        "package a:b; interface i { resource |r { m: func() -> r; } f: func(x: borrow<r>) -> r; }",
        "s",
        "package a:b; interface i { resource s { m: func() -> s; } f: func(x: borrow<s>) -> s; }",
    ),
    (
        "package a:b; interface i { resource r { |m: func(); n: static func(); } f: func(); }",
        "f",
        "package a:b; interface i { resource r { f: func(); n: static func(); } f: func(); }",
    ),
    (
        "package a:b; interface i { resource r { m: static func(|x: u8); } }",
        "self",
        "package a:b; interface i { resource r { m: static func(self: u8); } }",
    ),
    (
        "package a:b; import f: func(|x: u8) -> (y: u8);",
        "y",
        "package a:b; import f: func(y: u8) -> (y: u8);",
    ),
    (
        "package a:b; import f: func(x: u8) -> (|y: u8);",
        "z",
        "package a:b; import f: func(x: u8) -> (z: u8);",
    ),
    (
        "package a:b; world w { import |f: func(); export g: func(); } world v { include w with { f as h }; }",
        "k",
        "package a:b; world w { import k: func(); export g: func(); } world v { include w with { k as h }; }",
    ),
    (
        "package a:b@1.0.0; world v { import p: func(); } world w { include a:b/v@1.0.0 with { |p as q }; include v with { p as r }; }",
        "q",
        "package a:b@1.0.0; world v { import q: func(); } world w { include a:b/v@1.0.0 with { q as q }; include v with { q as r }; }",
    ),
    (
        "package a:b; world w { type t = u8; import x: interface { type |t = u16; f: func() -> t; }; }",
        "u",
        "package a:b; world w { type t = u8; import x: interface { type u = u16; f: func() -> u; }; }",
    ),
    (
        "package a:b; world w { import |f: func(); export g: func(); }",
        "g",
        "package a:b; world w { import g: func(); export g: func(); }",
    ),
    (
        "package a:b; world v { import |p: func(); } world w { import q: func(); include v with { p as s }; }",
        "q",
        "package a:b; world v { import q: func(); } world w { import q: func(); include v with { q as s }; }",
    ),
    (
        "package a:b; world v { import p: func(); } world w { import |q: func(); include v with { p as s }; }",
        "p",
        "package a:b; world v { import p: func(); } world w { import p: func(); include v with { p as s }; }",
    ),
    (
        "package a:b; world v { import p: func(); } world w { include v with { p as |s }; }",
        "p",
        "package a:b; world v { import p: func(); } world w { include v with { p as p }; }",
    ),
    (
        "package a:b; interface |i { type t = u8; } interface j { use i.{t}; } world w { use a:b/i.{t}; import i; export x: i; }",
        "k",
        "package a:b; interface k { type t = u8; } interface j { use k.{t}; } world w { use a:b/k.{t}; import k; export x: k; }",
    ),
    (
        "package a:b targets a:b/w; world w { export x: interface { f: func(); }; } world v { export |x: func(); }",
        "y",
        "package a:b targets a:b/w; world w { export x: interface { f: func(); }; } world v { export y: func(); }",
    ),
    (
        "package a:b; import x: interface { type |t = u8; f: func(a: t); }; export x.f;",
        "s",
        "package a:b; import x: interface { type s = u8; f: func(a: s); }; export x.f;",
    ),
];
