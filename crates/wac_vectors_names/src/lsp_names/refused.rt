//! Names that can't get another one, and why.

use wac_lsp_names::RenameError;

/// A text, the new name of what is at the mark, and why it doesn't get it.
pub(crate) type RefusedRow = (&'static str, &'static str, RenameError);

/// A document in which a name can be renamed.
const PLAIN: &str = "package a:b; import |log: func(); export log;";

pub(crate) static REFUSED: [RefusedRow; 47] = [
    (
        "|package a:b; import log: func();",
        "x",
        RenameError::NoName,
    ),
    ("package a:b; export |log;", "x", RenameError::NoName),
    (
        "package a:b; import log as \"|log\": func();",
        "x",
        RenameError::NoName,
    ),
    (PLAIN, "", RenameError::Empty),
    (PLAIN, "%", RenameError::Empty),
    (PLAIN, "log_line", RenameError::Character),
    (PLAIN, "log line", RenameError::Character),
    (PLAIN, "l\u{e9}", RenameError::Character),
    (PLAIN, "%%x", RenameError::Character),
    (PLAIN, "-log", RenameError::Hyphen),
    (PLAIN, "log-", RenameError::Hyphen),
    (PLAIN, "log--line", RenameError::Hyphen),
    (PLAIN, "1log", RenameError::WordStart),
    (PLAIN, "log-2", RenameError::WordStart),
    (PLAIN, "logLine", RenameError::MixedCase),
    (PLAIN, "x-Log", RenameError::MixedCase),
    // At root.
    (
        "package a:b; import |f: func(); import g: func();",
        "g",
        RenameError::Taken,
    ),
    (
        "package a:b; import |f: func(); let g = new c:d { ... };",
        "g",
        RenameError::Taken,
    ),
    (
        "package a:b; import |f: func(); import %type: func();",
        "type",
        RenameError::Taken,
    ),
    (
        "package a:b; type |t = u8; import f: func(); export f as g;",
        "g",
        RenameError::Taken,
    ),
    (
        "package a:b; type |t = u8; import f: func(); export f as \"g\";",
        "g",
        RenameError::Taken,
    ),
    (
        "package a:b; interface |t { } import x: interface { g: func(); }; export x.g;",
        "g",
        RenameError::Taken,
    ),
    (
        "package a:b; interface |t { } import x: interface { g: func(); }; export x...;",
        "g",
        RenameError::Taken,
    ),
    // In bodies and types.
    (
        "package a:b; interface i { f: func(); type |t = u8; }",
        "f",
        RenameError::Taken,
    ),
    (
        "package a:b; interface i { type t = u8; } interface j { use i.{t}; |f: func(); }",
        "t",
        RenameError::Taken,
    ),
    (
        "package a:b; interface i { type |t = u8; } interface j { use i.{t}; f: func(); }",
        "f",
        RenameError::Taken,
    ),
    (
        "package a:b; world v { import |p: func(); } world w { import q: func(); include v; }",
        "q",
        RenameError::Taken,
    ),
    (
        "package a:b; world v { import p: func(); } world w { import |q: func(); include v; }",
        "p",
        RenameError::Taken,
    ),
    (
        "package a:b; world v { import p: func(); } world w { import q: func(); include v with { p as |r }; }",
        "q",
        RenameError::Taken,
    ),
    (
        "package a:b; record r { |x: u8, y: u8 }",
        "y",
        RenameError::Taken,
    ),
    (
        "package a:b; variant v { |x(u8), y }",
        "y",
        RenameError::Taken,
    ),
    (
        "package a:b; interface i { resource r { |m: func(); n: static func(); } }",
        "n",
        RenameError::Taken,
    ),
    (
        "package a:b; import f: func(|x: u8, y: u8);",
        "y",
        RenameError::Taken,
    ),
    (
        "package a:b; interface i { resource r { m: func(|x: u8); } }",
        "self",
        RenameError::Taken,
    ),
    // A body's own name comes before one of the document.
    (
        "package a:b; interface |i { } world w { type t = func(); import a: i; }",
        "t",
        RenameError::Captured,
    ),
    (
        "package a:b; interface i { } world w { type |t = func(); import a: i; }",
        "i",
        RenameError::Captures,
    ),
    (
        "package a:b; import |f: func(); export g;",
        "g",
        RenameError::Captures,
    ),
    // Statements that can't be read.
    (
        "package a:b; import |log: func(); let = log; export log;",
        "x",
        RenameError::Faulty,
    ),
    (
        "package a:b; import |log: func(); let = x; export log;",
        "x",
        RenameError::Faulty,
    ),
    (
        "package ; import |log: func(); export log;",
        "x",
        RenameError::Faulty,
    ),
    // Names that others see, and for which there is no other form.
    (
        "package a:b; import x: c:d/e; import |y: x;",
        "z",
        RenameError::ImportName,
    ),
    (
        "package a:b; import |l: c:d/log; let i = new e:f { l };",
        "x",
        RenameError::ArgumentName,
    ),
    (
        "package a:b; import |log as \"l\": func(); let i = new e:f { log };",
        "x",
        RenameError::ArgumentName,
    ),
    (
        "package a:b; import x: interface { |f: func(); }; let g = x.f; let i = new c:d { g };",
        "h",
        RenameError::ArgumentName,
    ),
    (
        "package a:b; import x: interface { |f: func(); }; let i = new c:d { ...x };",
        "g",
        RenameError::Spread,
    ),
    (
        "package a:b; import x: interface { |f: func(); }; export x...;",
        "g",
        RenameError::Spread,
    ),
    (
        "package a:b targets a:b/w; world w { import |f: func(); } import f: func();",
        "g",
        RenameError::Target,
    ),
];
