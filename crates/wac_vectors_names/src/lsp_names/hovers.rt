//! What is said of names.

use crate::marked::Row;
use std::alloc::{AllocError, Global};
use wac_lsp_names::hover_at;

/// Texts with a mark, and what is said there: the lines that declare the name and, after a line of signs, its docs.
/// Nothing where no name is there.
pub(crate) static HOVERS: [Row; 21] = [
    (
        "package a:b;\n/// Writes a line.\nimport log: func(line: string);\nexport |log;",
        "import log: func(line: string);\n====\nWrites a line.",
    ),
    (
        "package a:b; /* \u{1f600} */ let |x = new c:d { ... }; export x...;",
        "let x = new c:d { ... };\n====\n",
    ),
    (
        "package a:b;\n\n/// One.\n///\n/// Two.\n// three\nlet |x = y;",
        "let x = y;\n====\nOne.\n\nTwo.",
    ),
    (
        "package a:b;\ninterface clock {\n    /** The time. */\n    now: func() -> u64;\n}\nimport c: clock;\nexport c.|now;\n",
        "now: func() -> u64;\n====\nThe time.",
    ),
    (
        "package a:b;\ninterface i {\n\t/// A point.\n\trecord p {\n\t\t/// Right.\n\t\tx: u8,   \n\t\ty: u8,\n\t}\n\tf: func(x: |p);\n}\n",
        "record p {\n\t/// Right.\n\tx: u8,\n\ty: u8,\n}\n====\nA point.",
    ),
    (
        "package a:b; record p { |x: tuple<u8, list<u8>>, y: u8 }",
        "x: tuple<u8, list<u8>>\n====\n",
    ),
    (
        "package a:b; record p { x: u8, /// Up.\n|y: u8 }",
        "y: u8\n====\nUp.",
    ),
    ("package a:b; enum e { x, |y }", "y\n====\n"),
    (
        "package a:b; variant v { |x(list<u8>), y }",
        "x(list<u8>)\n====\n",
    ),
    (
        "package a:b; import f: func(a: u8, |b: option<u8>) -> u8;",
        "b: option<u8>\n====\n",
    ),
    (
        "package a:b; interface i { resource r; f: func(x: borrow<|r>); }",
        "resource r;\n====\n",
    ),
    (
        "package a:b; interface i { resource r { |m: static func() -> r; } }",
        "m: static func() -> r;\n====\n",
    ),
    (
        "package a:b; interface i { /// From there.\nuse c:d/j.{s, t}; f: func(x: |t); }",
        "use c:d/j.{s, t};\n====\nFrom there.",
    ),
    (
        "package a:b; world v { import p: func(); } world w { include v with { p as |q }; }",
        "include v with { p as q };\n====\n",
    ),
    (
        "package a:b; world w { /// Runs.\nexport |run: func(); }",
        "export run: func();\n====\nRuns.",
    ),
    (
        "package a:b; import x: interface { f: func(); }; export |x.f;",
        "import x: interface { f: func(); };\n====\n",
    ),
    (
        "package a:b; enum |e { /* ``` */ x }",
        "enum e { /* ``` */ x }\n====\n",
    ),
    (
        "package a:b;\nenum |e {\na, b,\nc,\nd,\ne,\nf,\ng,\nh,\ni,\nj,\nk,\nl,\nm,\nn,\no,\np,\nq,\nr,\ns,\nt,\nu,\nv,\nw,\nx,\ny,\nz\n}\n",
        "enum e {\na, b,\nc,\nd,\ne,\nf,\ng,\nh,\ni,\nj,\nk,\nl,\nm,\nn,\no,\np,\nq,\nr,\ns,\nt,\nu,\nv,\nw,\nx,\n// ...\n====\n",
    ),
    // A faulty statement is passed over.
    (
        "package a:b; let = 1;\n/// Writes.\nimport |log: func();",
        "import log: func();\n====\nWrites.",
    ),
    ("|package a:b; import log: func();", ""),
    ("package a:b; import log: func(|);", ""),
];

/// What is said at an offset.
pub(crate) fn hover(alloc: Global, text: &str, offset: usize) -> Result<String, AllocError> {
    match hover_at(alloc, text, offset) {
        Ok(Some(hover)) => {
            let declaration = hover.declaration.as_str();
            let docs = hover.docs.as_str();
            format!(in alloc; "{declaration}\n====\n{docs}")
        }
        Ok(None) => Ok(String::new(alloc)),
        Err(error) => Err(error),
    }
}
