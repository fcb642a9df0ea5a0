//! Formatting documents, also where a request for memory fails: the test passes whichever fails.

use std::alloc::Global;
use wac_parser::{Error, ParseResult, format};

/// Documents, and what they are printed as.
static DOCUMENTS: [(&str, &str); 11] = [
    ("package a:b;", "package a:b;\n\n"),
    (
        "package a:b; type t = u32;",
        "package a:b;\n\ntype t = u32;\n",
    ),
    (
        "package a:b; import x: interface { f: func(); }; export x.f;",
        "package a:b;\n\nimport x: interface {\n    f: func();\n};\n\nexport x.f;\n",
    ),
    (
        "package a:b;\n\nimport x: interface {\n    f: func();\n};\n\nexport x.f;\n",
        "package a:b;\n\nimport x: interface {\n    f: func();\n};\n\nexport x.f;\n",
    ),
    (
        "package a:b; import x: interface { f: func(); }; export x.f as g; export x.f as h;",
        "package a:b;\n\nimport x: interface {\n    f: func();\n};\n\nexport x.f as g;\n\nexport x.f as h;\n",
    ),
    (
        "package a:b; import g: func(); let x = g; let y = (x); export y as \"a name\";",
        "package a:b;\n\nimport g: func();\n\nlet x = g;\n\nlet y = (x);\n\nexport y as \"a name\";\n",
    ),
    (
        "package a:b; interface i { } world w { } type f = func(); import j: i; import k: j; import g: f; import v as \"any\": w;",
        "package a:b;\n\ninterface i {\n}\n\nworld w {\n}\n\ntype f = func();\n\nimport j: i;\n\nimport k: j;\n\nimport g: f;\n\nimport v as \"any\": w;\n",
    ),
    (
        "package a:b; import x: interface { f: func(); g: func(); }; let h = x.f; export h as \"f\"; export x...;",
        "package a:b;\n\nimport x: interface {\n    f: func();\n\n    g: func();\n};\n\nlet h = x.f;\n\nexport h as \"f\";\n\nexport x...;\n",
    ),
    (
        "package a:b; import x: interface { f: func() -> (a: u32, b: string,); }; export x.f;",
        "package a:b;\n\nimport x: interface {\n    f: func() -> (a: u32, b: string);\n};\n\nexport x.f;\n",
    ),
    (
        "package a:b targets a:b/w; interface i { f: func(x: u8); } world w { import i; export f: func(x: u8); } import x: a:b/i; export x.f;",
        "package a:b targets a:b/w;\n\ninterface i {\n    f: func(x: u8);\n}\n\nworld w {\n    import i;\n\n    export f: func(x: u8);\n}\n\nimport x: a:b/i;\n\nexport x.f;\n",
    ),
    (
        "package a:b; let x = new c:d {};",
        "package a:b;\n\nlet x = new c:d {};\n",
    ),
];

/// What a text is formatted to. Where memory runs out it is formatted once more.
fn formatted_again(alloc: Global, source: &str) -> ParseResult<String> {
    match format(alloc, source, None) {
        Err(Error::Memory(_)) => format(alloc, source, None),
        answer => answer,
    }
}

/// Whether a text is formatted to another one.
fn is_formatted(alloc: Global, source: &str, printed: &str) -> bool {
    match formatted_again(alloc, source) {
        Ok(found) => found.as_str() == printed,
        Err(_) => false,
    }
}

#[test]
fn documents_are_formatted_after_a_refusal(rt: HostRuntime) {
    for (source, printed) in &DOCUMENTS {
        assert!(rt; is_formatted(rt.alloc(), source, printed), "{source}");
    }
}
