//! Texts that tests share.

/// A document with docs before each statement, and items in an interface and a world.
pub(crate) const DOCUMENTED: &str = "/* ignore me */\n\
    /// Doc comment for the package!\n\
    package test:foo:bar@1.0.0;\n\
    /// Doc comment #1!\n\
    import foo: foo:bar/baz;\n\
    /// Doc comment #2!\n\
    type a = u32;\n\
    /// Doc comment #3!\n\
    record r {\n    x: string\n}\n\
    /// Doc comment #4!\n\
    interface i {\n    /// Doc comment #5!\n    f: func() -> r;\n}\n\
    /// Doc comment #6!\n\
    world w {\n    /// Doc comment #7!\n    import i;\n    /// Doc comment #8!\n    export f: func() -> a;\n}\n\
    /// Doc comment #9!\n\
    let x = new foo:bar { };\n\
    /// Doc comment #10!\n\
    export x as \"foo\";\n";

/// What is printed of it.
pub(crate) const DOCUMENTED_PRINTED: &str =
    "/// Doc comment for the package!\npackage test:foo:bar@1.0.0;\n\n\
    /// Doc comment #1!\nimport foo: foo:bar/baz;\n\n\
    /// Doc comment #2!\ntype a = u32;\n\n\
    /// Doc comment #3!\nrecord r {\n    x: string,\n}\n\n\
    /// Doc comment #4!\ninterface i {\n    /// Doc comment #5!\n    f: func() -> r;\n}\n\n\
    /// Doc comment #6!\nworld w {\n    /// Doc comment #7!\n    import i;\n\n    /// Doc comment #8!\n    export f: func() -> a;\n}\n\n\
    /// Doc comment #9!\nlet x = new foo:bar {};\n\n\
    /// Doc comment #10!\nexport x as \"foo\";\n";

/// Texts that have a tree.
pub(crate) static DOCUMENTS: [&str; 27] = [
    "package a:b;",
    "package a:b targets c:d/e;",
    DOCUMENTED,
    "package a:b; let x = new c:d { ..., y };",
    "/** a\n\n b */ package a:b;",
    "package a:b;\r\n/// d\r\nlet x = y;",
    "package a:b; interface i { f: func(); type f = u32; }",
    "package a:b; import log: func(); let i = new c:d { log, ... }; export i.run;",
    "package a:b; import log: func(); let i = new c:d { log };",
    "package a:b; import x: c:d/q/r;",
    "package a:b; import g: func(); import k: func(); export g as f; export g as h; export k as f;",
    "package a:b; type t = result<_, _>;",
    "package a:b; import x: interface { f: func(); }; export x.f;",
    "package a:b targets a:b/w; world w { export run: func(); }",
    "package a:b; type t = tuple<u8>;",
    "package a:b; type t = stream<u8>;",
    "package a:b; import x: %c:d/e/%f@1.0.0;",
    "package a:b@18446744073709551615.0.0;",
    "package a:b; interface i { f: func() -> ; }",
    "package a:b; interface i { f: func() -> (a: u32, b: string,); }",
    "package a:b; type t = func(a: u8) -> (%a: tuple<u8, u8>);",
    "package a:b; export (x.y)[ \"q\" ].z as \"n\";",
    "package a:b; interface i { resource r; use j.{}; }",
    "package a:b; world w { include v with { a as b }; include u with {}; }",
    "package a:b; variant v { a, /// one\nb(list<option<u8>>), } flags f { g } enum e { h, }",
    "package a:b; interface i { resource r { constructor(x: u8); m: static async func() -> borrow<r>; } }",
    "package a:b; let x = new c:d { \"e\" : y, ...z, i, };",
];
