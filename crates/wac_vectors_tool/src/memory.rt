//! Resolving where a request for memory fails: the test passes whichever request fails.

use crate::documents::{Question, Row, With, answer_of};
use crate::readings::Asked;
use std::alloc::{AllocError, Global};
use std::test::Fail;

/// Documents with what they are resolved with, and their graphs as lines or their errors.
static DOCUMENTS: &[Row] = &[
    (
        With::Packages,
        "package a:b; import log: func(); let i = new c:d { log, ... }; export i.run;",
        "0 import log: function [log]\n1 new c:d: instance [i]\n  log = 0\n2 alias 1 run: function\nexport run = 2\n",
    ),
    (
        With::Nothing,
        "package a:b; import x: interface { f: func(); }; export x.f;",
        "0 import x: instance [x]\n1 alias 0 f: function\nexport f = 1\n",
    ),
    (
        With::Nothing,
        "package a:b targets a:b/w; world w { export run: func(); }",
        "20+5: target world `a:b/w` requires an export named `run`\nMissingTargetExport { name: \"run\", world: \"a:b/w\", kind: \"function\", span: SourceSpan { offset: 20, len: 5 } }",
    ),
    (
        With::Nothing,
        "package a:b; interface i { resource r { constructor(x: u8); m: func() -> list<r>; } type t = r; f: func(x: borrow<t>) -> result<u8, string>; } interface j { use i.{ r as q }; g: func(x: q) -> (a: q, b: u8); }",
        "0 definition: interface [i]\n1 definition: interface [j]\nexport i = 0\nexport j = 1\n",
    ),
    (
        With::Nothing,
        "package a:b; interface i { type t = u8; } world v { import p: func(); export i; } world w { use i.{ t }; include v with { p as q }; export f: func(x: t); }",
        "0 definition: interface [i]\n1 definition: world [v]\n2 definition: world [w]\nexport i = 0\nexport v = 1\nexport w = 2\n",
    ),
    (
        With::Nothing,
        "package a:b; variant v { a, b(tuple<u8, char>) } record r { x: v, y: option<string> } flags f { a, b } enum e { a, b } type t = func(x: r) -> result<_, e>;",
        "0 definition: value type [v]\n1 definition: value type [r]\n2 definition: value type [f]\n3 definition: value type [e]\n4 definition: function type [t]\nexport v = 0\nexport r = 1\nexport f = 2\nexport e = 3\nexport t = 4\n",
    ),
];

/// What a document resolves to. Where memory runs out it is asked once more.
fn answer_again(alloc: Global, with: With, text: &str) -> Result<String, AllocError> {
    let question = Question {
        alloc,
        asked: Asked::Answer,
        with,
    };
    match answer_of(question, text) {
        Ok(found) => Ok(found),
        Err(_) => answer_of(question, text),
    }
}

#[test]
fn memory_that_is_refused(rt: HostRuntime) -> Result<(), Fail> {
    for row in DOCUMENTS {
        let (with, text, expected) = *row;
        let found = answer_again(rt.alloc(), with, text)?;
        assert!(rt; found.as_str() == expected, "{found} of {text}");
    }
    Ok(())
}
