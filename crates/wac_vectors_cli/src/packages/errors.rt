//! Each error of a declaration, with the number of its text and its place. Offsets are counted by hand.

use crate::packages::rows::Row;

pub(crate) static STATEMENTS: [Row; 9] = [
    (
        &["package a:b; import f: func();"],
        &[],
        "0 other statement 20+1",
    ),
    (&["package a:b; let x = y;"], &[], "0 other statement 17+1"),
    (
        &["package a:b; interface i { } export i;"],
        &[],
        "0 other statement 36+1",
    ),
    (
        &["package a:b targets c:d/w; let x = y;"],
        &[],
        "0 targets 20+5",
    ),
    (
        &["package a:b;", "package c:d; import f: func();"],
        &[],
        "1 other statement 20+1",
    ),
    // Of several the first one is named.
    (
        &["package a:b; type t = u8; export x; import f: func();"],
        &[],
        "0 other statement 33+1",
    ),
    // An export's expression ends with its last access.
    (
        &["package a:b; export x.y[\"z\"];"],
        &[],
        "0 other statement 20+8",
    ),
    (
        &["package a:b; let x = new c:d { };"],
        &[],
        "0 other statement 17+1",
    ),
    // A target's path has its version.
    (
        &["package a:b targets c:d/w@1.0.0; world w { }"],
        &[],
        "0 targets 20+11",
    ),
];

pub(crate) static TEXTS: [Row; 12] = [
    (&["package a:b; interface i {"], &[], "0 syntax 24+1"),
    (&[""], &[], "0 syntax 0+1"),
    // The first of two declarations of a name is named by the second.
    (
        &["package a:b; type t = u8; type t = u8;"],
        &[],
        "0 resolution 31+1",
    ),
    (
        &["package a:b; interface i { use j.{t}; }"],
        &[],
        "0 resolution 31+1",
    ),
    (
        &["package a:b@1.0.0; world v { }"],
        &[("a:b@1.0.0", "w")],
        "0 no such world 8+9",
    ),
    (
        &["package a:b; interface w { }"],
        &[("a:b", "w")],
        "0 no such world 8+3",
    ),
    // A world that other packages have is none of this one.
    (
        &["package a:b; world w { }", "package c:d;"],
        &[("c:d", "w")],
        "1 no such world 8+3",
    ),
    (
        &["package a:b; type w = u8;"],
        &[("a:b", "w")],
        "0 no such world 8+3",
    ),
    (
        &[
            "package c:d;",
            "package a:b@1.0.0;",
            "package a:b@1.0.0; world w { }",
        ],
        &[],
        "2 declared twice 8+9",
    ),
    // A faulty text declares its package too.
    (
        &["package a:b; import f: func();", "package a:b;"],
        &[],
        "0 other statement 20+1",
    ),
    // The text's own error precedes that it is declared twice.
    (
        &["package a:b;", "package a:b; import f: func();"],
        &[],
        "1 other statement 20+1",
    ),
    (
        &["package a:b;", "package a:b;", "package a:b;"],
        &[],
        "1 declared twice 8+3",
    ),
];

pub(crate) static MENTIONS: [Row; 9] = [
    (
        &["package a:b; world w { import c:d/i@1.0.0; }"],
        &[],
        "0 unknown package 30+3",
    ),
    (
        &[
            "package a:b; world w { import c:d/i@1.0.0; }",
            "package c:d@1.0.1; interface i { }",
        ],
        &[],
        "0 unknown package 30+3",
    ),
    // A key without a version is none with one.
    (
        &[
            "package a:b; world w { import c:d/i; }",
            "package c:d@1.0.0; interface i { }",
        ],
        &[],
        "0 unknown package 30+3",
    ),
    // Of several the first mention is named.
    (
        &["package a:b; interface i { use c:d/j.{t}; use e:f/k.{u}; }"],
        &[],
        "0 unknown package 31+3",
    ),
    (
        &[
            "package a:b; interface i { use c:d/j.{t}; }",
            "package c:d; interface j { use a:b/i.{t}; }",
        ],
        &[],
        "0 cycle 31+3",
    ),
    (
        &[
            "package a:b@1.0.0; interface i { use c:d/j.{t}; }",
            "package c:d; interface j { use a:b/i@1.0.0.{t}; }",
        ],
        &[],
        "0 cycle 37+3",
    ),
    // The mention that goes on in the cycle is named, and none before it.
    (
        &[
            "package e:f; interface k { type t = u8; }",
            "package a:b; interface i { use e:f/k.{t}; use c:d/j.{u}; }",
            "package c:d; interface j { use a:b/i.{u}; }",
        ],
        &[],
        "1 cycle 46+3",
    ),
    (
        &[
            "package e:f; interface k { use a:b/i.{t}; }",
            "package a:b; interface i { use c:d/j.{t}; }",
            "package c:d; interface j { use a:b/i.{t}; }",
        ],
        &[],
        "1 cycle 31+3",
    ),
    (
        &[
            "package a:b; world w { import c:d/i; }",
            "package c:d; interface j { }",
        ],
        &[],
        "0 resolution 34+1",
    ),
];
