//! What many texts declare where some of them are faulty: each text has its first fault, and no other.

use crate::packages::rows::Row;

pub(crate) static FAULTY: [Row; 6] = [
    (&[], &[], "|"),
    // What mentions a faulty text has neither a package nor a fault.
    (
        &[
            "package a:b;",
            "package c:d; import f: func();",
            "package e:f; interface i { use c:d/j.{t}; }",
            "package g:h; world w { import e:f/i; }",
            "package k:l;",
        ],
        &[],
        "a:b k:l | 1 other statement 20+1",
    ),
    (
        &["", "package a:b;", "package c:d; type t = u;"],
        &[],
        "a:b | 0 syntax 0+1 2 resolution 22+1",
    ),
    // A text without a tree declares the package of its directive.
    (
        &[
            "package a:b; interface i {",
            "package a:b;",
            "package c:d; interface j { use a:b/i.{t}; }",
        ],
        &[],
        "| 0 syntax 24+1 1 declared twice 8+3",
    ),
    (
        &["/// x\npackage a:b; interface i {", "package a:b;"],
        &[],
        "| 0 syntax 30+1 1 declared twice 8+3",
    ),
    // A chosen world that isn't there, and a package that waits for its text.
    (
        &[
            "package c:d; interface j { use a:b/i.{t}; }",
            "package a:b targets e:f/w;",
            "package g:h; interface k { use c:d/j.{t}; use m:n/l.{t}; }",
        ],
        &[],
        "| 1 targets 20+5 2 unknown package 46+3",
    ),
];

pub(crate) static CYCLES: [Row; 3] = [
    // Two cycles, and a text that leads into one of them.
    (
        &[
            "package a:b; interface i { use c:d/j.{t}; }",
            "package c:d; interface j { use a:b/i.{t}; }",
            "package e:f; interface k { use g:h/l.{t}; }",
            "package g:h; interface l { use e:f/k.{t}; }",
            "package k:l; interface m { use a:b/i.{t}; }",
            "package m:n;",
        ],
        &[],
        "m:n | 0 cycle 31+3 2 cycle 31+3",
    ),
    // A cycle that waits for a faulty text too is reported once that text is mended.
    (
        &[
            "package a:b; interface i { use x:y/z.{t}; use c:d/j.{t}; }",
            "package c:d; interface j { use a:b/i.{t}; }",
        ],
        &[],
        "| 0 unknown package 31+3",
    ),
    // Four in a cycle, one of which mentions two of them.
    (
        &[
            "package a:d; interface i { use a:a/i.{t}; use a:c/i.{t}; }",
            "package a:c; interface i { use a:d/i.{t}; }",
            "package a:b; interface i { use a:c/i.{t}; }",
            "package a:a; interface i { use a:b/i.{t}; }",
        ],
        &[],
        "| 0 cycle 31+3",
    ),
];
