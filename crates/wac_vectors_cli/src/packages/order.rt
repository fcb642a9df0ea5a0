//! Texts in any order: each package is made after those that it mentions.

use crate::packages::rows::Row;

const LOW: &str = "package a:low; interface i { type t = u8; }";

const MIDDLE: &str = "package a:middle; interface j { use a:low/i.{t}; }";

const HIGH: &str = "package a:high; world w { import a:middle/j; import a:low/i; }";

pub(crate) static ORDERS: [Row; 11] = [
    (&[], &[], ""),
    (&["package a:b;"], &[], "a:b "),
    (&[LOW, MIDDLE, HIGH], &[], "a:low a:middle a:high "),
    (&[HIGH, MIDDLE, LOW], &[], "a:low a:middle a:high "),
    (&[MIDDLE, HIGH, LOW], &[], "a:low a:middle a:high "),
    (&[HIGH, LOW, MIDDLE], &[], "a:low a:middle a:high "),
    // Of those that are ready the first is made first.
    (
        &["package c:d;", HIGH, "package a:b;", LOW, MIDDLE],
        &[],
        "c:d a:b a:low a:middle a:high ",
    ),
    // Versions make packages of their own.
    (
        &[
            "package a:b@1.0.0;",
            "package a:b;",
            "package a:b@1.0.0-rc.1;",
        ],
        &[],
        "a:b@1.0.0 a:b a:b@1.0.0-rc.1 ",
    ),
    (
        &[
            "package c:d; interface j { use a:b/i@1.0.0.{t}; }",
            "package a:b@2.0.0; interface i { use c:d/j.{t}; }",
            "package a:b@1.0.0; interface i { type t = u8; }",
        ],
        &[],
        "a:b@1.0.0 c:d a:b@2.0.0 ",
    ),
    (
        &[
            "package a:b; world w { include c:d/v; }",
            "package c:d; world v { }",
        ],
        &[],
        "c:d a:b ",
    ),
    (
        &[
            "package a:b@2.0.0; interface i { use a:b/i@1.0.0.{t}; }",
            "package a:b@1.0.0;",
        ],
        &[],
        "0 resolution 41+1",
    ),
];
