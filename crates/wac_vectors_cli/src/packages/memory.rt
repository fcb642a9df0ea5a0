//! Declaring where a request for memory fails: it ends well whichever request `rt try --test --fail-alloc N` makes fail.

use crate::packages::shown::{all_declared, declared};
use std::alloc::AllocError;
use std::test::Fail;

/// Whether what was found is one of these, or memory ran out.
fn is_either(found: Result<String, AllocError>, expected: &str, other: &str) -> bool {
    match found {
        Ok(found) => found.as_str() == expected || found.as_str() == other,
        Err(_) => true,
    }
}

const TEXTS: [&str; 2] = [
    "package a:b; world w { import c:d/i@1.0.0; }",
    "package c:d@1.0.0; interface i { type t = u8; f: func(x: t); }",
];

#[test]
fn packages_are_made_or_memory_runs_out(rt: HostRuntime) {
    let found = declared(rt.alloc(), &TEXTS, &[("a:b", "w")]);
    assert!(rt; is_either(found, "c:d@1.0.0 a:b ", "0 memory"));
}

#[test]
fn faults_are_found_or_memory_runs_out(rt: HostRuntime) {
    let found = all_declared(rt.alloc(), &[TEXTS[0], "package a:b;"]);
    let expected = "| 1 declared twice 8+3 0 unknown package 30+3";
    assert!(rt; is_either(found, expected, expected));
}
