//! Pairs that seeds determine: the rules say of each what the definition says, and the laws hold of them.

use crate::choices::Choices;
use crate::definition::Known;
use crate::kinds::{COUNT, generate, known_pairs};
use crate::tables::{NAMES, fits, package};
use std::alloc::{AllocError, Global};
use std::process::Abort;
use std::test::Fail;
use wac_graph_types::Package;

/// How many tables are made.
const TABLES: u64 = 14;

/// Whether the rules say of each pair with this kind what the definition says.
fn are_as_known(
    alloc: Global,
    package: &Package,
    known: &Known,
    a: usize,
) -> Result<bool, AllocError> {
    for b in 0..COUNT {
        if fits(alloc, package, NAMES[a % COUNT], NAMES[b])? != Some(known.has(a, b)) {
            return Ok(false);
        }
    }
    Ok(true)
}

/// Whether a kind fits each kind that another one fits, which it fits itself.
fn leads_on(known: &Known, a: usize, b: usize) -> bool {
    for c in 0..COUNT {
        if known.has(a, b) && known.has(b, c) && !known.has(a, c) {
            return false;
        }
    }
    true
}

/// Whether a kind fits itself, and leads on by way of each kind.
fn keeps_the_laws(known: &Known, a: usize) -> bool {
    for b in 0..COUNT {
        if !leads_on(known, a, b) {
            return false;
        }
    }
    known.has(a, a)
}

/// How many pairs of a table fit.
fn table(rt: &impl Abort, alloc: Global, seed: u64) -> Result<usize, AllocError> {
    let mut choices = Choices::new(seed);
    let kinds = generate(alloc, &mut choices)?;
    let known = known_pairs(alloc, kinds.as_slice())?;
    match package(alloc, &mut choices, kinds.as_slice()) {
        Err(_) => assert!(rt; false, "the kinds of {seed} make no package"),
        Ok(package) => {
            for a in 0..COUNT {
                let alike = are_as_known(alloc, &package, &known, a)?;
                assert!(rt; alike, "{a} of {seed}: the rules say otherwise");
                assert!(rt; keeps_the_laws(&known, a), "{a} of {seed}: a law is broken");
            }
        }
    }
    Ok(known.count())
}

#[test]
fn generated_pairs(rt: HostRuntime) -> Result<(), Fail> {
    let mut count = 0_usize;
    for seed in 0..TABLES {
        count = count.wrapping_add(table(&rt, rt.alloc(), seed)?);
    }
    // Each kind fits itself, which 168 pairs show; others fit too.
    assert!(rt; 200 < count && count < 1000, "{count} pairs fit");
    Ok(())
}
