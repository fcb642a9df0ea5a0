//! Chains of types that name the one before twice: comparing them ends at once, since pairs that fit are remembered, and
//! so does finding where they differ.

use crate::building::{BYTE, CHAR, defined};
use crate::tables::{package_of, reads, told};
use std::alloc::{AllocError, Global};
use std::test::Fail;
use wac_graph_types::{DefinedType, ItemKind, Package, PackageError, Types, ValueType};

/// How many types a chain has.
const LENGTH: usize = 40;

/// A chain of types, each a pair of the one before.
fn chain(alloc: Global, types: &mut Types, first: ValueType) -> Result<ItemKind, AllocError> {
    let mut last = first;
    for _ in 0..LENGTH {
        let pair = vec![in alloc; last, last]?;
        last = defined(types, DefinedType::Tuple(pair))?;
    }
    Ok(ItemKind::Value(last))
}

/// A package of two chains from `u8` and one from `char`.
fn chains(alloc: Global) -> Result<Package, PackageError> {
    let mut types = Types::new(alloc);
    let bytes = chain(alloc, &mut types, BYTE)?;
    let others = chain(alloc, &mut types, BYTE)?;
    let chars = chain(alloc, &mut types, CHAR)?;
    package_of(alloc, types, &[bytes, others, chars])
}

/// A path through the first element of each pair, and what is at its end.
fn first_elements(alloc: Global, end: &str) -> Result<String, AllocError> {
    let mut text = String::from_str(alloc, "at element 0")?;
    for _ in 1..LENGTH {
        text.push_str(", element 0")?;
    }
    text.push_str(end)?;
    Ok(text)
}

/// Whether a chain differs from another one at its far end alone, as a text says.
fn differ_at_the_end(
    alloc: Global,
    package: &Package,
    a: &str,
    b: &str,
    end: &str,
) -> Result<bool, AllocError> {
    let wanted = first_elements(alloc, end)?;
    let found = told(alloc, package, a, b)?;
    Ok(reads(&found, wanted.as_str()))
}

#[test]
fn long_chains_end_at_once(rt: HostRuntime) -> Result<(), Fail> {
    let alloc = rt.alloc();
    match chains(alloc) {
        Err(_) => assert!(rt; false, "the chains make no package"),
        Ok(package) => {
            let found = told(alloc, &package, "k0", "k1")?;
            assert!(rt; reads(&found, ""));
            let bytes = differ_at_the_end(
                alloc,
                &package,
                "k0",
                "k2",
                ": expected char, found u8",
            )?;
            let chars = differ_at_the_end(
                alloc,
                &package,
                "k2",
                "k0",
                ": expected u8, found char",
            )?;
            assert!(rt; bytes && chars);
        }
    }
    Ok(())
}
