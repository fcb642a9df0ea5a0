//! What is found in place of what rows expect.

use crate::packages::all::{CYCLES, FAULTY};
use crate::packages::errors::{MENTIONS as FAULTS_OF_MENTIONS, STATEMENTS, TEXTS};
use crate::packages::order::ORDERS;
use crate::packages::shown::{all_declared, declared, last_declared};
use crate::packages::worlds::{MENTIONS, WORLDS};
use std::alloc::{AllocError, Global};
use std::test::Fail;

/// Texts, chosen worlds, and what is expected.
pub(crate) type Row = (
    &'static [&'static str],
    &'static [(&'static str, &'static str)],
    &'static str,
);

/// What rows expect of what their texts declare.
#[derive(Clone, Copy)]
enum Shown {
    /// The keys of the packages in the order in which they are made, or the first fault.
    Keys,
    /// What the last package is, or the first fault.
    Last,
    /// The keys of the packages, and after a bar each fault.
    All,
}

/// What the texts of a row declare.
fn found(alloc: Global, shown: Shown, row: &Row) -> Result<String, AllocError> {
    let (texts, worlds, _) = row;
    match shown {
        Shown::Keys => declared(alloc, texts, worlds),
        Shown::Last => last_declared(alloc, texts, worlds),
        Shown::All => all_declared(alloc, texts),
    }
}

/// What was found in place of what a row expects, of each row where that differs.
fn differences(alloc: Global, shown: Shown, rows: &[Row]) -> Result<String, AllocError> {
    let mut all = String::new(alloc);
    for row in rows {
        let found = found(alloc, shown, row)?;
        if found.as_str() != row.2 {
            all.push_str(found.as_str())?;
            all.push('\n')?;
        }
    }
    Ok(all)
}

/// What was found of all rows that expect the same, in place of what they do.
fn all_differences(alloc: Global, shown: Shown, groups: &[&[Row]]) -> Result<String, AllocError> {
    let mut all = String::new(alloc);
    for rows in groups {
        let found = differences(alloc, shown, rows)?;
        all.push_str(found.as_str())?;
    }
    Ok(all)
}

#[test]
fn packages_are_made_in_order_or_the_first_fault_is_told(rt: HostRuntime) -> Result<(), Fail> {
    let groups: [&[Row]; 4] = [&STATEMENTS, &TEXTS, &FAULTS_OF_MENTIONS, &ORDERS];
    let found = all_differences(rt.alloc(), Shown::Keys, &groups)?;
    assert!(rt; found.is_empty(), "{found}");
    Ok(())
}

#[test]
fn packages_are_what_their_documents_declare(rt: HostRuntime) -> Result<(), Fail> {
    let groups: [&[Row]; 2] = [&WORLDS, &MENTIONS];
    let found = all_differences(rt.alloc(), Shown::Last, &groups)?;
    assert!(rt; found.is_empty(), "{found}");
    Ok(())
}

#[test]
fn each_fault_of_many_texts_is_told_once(rt: HostRuntime) -> Result<(), Fail> {
    let groups: [&[Row]; 2] = [&FAULTY, &CYCLES];
    let found = all_differences(rt.alloc(), Shown::All, &groups)?;
    assert!(rt; found.is_empty(), "{found}");
    Ok(())
}
