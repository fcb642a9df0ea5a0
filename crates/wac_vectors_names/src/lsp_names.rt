//! Tests of `wac_lsp_names`: where names are, what is said of them, and texts after a renaming.

mod after;
pub(crate) mod hovers;
pub(crate) mod places;
mod refused;
mod renamed;

use crate::asked::{Question, first_other};
use std::process::Abort;
use std::test::Fail;

#[test]
fn names_are_told(rt: HostRuntime) -> Result<(), Fail> {
    for (question, rows) in [
        (Question::Place, places::PLACES.as_slice()),
        (Question::Definition, places::DEFINITIONS.as_slice()),
        (Question::References, places::REFERENCES.as_slice()),
        (Question::Hover, hovers::HOVERS.as_slice()),
    ] {
        if let Some(found) = first_other(rt.alloc(), question, rows)? {
            panic!(rt; "{found}");
        }
    }
    Ok(())
}

#[test]
fn names_are_renamed(rt: HostRuntime) -> Result<(), Fail> {
    for rows in [
        renamed::STATEMENTS.as_slice(),
        renamed::DECLARATIONS.as_slice(),
    ] {
        if let Some(found) = after::first_other(rt.alloc(), rows)? {
            panic!(rt; "{found}");
        }
    }
    if let Some(found) = after::first_allowed(rt.alloc(), &refused::REFUSED)? {
        panic!(rt; "{found}");
    }
    Ok(())
}
