//! Tests of `wac_completion`: which kinds of tokens, and which names, can stand at an offset.

pub(crate) mod foreign;
pub(crate) mod kinds;
pub(crate) mod names;
mod outside;
pub(crate) mod packages;
mod statements;
mod types;
mod worlds;

use crate::asked::{Question, first_other};
use std::process::Abort;
use std::test::Fail;

#[test]
fn these_can_stand_at_places(rt: HostRuntime) -> Result<(), Fail> {
    for (question, rows) in [
        (Question::Kinds, statements::STATEMENTS.as_slice()),
        (Question::Kinds, types::TYPES.as_slice()),
        (Question::Kinds, worlds::WORLDS.as_slice()),
        (Question::Kinds, outside::OUTSIDE.as_slice()),
        (Question::Names, names::NAMES.as_slice()),
        (Question::Completions, names::COMPLETIONS.as_slice()),
        (Question::Foreign, foreign::FOREIGN.as_slice()),
        (Question::Package, packages::PACKAGES.as_slice()),
    ] {
        if let Some(found) = first_other(rt.alloc(), question, rows)? {
            panic!(rt; "{found}");
        }
    }
    Ok(())
}

#[test]
fn deep_texts_have_no_kinds(rt: HostRuntime) -> Result<(), Fail> {
    let brackets = "(".repeat(rt.alloc(), 1001)?;
    let text = format!(in rt.alloc(); "package a:b; let x = {brackets}")?;
    let found = kinds::line_at(rt.alloc(), text.as_str(), text.len())?;
    assert!(rt; found.is_empty(), "{found}");
    Ok(())
}
