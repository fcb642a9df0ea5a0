//! Tests of `wac_lsp_outline`: what texts declare, and what of them can be folded.

mod details;
pub(crate) mod folds;
pub(crate) mod symbols;

use crate::asked::{Question, first_other};
use std::process::Abort;
use std::test::Fail;
use wac_lsp_outline::{in_one_line, outline};

#[test]
fn texts_have_these_parts(rt: HostRuntime) -> Result<(), Fail> {
    for (question, rows) in [
        (Question::Outline, symbols::STATEMENTS.as_slice()),
        (Question::Outline, symbols::BODIES.as_slice()),
        (Question::Outline, symbols::FAULTS.as_slice()),
        (Question::Folds, folds::FOLDS.as_slice()),
        (Question::OneLine, details::DETAILS.as_slice()),
    ] {
        if let Some(found) = first_other(rt.alloc(), question, rows)? {
            panic!(rt; "{found}");
        }
    }
    Ok(())
}

#[test]
fn deep_declarations_are_left_out(rt: HostRuntime) -> Result<(), Fail> {
    let text = "interface i { ".repeat(rt.alloc(), 100)?;
    let found = outline(rt.alloc(), text.as_str())?;
    assert!(rt; found.len() == 32);
    Ok(())
}

#[test]
fn long_parts_are_cut(rt: HostRuntime) -> Result<(), Fail> {
    let text = "u8,".repeat(rt.alloc(), 200)?;
    let shown = "u8,".repeat(rt.alloc(), 66)?;
    let found = in_one_line(rt.alloc(), text.as_str())?;
    assert!(rt;
        found.strip_prefix(shown.as_str()) == Some("u8 ..."),
        "{found}"
    );
    Ok(())
}
