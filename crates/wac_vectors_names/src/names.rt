//! Tests of `wac_names`: which name is where, what binds it, and what scopes find.

pub(crate) mod bounds;
mod kinds;
pub(crate) mod offsets;

use crate::asked::{Question, first_other};
use std::process::Abort;
use std::test::Fail;

#[test]
fn documents_have_these_names(rt: HostRuntime) -> Result<(), Fail> {
    for (question, rows) in [
        (Question::Bound, offsets::BOUND.as_slice()),
        (Question::Used, offsets::USED.as_slice()),
        (Question::LookedUp, bounds::LOOKED_UP.as_slice()),
    ] {
        if let Some(found) = first_other(rt.alloc(), question, rows)? {
            panic!(rt; "{found}");
        }
    }
    if let Some(wrong) = kinds::fault(rt.alloc())? {
        panic!(rt; "{wrong}");
    }
    Ok(())
}
