//! Faults of statements that stand alone.
ghost use Rattle.std.specs.Prelude.{◌≡◌, IfOk, option_map};
ghost use Rattle.wac_lexer.specs.Reading.{Slices};
ghost use Rattle.wac_recovery.specs.Alone.{IsFirstAfter, IsFoundAt, at_place};
ghost use Rattle.wac_recovery.specs.Faults.{wrong_of};

use crate::attempt::STAND_IN;
use crate::blanked::blanked;
use crate::fault::{Fault, first_fault};
use crate::statements::part_at;
use std::alloc::{AllocError, Global};
use wac_lexer::SourceSpan;

/// A fault, if it lies at a place.
fn at_place(fault: Fault, place: usize) -> Option<Fault>
    ensures { option_map wrong_of result ≡ at_place place (Some (wrong_of fault)) }
{
    if fault.span().offset() == place {
        Some(fault)
    } else {
        None
    }
}

/// What is wrong first with a source from a part of it on, after a directive that stands in.
#[tactic(auto, using(crate::proofs::Standing::before, crate::proofs::Standing::after))]
fn fault_after(alloc: Global, source: &str, part: SourceSpan) -> Result<Option<Fault>, AllocError>
    requires { Slices source.now part }
    ensures { IfOk result (λ found. IsFirstAfter source.now part.offset (option_map wrong_of found)) }
{
    let text = blanked(alloc, STAND_IN, source, SourceSpan::new(0, part.offset()))?;
    match first_fault(alloc, text.as_str()) {
        Ok(Some(fault)) => Ok(Some(fault.moved_back(STAND_IN.len()))),
        Ok(None) => Ok(None),
        Err(_) => Err(AllocError),
    }
}

/// The fault at a place of a source, if the statement there has one there when it follows a directive and nothing else.
/// Where the source's first fault is known to lie at the place, this is mostly that one, and takes no second parse of what
/// is before it. The error is that memory ran out.
///
/// ```text
/// fault_at(alloc, "package a:b; let = c; export d;", 17)?      // at 17+1: expected identifier, found `=`
/// ```
#[tactic(auto, using(crate::proofs::Standing::nothing_there))]
pub fn fault_at(alloc: Global, source: &str, place: usize) -> Result<Option<Fault>, AllocError>
    // What is wrong first with the source when all before its part at the place is blanked, if that lies at the place.
    ensures { IfOk result (λ found. IsFoundAt source.now place (option_map wrong_of found)) }
{
    let Some(part) = part_at(source, place) else {
        return Ok(None);
    };
    match fault_after(alloc, source, part.span) {
        Ok(Some(fault)) => Ok(at_place(fault, place)),
        Ok(None) => Ok(None),
        Err(_) => Err(AllocError),
    }
}
