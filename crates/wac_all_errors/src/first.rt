//! The first error of a text.
ghost use Rattle.std.specs.Prelude.{IfOk};
ghost use Rattle.wac_all_errors.specs.Telling.{SaysSame};

use crate::codes::is_fault;
use crate::finding::{Finding, diagnostic_of, hint_of, with_hint};
use crate::resolving::with_name_hint;
use std::alloc::{AllocError, Global};
use wac_diagnostics::Diagnostic;
use wac_recovery::{Attempt, Fault, fault_at, first_round};

/// The first error, and what is tried after it.
#[derive(Drop)]
pub(crate) struct First {
    pub(crate) finding: Finding,
    /// The text without the statement of the error: nothing where nothing can be blanked, where the text is a document, or
    /// where no later error is asked for.
    pub(crate) next: Option<Attempt>,
}

/// The first error of a text, which is known, with its hint. What is tried then is made unless it is the last.
pub(crate) fn first_of(
    alloc: Global,
    text: &str,
    known: Diagnostic,
    is_last: bool,
) -> Result<First, AllocError>
    ensures { IfOk result (λ first. SaysSame known first.finding.diagnostic) }
{
    if !is_fault(known.code) {
        return with_rule(alloc, text, known);
    }
    match fault_of(alloc, text, &known) {
        Ok(Some(fault)) => with_fault(alloc, text, known, fault, is_last),
        Ok(None) => with_rule(alloc, text, known),
        Err(_) => Err(AllocError),
    }
}

/// The fault of a text that a diagnostic tells of. That of the statement alone is mostly the same, and then the text needs
/// no second parse.
fn fault_of(alloc: Global, text: &str, known: &Diagnostic) -> Result<Option<Fault>, AllocError> {
    match alone_of(alloc, text, known)? {
        Some(fault) => Ok(Some(fault)),
        None => whole_of(alloc, text),
    }
}

/// The fault of the statement in which a diagnostic lies, when it stands alone, if that says the same.
fn alone_of(alloc: Global, text: &str, known: &Diagnostic) -> Result<Option<Fault>, AllocError> {
    let Some(span) = known.span else {
        return Ok(None);
    };
    let Some(fault) = fault_at(alloc, text, span.offset())? else {
        return Ok(None);
    };
    if says_same(alloc, &fault, known)? {
        Ok(Some(fault))
    } else {
        Ok(None)
    }
}

/// Whether what is said of a fault is what a diagnostic says.
fn says_same(alloc: Global, fault: &Fault, known: &Diagnostic) -> Result<bool, AllocError> {
    let said = diagnostic_of(alloc, fault)?;
    Ok(said.code == known.code && said.message.as_str() == known.message.as_str())
}

/// What is wrong with a text first: nothing where it is a document.
fn whole_of(alloc: Global, text: &str) -> Result<Option<Fault>, AllocError> {
    let attempt = Attempt::new(alloc, text)?;
    match first_round(alloc, &attempt)? {
        Some(round) => Ok(Some(round.fault)),
        None => Ok(None),
    }
}

/// What is tried after a fault of a text: nothing where no later error is asked for.
fn next_of(
    alloc: Global,
    text: &str,
    fault: &Fault,
    is_last: bool,
) -> Result<Option<Attempt>, AllocError> {
    if is_last {
        return Ok(None);
    }
    let attempt = Attempt::new(alloc, text)?;
    attempt.next(alloc, fault.span().offset())
}

/// The first error of a text that has this fault first.
fn with_fault(
    alloc: Global,
    text: &str,
    known: Diagnostic,
    fault: Fault,
    is_last: bool,
) -> Result<First, AllocError>
    ensures { IfOk result (λ first. SaysSame known first.finding.diagnostic) }
{
    let next = match next_of(alloc, text, &fault, is_last) {
        Ok(next) => next,
        Err(_) => return Err(AllocError),
    };
    match hint_of(alloc, text, &fault) {
        Ok(hint) => Ok(First {
            finding: with_hint(known, hint),
            next,
        }),
        Err(_) => Err(AllocError),
    }
}

/// The first error of a document.
fn with_rule(alloc: Global, text: &str, known: Diagnostic) -> Result<First, AllocError>
    ensures { IfOk result (λ first. SaysSame known first.finding.diagnostic) }
{
    match with_name_hint(alloc, text, known) {
        Ok(finding) => Ok(First {
            finding,
            next: None,
        }),
        Err(_) => Err(AllocError),
    }
}
