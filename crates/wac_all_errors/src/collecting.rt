//! The errors of bytes.
ghost use Rattle.std.specs.Prelude.{◌≡◌, ◌+◌, ◌<◌, ◌≤◌, ◌∷◌, IfOk, length};
ghost use Rattle.wac_all_errors.specs.Telling.{BeginsWith, IsTold};

use crate::finding::{Finding, finding_of};
use crate::first::{First, first_of};
use crate::resolving::broken_rule;
use std::alloc::{AllocError, Global};
use wac_diagnostics::Diagnostic;
use wac_first_error::{Reading, Verdict, first_error, read_text};
use wac_recovery::{Attempt, Round, first_round};

/// The errors of what a file holds, at most so many, in the order in which they are found.
///
/// The first is that of `first_error`. Bytes that aren't UTF-8 and a byte order mark are told alone. Otherwise the faults
/// of the text follow, each after the statements of those before it were blanked. Where `resolve` asks for it, the last
/// is the first rule that what is left breaks, unless it mentions foreign packages. A name that a blanked statement
/// declares isn't told as an unknown one, and none is in a text with a rejected character. The error is that memory ran
/// out.
///
/// It takes the time of a parse for each fault, and of two more unless only one is asked for.
pub fn all_errors(
    alloc: Global,
    bytes: &[u8],
    resolve: bool,
    limit: usize,
) -> Result<Vec<Finding>, AllocError>
    // Nothing is told of bytes in which nothing is wrong, and of others what is wrong with them first.
    ensures told { IfOk result (λ found. 0 < limit → IsTold bytes.now resolve found.items) }
    ensures most { IfOk result (λ found. length found.items ≤ limit) }
{
    if limit == 0 {
        return Ok(Vec::new(alloc));
    }
    match first_error(alloc, bytes, resolve) {
        Ok(Verdict::Document(_)) => Ok(Vec::new(alloc)),
        Ok(Verdict::Unresolved(_)) => Ok(Vec::new(alloc)),
        Ok(Verdict::Rejected(known)) => errors_from(alloc, bytes, known, resolve, limit),
        Err(_) => Err(AllocError),
    }
}

/// The errors of bytes of which the first is known.
fn errors_from(
    alloc: Global,
    bytes: &[u8],
    known: Diagnostic,
    resolve: bool,
    limit: usize,
) -> Result<Vec<Finding>, AllocError>
    requires { 0 < limit }
    ensures begins { IfOk result (λ found. BeginsWith known found.items) }
    ensures most { IfOk result (λ found. length found.items ≤ limit) }
{
    match read_text(alloc, bytes) {
        Ok(Reading::Text(text)) => errors_of(alloc, text, known, resolve, limit),
        Ok(Reading::Rejected(_)) => error_alone(alloc, known),
        Err(_) => Err(AllocError),
    }
}

/// An error that is told alone.
fn error_alone(alloc: Global, known: Diagnostic) -> Result<Vec<Finding>, AllocError>
    ensures begins { IfOk result (λ found. BeginsWith known found.items) }
    ensures most { IfOk result (λ found. length found.items ≤ 1) }
{
    let finding = Finding {
        diagnostic: known,
        edit: None,
    };
    put_first(finding, Vec::new(alloc))
}

/// A finding, and others after it.
fn put_first(finding: Finding, others: Vec<Finding>) -> Result<Vec<Finding>, AllocError>
    ensures { IfOk result (λ found. found.items ≡ finding ∷ others.items) }
{
    let mut found = others;
    match found.insert(0, finding) {
        Ok(()) => Ok(found),
        Err(_) => Err(AllocError),
    }
}

/// The errors of a text of which the first is known.
fn errors_of(
    alloc: Global,
    text: &str,
    known: Diagnostic,
    resolve: bool,
    limit: usize,
) -> Result<Vec<Finding>, AllocError>
    requires { 0 < limit }
    ensures begins { IfOk result (λ found. BeginsWith known found.items) }
    ensures most { IfOk result (λ found. length found.items ≤ limit) }
{
    match first_of(alloc, text, known, limit == 1) {
        Ok(First { finding, next }) => match later_errors(alloc, text, next, resolve, limit - 1) {
            Ok(later) => put_first(finding, later),
            Err(_) => Err(AllocError),
        },
        Err(_) => Err(AllocError),
    }
}

/// The errors of a text after the first, of which the statement is blanked in this attempt.
fn later_errors(
    alloc: Global,
    text: &str,
    next: Option<Attempt>,
    resolve: bool,
    limit: usize,
) -> Result<Vec<Finding>, AllocError>
    ensures { IfOk result (λ found. length found.items ≤ limit) }
{
    let Some(attempt) = next else {
        return Ok(Vec::new(alloc));
    };
    let mut found = Vec::new(alloc);
    match faults_of(alloc, attempt, limit, &mut found) {
        Ok(Some(left)) => {
            if resolve && found.len() < limit {
                with_rule(alloc, text, &left, found)
            } else {
                Ok(found)
            }
        }
        Ok(None) => Ok(found),
        Err(_) => Err(AllocError),
    }
}

/// Adds the faults of an attempt and of those after it, at most so many. Returns the last attempt where it is a document.
fn faults_of(
    alloc: Global,
    attempt: Attempt,
    limit: usize,
    found: &mut Vec<Finding>,
) -> Result<Option<Attempt>, AllocError>
    ensures { IfOk result (λ _. length found.new.items ≤ length found.old.items + limit) }
{
    let mut attempt = attempt;
    for _count in 0..limit {
        let Some(round) = first_round(alloc, &attempt)? else {
            return Ok(Some(attempt));
        };
        let Round { fault, next } = round;
        found.push(finding_of(alloc, attempt.source(), &fault)?)?;
        match next {
            Some(next) => attempt = next,
            None => return Ok(None),
        }
    }
    Ok(None)
}

/// The rule that what is left of a text breaks, after what was found.
fn with_rule(
    alloc: Global,
    text: &str,
    left: &Attempt,
    found: Vec<Finding>,
) -> Result<Vec<Finding>, AllocError>
    ensures { IfOk result (λ all. length all.items ≤ length found.items + 1) }
{
    let mut found = found;
    match broken_rule(alloc, text, left) {
        Ok(Some(finding)) => match found.push(finding) {
            Ok(()) => Ok(found),
            Err(_) => Err(AllocError),
        },
        Ok(None) => Ok(found),
        Err(_) => Err(AllocError),
    }
}
