//! All faults of a text.
ghost use Rattle.std.specs.Prelude.{◌≡◌, ◌≤◌, ◌<◌, ◌↔◌, [], IfOk, length};
ghost use Rattle.wac_recovery.specs.Attempts.{attempt_of};
ghost use Rattle.wac_recovery.specs.Faults.{IsFaultless};
ghost use Rattle.wac_recovery.specs.Recovered.{IsFirstRound, IsRecovery, left_of};

use crate::attempt::Attempt;
use crate::fault::{Fault, first_fault};
use std::alloc::{AllocError, Global};

/// The faults of a text, and what is left of it.
#[derive(Drop)]
pub struct Recovery {
    /// What is wrong with the text first, and then, each time, with what is left of it. Places are in bytes of the text.
    pub faults: Vec<Fault>,
    /// The text with the statements of these faults blanked: each of their bytes but line ends became a blank. It begins
    /// with a directive of 12 bytes where the text's own was blanked.
    pub text: String,
    /// How many bytes at the beginning of `text` the source doesn't have.
    pub skip: usize,
}

/// A fault, and what is tried after it.
#[derive(Drop)]
pub struct Round {
    /// The fault, at its place in the source.
    pub fault: Fault,
    /// The attempt without the statement in which it lies, or nothing where there is nothing to blank.
    pub next: Option<Attempt>,
}

/// What is wrong with an attempt first, if something is. The error is that memory ran out.
pub fn first_round(alloc: Global, attempt: &Attempt) -> Result<Option<Round>, AllocError>
    ensures { IfOk result (λ found. IsFirstRound (attempt_of attempt.now) found) }
{
    match first_fault(alloc, attempt.text.as_str()) {
        Ok(Some(fault)) => match attempt.next(alloc, fault.span().offset()) {
            Ok(next) => Ok(Some(Round {
                fault: fault.moved_back(attempt.skip),
                next,
            })),
            Err(_) => Err(AllocError),
        },
        Ok(None) => Ok(None),
        Err(_) => Err(AllocError),
    }
}

/// The faults of a text: at most so many, and none where the text is a document.
///
/// The first is the text's first error. Then the statement in which it lies is blanked, each of its bytes but line ends
/// by a blank, and the first error of the text that is left is the second, and so on. A statement ends at the first `;`
/// outside braces; a declaration ends at the brace that closes its first one; and what begins with no keyword of a
/// statement ends at that brace too, where no `;` follows. Where neither comes, it goes to the end of the text. A
/// character that no text may have is blanked alone. Where the directive is blanked or missing, another one stands in
/// for it.
///
/// It takes the memory of two copies of the text and a parse of it, and the time of a parse for each fault. The error is
/// that memory ran out.
pub fn recover(alloc: Global, source: &str, limit: usize) -> Result<Recovery, AllocError>
    ensures faults { IfOk result (λ recovery. IsRecovery source.now limit recovery) }
    ensures none { IfOk result (λ recovery. 0 < limit → (recovery.faults.items ≡ []) ↔ IsFaultless source.now) }
    ensures most { IfOk result (λ recovery. length recovery.faults.items ≤ limit) }
{
    match find_faults(alloc, source, limit) {
        Ok(recovery) => Ok(recovery),
        Err(_) => Err(AllocError),
    }
}

/// The faults of a text: at most so many.
fn find_faults(alloc: Global, source: &str, limit: usize) -> Result<Recovery, AllocError>
    ensures { IfOk result (λ recovery. IsRecovery source.now limit recovery) }
{
    let mut faults = Vec::new(alloc);
    let mut attempt = Attempt::new(alloc, source)?;
    for _count in 0..limit {
        let Some(round) = first_round(alloc, &attempt)? else {
            return Ok(recovery_of(faults, attempt));
        };
        let Round { fault, next } = round;
        faults.push(fault)?;
        match next {
            Some(next) => attempt = next,
            None => return Ok(recovery_of(faults, attempt)),
        }
    }
    Ok(recovery_of(faults, attempt))
}

/// These faults, and an attempt as what is left.
fn recovery_of(faults: Vec<Fault>, attempt: Attempt) -> Recovery
    ensures faults { result.faults.items ≡ faults.items }
    ensures left { left_of result ≡ attempt_of attempt }
{
    let Attempt { text, skip } = attempt;
    Recovery { faults, text, skip }
}
