// The first error, as a line of JSON.
ghost use Rattle.std.specs.Prelude.{IfOk, true};
ghost use Rattle.wac_first_error.specs.Verdicts.{IsVerdict};
ghost use Rattle.wac_calls.specs.Errors.{IsLine, SaysErrors};

use crate::outcome::Outcome;
use std::alloc::{AllocError, Global};
use wac_diagnostics::{Diagnostic, json};
use wac_first_error::{Verdict, first_error};

/// The name that the line has in the place of a file's.
const NAME: &str = "<text>";

/// What asking for the first error of bytes comes to: a line, or no text where there is none.
pub(crate) fn first_errors(alloc: Global, bytes: &[u8]) -> Outcome
    ensures { SaysErrors bytes.now result }
{
    match first_error(alloc, bytes, true) {
        Ok(verdict) => judged(alloc, bytes, &verdict),
        Err(_) => Outcome::OutOfMemory,
    }
}

/// What is written of bytes with this verdict.
fn judged(alloc: Global, bytes: &[u8], verdict: &Verdict<'_>) -> Outcome
    requires { IsVerdict bytes.now true verdict.now }
    ensures { SaysErrors bytes.now result }
{
    match verdict {
        Verdict::Document(_) | Verdict::Unresolved(_) => Outcome::Written(Vec::new(alloc)),
        Verdict::Rejected(diagnostic) => match line_of(alloc, bytes, diagnostic) {
            Ok(line) => Outcome::Written(line.into_bytes()),
            Err(_) => Outcome::OutOfMemory,
        },
    }
}

/// A diagnostic of bytes as a line of JSON.
fn line_of(alloc: Global, bytes: &[u8], diagnostic: &Diagnostic) -> Result<String, AllocError>
    ensures { IfOk result IsLine }
{
    let mut line = json(alloc, NAME, bytes, diagnostic)?;
    line.push('\n')?;
    Ok(line)
}
