// What is said of errors that the library below has diagnostics for.
ghost use Rattle.std.specs.Prelude.{◌≡◌};
ghost use Rattle.wac_ast_base.specs.Error.{told_by};
ghost use Rattle.wac_calls.specs.Rejecting.{IsOfError};

use crate::outcome::Outcome;
use std::alloc::Global;
use wac_ast_base::Error;
use wac_diagnostics::Diagnostic;
use wac_first_error::parse_diagnostic;

/// What a word comes to that rejects a text for an error of parsing.
pub(crate) fn unparsed(alloc: Global, error: &Error) -> Outcome
    ensures { IsOfError (told_by error.now) result }
{
    match parse_diagnostic(alloc, error) {
        Ok(diagnostic) => rejected(diagnostic),
        Err(_) => Outcome::OutOfMemory,
    }
}

/// What a word comes to that rejects a text with this diagnostic. Its code, its help and its notes are dropped.
pub(crate) fn rejected(diagnostic: Diagnostic) -> Outcome
    ensures { result ≡ Outcome.Rejected diagnostic.span diagnostic.message }
{
    let Diagnostic { span, message, .. } = diagnostic;
    Outcome::Rejected { span, message }
}
