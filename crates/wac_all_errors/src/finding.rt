//! Diagnostics with edits.
ghost use Rattle.wac_all_errors.specs.Telling.{SaysSame};

use std::alloc::{AllocError, Global};
use wac_diagnostics::Diagnostic;
use wac_first_error::{nested_too_deep, parse_diagnostic};
use wac_hints::{Edit, Hint, parse_hint};
use wac_recovery::Fault;

/// What is wrong with a text, and the change that mends it.
#[derive(Debug, Drop)]
pub struct Finding {
    /// What is wrong.
    pub diagnostic: Diagnostic,
    /// The change, where it is clear.
    pub edit: Option<Edit>,
}

/// A diagnostic with what a hint says as its help, where it has none.
pub(crate) fn with_hint(diagnostic: Diagnostic, hint: Option<Hint>) -> Finding
    ensures { SaysSame diagnostic result.diagnostic }
{
    match hint {
        Some(Hint { message, edit }) => Finding {
            diagnostic: with_help(diagnostic, message),
            edit,
        },
        None => Finding {
            diagnostic,
            edit: None,
        },
    }
}

/// A diagnostic with a help, where it has none.
fn with_help(diagnostic: Diagnostic, hint: String) -> Diagnostic
    ensures { SaysSame diagnostic result }
{
    let Diagnostic {
        severity,
        code,
        message,
        span,
        help,
        notes,
    } = diagnostic;
    Diagnostic {
        severity,
        code,
        message,
        span,
        help: Some(help_or(help, hint)),
        notes,
    }
}

/// A help, or else another one.
fn help_or(help: Option<String>, other: String) -> String {
    match help {
        Some(help) => help,
        None => other,
    }
}

/// What was probably meant where a source has this fault first.
pub(crate) fn hint_of(
    alloc: Global,
    source: &str,
    fault: &Fault,
) -> Result<Option<Hint>, AllocError> {
    match fault {
        Fault::Parse(error) => parse_hint(alloc, source, error),
        Fault::TooDeep(_) => Ok(None),
    }
}

/// A fault of a source, in which the statements of earlier ones are blanked.
pub(crate) fn finding_of(
    alloc: Global,
    source: &str,
    fault: &Fault,
) -> Result<Finding, AllocError> {
    let hint = hint_of(alloc, source, fault)?;
    match diagnostic_of(alloc, fault) {
        Ok(diagnostic) => Ok(with_hint(diagnostic, hint)),
        Err(_) => Err(AllocError),
    }
}

/// What is said of a fault.
pub(crate) fn diagnostic_of(alloc: Global, fault: &Fault) -> Result<Diagnostic, AllocError> {
    match fault {
        Fault::Parse(error) => parse_diagnostic(alloc, error),
        Fault::TooDeep(span) => nested_too_deep(alloc, *span),
    }
}
