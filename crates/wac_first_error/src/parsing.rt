//! Diagnostics of the errors of parsing.
ghost use Rattle.std.specs.Prelude.{◌≡◌, ◌≢◌, IfOk};
ghost use Rattle.wac_ast_base.specs.Error.{told_by, no_memory};
ghost use Rattle.wac_first_error.specs.Diagnostics.{place_of, IsOfParsing};

use crate::parsing_codes::parse_code;
use std::alloc::{AllocError, Global};
use wac_ast_base::Error;
use wac_diagnostics::Diagnostic;
use wac_lexer::SourceSpan;

/// What is said of a text that is no document. The error is that memory ran out, also where the text's error says so.
pub fn parse_diagnostic(alloc: Global, error: &Error) -> Result<Diagnostic, AllocError>
    ensures says { IfOk result (λ diagnostic. IsOfParsing (told_by error.now) diagnostic) }
    ensures memory { IfOk result (λ diagnostic. told_by error.now ≢ no_memory) }
{
    let Some(span) = place_of(error) else {
        return Err(AllocError);
    };
    let message = format!(in alloc; "{error}")?;
    let mut diagnostic = Diagnostic::at(parse_code(error), message, span);
    if let Some(help) = help_for(error) {
        diagnostic.help = Some(String::from_str(alloc, help)?);
    }
    Ok(diagnostic)
}

/// Where an error lies: nowhere where memory ran out.
fn place_of(error: &Error) -> Option<SourceSpan>
    ensures { result ≡ place_of (told_by error.now) }
{
    match error {
        Error::Lexer { span, .. }
        | Error::Expected { span, .. }
        | Error::ExpectedEither { span, .. }
        | Error::ExpectedMultiple { span, .. }
        | Error::EmptyType { span, .. }
        | Error::InvalidVersion { span, .. } => Some(*span),
        Error::Memory(_) => None,
    }
}

/// What can be done about an error, where that is clear.
fn help_for(error: &Error) -> Option<&'static str> {
    match error {
        Error::Lexer { error, .. } => lexer_help(error),
        Error::InvalidVersion { .. } => Some("a version has three numbers, as in `1.2.3`"),
        _ => None,
    }
}

fn lexer_help(error: &wac_lexer::Error) -> Option<&'static str> {
    match error {
        wac_lexer::Error::UnterminatedString => Some("end the string with `\"`"),
        wac_lexer::Error::UnterminatedComment => Some(
            "end the comment with `*/`; a comment within it needs one of its own",
        ),
        wac_lexer::Error::DisallowedBidirectionalOverride(_) => Some(
            "remove it: it makes a text look other than it is",
        ),
        wac_lexer::Error::DisallowedControlCode(_) => Some("remove it"),
        _ => None,
    }
}
