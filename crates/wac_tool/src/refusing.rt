//! What is returned for a source that has no tree.
ghost use Rattle.std.specs.Prelude.{◌≡◌};
ghost use Rattle.wac_ast_base.specs.Error.{told_by};
ghost use Rattle.wac_tool.specs.Running.{place_of, IsRefusal};

use crate::error::RunError;
use std::alloc::{AllocError, Global};
use wac_lexer::SourceSpan;

/// Where an error lies.
fn place_of(error: &wac_ast::Error) -> Option<SourceSpan>
    ensures { result ≡ place_of (told_by error.now) }
{
    match error {
        wac_ast::Error::Lexer { span, .. }
        | wac_ast::Error::Expected { span, .. }
        | wac_ast::Error::ExpectedEither { span, .. }
        | wac_ast::Error::ExpectedMultiple { span, .. }
        | wac_ast::Error::EmptyType { span, .. }
        | wac_ast::Error::InvalidVersion { span, .. } => Some(*span),
        wac_ast::Error::Memory(_) => None,
    }
}

/// What is returned for a source that has no tree.
pub(crate) fn refusal(alloc: Global, error: wac_ast::Error) -> RunError
    ensures { IsRefusal error result }
{
    match error {
        wac_ast::Error::Memory(_) => RunError::Memory(AllocError),
        error => {
            let span = place_of(&error);
            match format!(in alloc; "{error}") {
                Ok(text) => RunError::Refused { span, text },
                Err(_) => RunError::Memory(AllocError),
            }
        }
    }
}
