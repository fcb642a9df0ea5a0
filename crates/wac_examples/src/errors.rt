//! Reporting what is wrong with a text.

ghost use Rattle.std.specs.Prelude.{◌≡◌, ◌↔◌, IfOk, None, alloc_error};
ghost use Rattle.wac_parser.specs.declared.Error.TheVariants.{Memory};
ghost use Rattle.wac_examples.specs.Documents.{IsDocument};

use std::alloc::{AllocError, Global};
use wac_parser::lexer::SourceSpan;
use wac_parser::{Document, Error};

/// Where a text stops being a document, and why. `None` where it is one.
pub fn first_error(alloc: Global, source: &str) -> Result<Option<(SourceSpan, String)>, AllocError>
    ensures { IfOk result (λ found. (found ≡ None) ↔ IsDocument source.now) }
{
    match Document::parse(alloc, source) {
        Ok(_) => Ok(None),
        Err(error) => match place_of(&error) {
            Some(span) => Ok(Some((span, error.to_string(alloc)?))),
            None => Err(AllocError),
        },
    }
}

/// Where an error lies: nowhere where memory ran out.
pub(crate) fn place_of(error: &Error) -> Option<SourceSpan>
    ensures { error.now ≡ Memory alloc_error → result ≡ None }
{
    match error {
        Error::Lexer { span, .. }
        | Error::Expected { span, .. }
        | Error::ExpectedEither { span, .. }
        | Error::ExpectedMultiple { span, .. }
        | Error::EmptyType { span, .. }
        | Error::InvalidVersion { span, .. } => Some(*span),
        Error::Memory(_) => None,
    }
}
