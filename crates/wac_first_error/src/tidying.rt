//! Diagnostics of the errors of tidying.
use crate::parsing::parse_diagnostic;
use crate::reading::nested_too_deep;
use std::alloc::{AllocError, Global};
use wac_comments::TidyError;
use wac_diagnostics::Diagnostic;

/// What is said of a text that could not be tidied. The error is that memory ran out.
pub fn tidy_diagnostic(alloc: Global, error: &TidyError) -> Result<Diagnostic, AllocError> {
    match error {
        TidyError::Parse(error) => parse_diagnostic(alloc, error),
        TidyError::NestedTooDeep { span } => nested_too_deep(alloc, *span),
        TidyError::NotKept => {
            let message = String::from_str(alloc, "the comments could not be kept")?;
            Ok(Diagnostic::without_place("wac::not-kept", message))
        }
        TidyError::Memory(_) => Err(AllocError),
    }
}
