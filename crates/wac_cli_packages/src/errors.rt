// What is said of documents and of JSON that can't be written.
use std::alloc::{AllocError, Global};
use wac_component_reading::{NOT_EXPRESSIBLE, TOO_LARGE};
use wac_components_documents::DocumentsError;
use wac_components_json::JsonError;
use wac_diagnostics::{Diagnostic, Severity};

/// What is said of documents that can't be written.
pub(crate) fn documents_diagnostic(
    alloc: Global,
    error: DocumentsError,
) -> Result<Diagnostic, AllocError> {
    let code = match error {
        DocumentsError::Name => "wac::no-package-name",
        DocumentsError::TooLarge => TOO_LARGE,
        DocumentsError::Memory => return Err(AllocError),
    };
    let message = format!(in alloc; "{error}")?;
    Ok(Diagnostic::without_place(code, message))
}

/// What is said of JSON that can't be written.
pub(crate) fn json_diagnostic(alloc: Global, error: JsonError) -> Result<Diagnostic, AllocError> {
    match error {
        JsonError::TooLarge => {
            let message = format!(in alloc; "{error}")?;
            Ok(Diagnostic::without_place(TOO_LARGE, message))
        }
        JsonError::Memory => Err(AllocError),
    }
}

/// That WAC can't say something.
pub(crate) fn warning(alloc: Global, text: &str) -> Result<Diagnostic, AllocError> {
    let message = String::from_str(alloc, text)?;
    let mut diagnostic = Diagnostic::without_place(NOT_EXPRESSIBLE, message);
    diagnostic.severity = Severity::Warning;
    Ok(diagnostic)
}
