//! Diagnostics of the errors of resolving.
ghost use Rattle.std.specs.Prelude.{◌≢◌, IfOk, alloc_error};
ghost use Rattle.wac_resolution_errors.specs.ErrorModel.{error_model};
ghost use Rattle.wac_resolution_errors.specs.declared.error.Error.TheVariants.{Memory};
ghost use Rattle.wac_first_error.specs.Diagnostics.{IsOfResolving};

use crate::resolution_codes::resolution_code;
use std::alloc::{AllocError, Global};
use wac_diagnostics::{Diagnostic, Note, Severity};
use wac_lexer::SourceSpan;
use wac_resolution_errors::Error;

/// What is said of a document that breaks a rule, with its help and the earlier place that it tells of. The error is
/// that memory ran out, also where the document's error says so.
pub fn resolution_diagnostic(alloc: Global, error: &Error) -> Result<Diagnostic, AllocError>
    ensures says { IfOk result (λ diagnostic. IsOfResolving (error_model error.now) diagnostic) }
    ensures memory { IfOk result (λ diagnostic. error.now ≢ Memory alloc_error) }
{
    if let Error::Memory(_) = error {
        return Err(AllocError);
    }
    let message = format!(in alloc; "{error}")?;
    let help = owned_help(alloc, error)?;
    let notes = notes_of(alloc, error)?;
    Ok(Diagnostic {
        severity: Severity::Error,
        code: resolution_code(error),
        message,
        span: error.span(),
        help,
        notes,
    })
}

/// What can be done about an error, as a text of its own.
fn owned_help(alloc: Global, error: &Error) -> Result<Option<String>, AllocError> {
    match help_for(error) {
        Some(help) => Ok(Some(String::from_str(alloc, help)?)),
        None => Ok(None),
    }
}

/// The earlier place that an error tells of, as a note.
fn notes_of(alloc: Global, error: &Error) -> Result<Vec<Note>, AllocError> {
    let mut notes = Vec::new(alloc);
    if let Some((message, span)) = earlier_place(error) {
        let message = String::from_str(alloc, message)?;
        notes.push(Note { message, span })?;
    }
    Ok(notes)
}

/// What can be done about an error, where it says so.
fn help_for(error: &Error) -> Option<&'static str> {
    match error {
        Error::WorldIncludeConflict { help, .. }
        | Error::ExportConflict { help, .. }
        | Error::DuplicateExternName { help, .. }
        | Error::UseConflict { help, .. } => *help,
        _ => None,
    }
}

/// The earlier place that an error tells of, and what is there.
fn earlier_place(error: &Error) -> Option<(&'static str, SourceSpan)> {
    match error {
        Error::DuplicateName { previous, .. } => Some(("it is defined here", *previous)),
        Error::DeclarationConflict { export, .. } => Some(("it is exported here", *export)),
        Error::ExportConflict { definition, .. } => Some(("it is defined here", *definition)),
        Error::DuplicateExternName { previous, .. } => Some(("it is first here", *previous)),
        _ => None,
    }
}
