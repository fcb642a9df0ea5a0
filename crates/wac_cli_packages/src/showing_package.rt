// `wacx package`.
ghost use Rattle.std.specs.Prelude.{◌≡◌};

use crate::errors::{documents_diagnostic, json_diagnostic, warning};
use crate::requests::{PackageForm, PackageRequest};
use std::alloc::{AllocError, Global};
use std::io::Write;
use wac_cli_console::{Action, Console, Outcome, Report, SourceFile, Status};
use wac_component_reading::{STEPS, decode_diagnostic};
use wac_components::{Decoded, Limits, decode};
use wac_components_documents::{Documents, documents_of};
use wac_components_json::to_json;
use wac_diagnostics::Diagnostic;
use wac_excerpts::push_escaped;
use wac_files::FileSystem;

/// What is shown of a component: a text, with a warning for each thing that it can't say; or what is wrong.
#[derive(Drop)]
enum Shown {
    Text(String, Vec<Diagnostic>),
    Rejected(Diagnostic),
}

/// Writes the package of a component to the output: the documents that declare it, or what is decoded, as JSON. What is
/// wrong, and what the documents can't say, is written to the errors; then the status is 1.
pub fn show_package<F: FileSystem, O: Write + Drop, E: Write + Drop>(
    alloc: Global,
    files: &mut F,
    console: &mut Console<O, E>,
    request: PackageRequest<'_>,
) -> Status
    // No file is replaced.
    ensures { F.replaced files.new ≡ F.replaced files.old }
{
    let status = match files.read(alloc, request.path) {
        Ok(bytes) => show_bytes(alloc, console, request, bytes.as_slice()),
        Err(error) => Ok(
            console
                .failed(alloc, Report::Human, request.path, error)
                .status(Action::Check),
        ),
    };
    match status {
        Ok(status) => console.end(alloc, status),
        Err(AllocError) => console.out_of_memory(),
    }
}

/// Writes the package of bytes, or what is wrong with them.
fn show_bytes<O: Write + Drop, E: Write + Drop>(
    alloc: Global,
    console: &mut Console<O, E>,
    request: PackageRequest<'_>,
    bytes: &[u8],
) -> Result<Status, AllocError> {
    match shown_bytes(alloc, bytes, request)? {
        Shown::Text(text, warnings) => {
            console.write(text.as_bytes());
            warn(alloc, console, request.path, warnings.as_slice())
        }
        Shown::Rejected(diagnostic) => {
            let file = SourceFile {
                path: request.path,
                text: b"",
            };
            console.report(alloc, Report::Human, &file, &diagnostic)?;
            Ok(Outcome::Rejected.status(Action::Check))
        }
    }
}

/// Writes warnings. The status is 1 where there are any.
fn warn<O: Write + Drop, E: Write + Drop>(
    alloc: Global,
    console: &mut Console<O, E>,
    path: &str,
    warnings: &[Diagnostic],
) -> Result<Status, AllocError> {
    let mut status = Status::Well;
    let file = SourceFile { path, text: b"" };
    for diagnostic in warnings {
        console.report(alloc, Report::Human, &file, diagnostic)?;
        status = Status::Wrong;
    }
    Ok(status)
}

/// What is shown of bytes.
fn shown_bytes(
    alloc: Global,
    bytes: &[u8],
    request: PackageRequest<'_>,
) -> Result<Shown, AllocError> {
    match decode(alloc, bytes, Limits::for_length(bytes.len())) {
        Ok(decoded) => shown_component(alloc, &decoded, request),
        Err(error) => Ok(Shown::Rejected(decode_diagnostic(alloc, error)?)),
    }
}

/// What is shown of a decoded component.
fn shown_component(
    alloc: Global,
    decoded: &Decoded,
    request: PackageRequest<'_>,
) -> Result<Shown, AllocError> {
    match request.form {
        PackageForm::Wac => shown_documents(alloc, decoded, request.name),
        PackageForm::Json => shown_json(alloc, decoded),
    }
}

/// What is decoded, as JSON, with the end of the line, and an escape for what a terminal could take for a command.
fn shown_json(alloc: Global, decoded: &Decoded) -> Result<Shown, AllocError> {
    match to_json(alloc, decoded, STEPS) {
        Ok(value) => {
            let mut line = String::new(alloc);
            push_escaped(&mut line, value.as_str())?;
            line.push('\n')?;
            Ok(Shown::Text(line, Vec::new(alloc)))
        }
        Err(error) => Ok(Shown::Rejected(json_diagnostic(alloc, error)?)),
    }
}

/// The documents, with what they can't say.
fn shown_documents(
    alloc: Global,
    decoded: &Decoded,
    name: Option<&str>,
) -> Result<Shown, AllocError> {
    match documents_of(alloc, decoded, name, STEPS) {
        Ok(documents) => {
            let text = joined(alloc, &documents)?;
            Ok(Shown::Text(text, warnings_of(alloc, &documents)?))
        }
        Err(error) => Ok(Shown::Rejected(documents_diagnostic(alloc, error)?)),
    }
}

/// The texts of documents, with an empty line between two.
fn joined(alloc: Global, documents: &Documents) -> Result<String, AllocError> {
    let mut text = String::new(alloc);
    for document in &documents.documents {
        if !text.is_empty() {
            text.push('\n')?;
        }
        text.push_str(document.text.as_str())?;
    }
    Ok(text)
}

/// A warning for each thing that documents can't say.
fn warnings_of(alloc: Global, documents: &Documents) -> Result<Vec<Diagnostic>, AllocError> {
    let mut warnings = Vec::with_capacity(alloc, documents.warnings.len())?;
    for text in &documents.warnings {
        warnings.push(warning(alloc, text.as_str())?)?;
    }
    Ok(warnings)
}
