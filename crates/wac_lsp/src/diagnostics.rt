//! What is wrong with a document, as a notification.
use crate::members::put_member;
use crate::places::View;
use crate::questions::Subject;
use serde_json::{Value, json};
use std::alloc::{AllocError, Global};
use wac_all_errors::{Finding, all_errors};
use wac_diagnostics::{Diagnostic, Note, Severity};
use wac_lexer::SourceSpan;
use wac_lsp_messages::notification;

/// How many errors of a document are told, where it isn't long.
const MOST: usize = 100;

/// How many bytes are read again for the errors of a document, about.
const MOST_BYTES: usize = 1048576;

/// The notification that has the diagnostics of a document.
const PUBLISH: &str = "textDocument/publishDiagnostics";

/// What is told of a document of which a change was lost.
const LOST: &str =
    "a change of this document couldn't be read, so its text isn't known here; close it and open it anew";

/// A diagnostic, alone or with the edit that mends what it says.
pub(crate) trait HasDiagnostic {
    /// The diagnostic.
    fn diagnostic(&self) -> &Diagnostic;
}

impl HasDiagnostic for Diagnostic {
    fn diagnostic(&self) -> &Diagnostic {
        self
    }
}

impl HasDiagnostic for Finding {
    fn diagnostic(&self) -> &Diagnostic {
        &self.diagnostic
    }
}

/// How many errors of a text are told: fewer of long ones, since each costs a parse.
fn most_errors(text: &str) -> usize {
    match MOST_BYTES.checked_div(text.len()) {
        Some(count) => count.min(MOST).max(1),
        None => MOST,
    }
}

/// The errors of a text.
pub(crate) fn errors(alloc: Global, text: &str) -> Result<Vec<Finding>, AllocError> {
    all_errors(alloc, text.as_bytes(), true, most_errors(text))
}

/// The number of a severity.
fn severity_number(severity: Severity) -> u8 {
    match severity {
        Severity::Error => 1,
        Severity::Warning => 2,
    }
}

/// Another place that a diagnostic speaks of.
fn related(alloc: Global, view: &View<'_>, uri: &str, note: &Note) -> Result<Value, AllocError> {
    let range = view.span(alloc, note.span)?;
    let message = note.message.as_str();
    json!(in alloc; {"location": {"uri": uri, "range": range}, "message": message})
}

/// The other places that a diagnostic speaks of.
fn all_related(
    alloc: Global,
    view: &View<'_>,
    uri: &str,
    notes: &[Note],
) -> Result<Value, AllocError> {
    let mut all = Vec::new(alloc);
    for note in notes {
        all.push(related(alloc, view, uri, note)?)?;
    }
    Ok(Value::Array(all))
}

/// The message of a diagnostic, and its help on a line of its own.
fn message_of(alloc: Global, diagnostic: &Diagnostic) -> Result<String, AllocError> {
    let message = diagnostic.message.as_str();
    match &diagnostic.help {
        Some(help) => format!(in alloc; "{message}\n{help}"),
        None => String::from_str(alloc, message),
    }
}

/// The range of a diagnostic: the beginning of the text, where it has no place.
fn range_of(alloc: Global, view: &View<'_>, diagnostic: &Diagnostic) -> Result<Value, AllocError> {
    match diagnostic.span {
        Some(span) => view.span(alloc, span),
        None => view.span(alloc, SourceSpan::new(0, 0)),
    }
}

/// The place of a code on a page: a heading's anchor is its text without colons.
fn href_of(alloc: Global, page: &str, code: &str) -> Result<String, AllocError> {
    let mut href = format!(in alloc; "{page}#")?;
    for part in code.split(':') {
        href.push_str(part)?;
    }
    Ok(href)
}

/// Adds where the code of a diagnostic is explained.
fn put_description(
    alloc: Global,
    value: &mut Value,
    page: &str,
    code: &str,
) -> Result<(), AllocError> {
    let href = href_of(alloc, page, code)?;
    let description = json!(in alloc; {"href": href})?;
    put_member(alloc, value, "codeDescription", description)
}

/// A diagnostic as a value, but for what some clients alone take.
fn plain_value(
    alloc: Global,
    view: &View<'_>,
    diagnostic: &Diagnostic,
) -> Result<Value, AllocError> {
    let severity = severity_number(diagnostic.severity);
    let code = diagnostic.code;
    let message = message_of(alloc, diagnostic)?;
    let range = range_of(alloc, view, diagnostic)?;
    json!(in alloc; {
        "range": range,
        "severity": severity,
        "code": code,
        "source": "wac",
        "message": message
    })
}

/// A diagnostic as a value.
pub(crate) fn diagnostic_value(
    alloc: Global,
    view: &View<'_>,
    about: &Subject<'_>,
    diagnostic: &Diagnostic,
) -> Result<Value, AllocError> {
    let mut value = plain_value(alloc, view, diagnostic)?;
    if about.features.related_information {
        let related = all_related(alloc, view, about.uri, diagnostic.notes.as_slice())?;
        put_member(alloc, &mut value, "relatedInformation", related)?;
    }
    match about.errors_page {
        Some(page) if about.features.code_descriptions => {
            put_description(alloc, &mut value, page, diagnostic.code)?;
        }
        _ => {}
    }
    Ok(value)
}

/// Diagnostics as a value.
fn diagnostics_value<D: HasDiagnostic>(
    alloc: Global,
    about: &Subject<'_>,
    found: &[D],
) -> Result<Value, AllocError> {
    let view = View::new(alloc, about.text, about.unit)?;
    let mut all = Vec::new(alloc);
    for one in found {
        all.push(diagnostic_value(alloc, &view, about, one.diagnostic())?)?;
    }
    Ok(Value::Array(all))
}

/// The notification that tells the diagnostics of a document of this version, or of one that isn't told.
fn publication_of(
    alloc: Global,
    uri: &str,
    version: Option<i64>,
    diagnostics: Value,
) -> Result<String, AllocError> {
    let mut params = json!(in alloc; {"uri": uri, "diagnostics": diagnostics})?;
    if let Some(version) = version {
        put_member(alloc, &mut params, "version", Value::from(version))?;
    }
    notification(alloc, PUBLISH, params)
}

/// Diagnostics of a document, as a notification.
pub(crate) fn published_all<D: HasDiagnostic>(
    alloc: Global,
    about: &Subject<'_>,
    found: &[D],
) -> Result<String, AllocError> {
    let diagnostics = diagnostics_value(alloc, about, found)?;
    publication_of(alloc, about.uri, about.version, diagnostics)
}

/// That a change of a document was lost, as a notification: its text isn't known, so nothing else is told of it.
pub(crate) fn published_lost(alloc: Global, uri: &str) -> Result<String, AllocError> {
    let start = json!(in alloc; {"line": 0, "character": 0})?;
    let end = json!(in alloc; {"line": 0, "character": 0})?;
    let diagnostics = json!(in alloc; [{
        "range": {"start": start, "end": end},
        "severity": 1,
        "source": "wac",
        "message": LOST
    }])?;
    publication_of(alloc, uri, None, diagnostics)
}

/// What is told of a document.
#[derive(Drop)]
pub(crate) struct Publication {
    /// The notification.
    pub(crate) body: String,
    /// Whether it has an error of the text.
    pub(crate) is_faulty: bool,
}

/// The errors of a text, as a notification.
fn publication_of_errors(
    alloc: Global,
    about: &Subject<'_>,
    found: &[Finding],
) -> Result<Publication, AllocError> {
    Ok(Publication {
        body: published_all(alloc, about, found)?,
        is_faulty: !found.is_empty(),
    })
}

/// What is wrong with a document: with its text, unless a change of it was lost.
pub(crate) fn current_publication(
    alloc: Global,
    about: &Subject<'_>,
) -> Result<Publication, AllocError> {
    if about.version.is_none() {
        return Ok(Publication {
            body: published_lost(alloc, about.uri)?,
            is_faulty: false,
        });
    }
    match errors(alloc, about.text) {
        Ok(found) => publication_of_errors(alloc, about, found.as_slice()),
        Err(_) => Err(AllocError),
    }
}

/// What is wrong with a document, as a notification.
pub(crate) fn published(alloc: Global, about: &Subject<'_>) -> Result<String, AllocError> {
    let Publication { body, .. } = current_publication(alloc, about)?;
    Ok(body)
}

/// That a document that was closed has no diagnostics.
pub(crate) fn withdrawn(alloc: Global, uri: &str) -> Result<String, AllocError> {
    publication_of(alloc, uri, None, Value::Array(Vec::new(alloc)))
}
