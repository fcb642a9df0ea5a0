//! Where what a document names of packages is declared.
use serde_json::Value;
use std::alloc::{AllocError, Global};
use wac_lsp::{Document, Server};
use wac_lsp_folders::uri_of_path;
use wac_lsp_workspace::{Declaration, Seen};
use wac_positions::Place;

/// The name of the document that declares something: its client's, where it is open.
fn uri_of(alloc: Global, declaration: &Declaration<'_>) -> Result<String, AllocError> {
    match declaration.uri {
        Some(uri) => String::from_str(alloc, uri),
        None => uri_of_path(alloc, declaration.path),
    }
}

/// The place of a declaration as a value.
fn location(
    alloc: Global,
    server: &Server,
    declaration: &Declaration<'_>,
) -> Result<Value, AllocError> {
    let uri = uri_of(alloc, declaration)?;
    server.location(alloc, uri.as_str(), declaration.text, declaration.span)
}

/// Where what a document names at a place is declared, if a document of the folders declares it.
pub(crate) fn declared_at(
    alloc: Global,
    server: &Server,
    seen: Seen<'_>,
    document: &Document,
    place: Place,
) -> Result<Option<Value>, AllocError> {
    let offset = server.offset_in(alloc, document.text(), place)?;
    match seen.declaration_at(alloc, document.text(), offset) {
        Ok(Some(declaration)) => Ok(Some(location(alloc, server, &declaration)?)),
        Ok(None) => Ok(None),
        Err(_) => Err(AllocError),
    }
}
