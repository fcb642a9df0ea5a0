//! What is said of what a document names of packages.
use serde_json::Value;
use std::alloc::{AllocError, Global};
use wac_lsp::{Document, Server};
use wac_lsp_workspace::Seen;
use wac_positions::Place;

/// What is said of what a document names at a place, if a package of the folders has it.
pub(crate) fn hovered_at(
    alloc: Global,
    server: &Server,
    seen: Seen<'_>,
    document: &Document,
    place: Place,
) -> Result<Option<Value>, AllocError> {
    let offset = server.offset_in(alloc, document.text(), place)?;
    match seen.described_at(alloc, document.text(), offset) {
        Ok(Some(found)) => server.declared_hover(
            alloc,
            document,
            found.at,
            (found.text, found.span),
        ),
        Ok(None) => Ok(None),
        Err(_) => Err(AllocError),
    }
}
