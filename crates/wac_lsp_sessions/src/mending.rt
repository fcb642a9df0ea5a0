//! Edits that mend what packages say is wrong with documents.
use serde_json::Value;
use std::alloc::{AllocError, Global};
use wac_lsp::{Document, Mend, Server};
use wac_lsp_folders::path_of_uri;
use wac_lsp_messages::Range;
use wac_lsp_workspace::{Mended, Workspace};

/// Edits as a server takes them.
fn mends_of(alloc: Global, found: Vec<Mended>) -> Result<Vec<Mend>, AllocError> {
    let mut mends = Vec::with_capacity(alloc, found.len())?;
    for mended in found {
        let Mended {
            diagnostic,
            title,
            span,
            text,
        } = mended;
        mends.push(Mend {
            diagnostic,
            title,
            span,
            text,
        })?;
    }
    Ok(mends)
}

/// The edits that mend a range of a document, if packages of the folders tell one.
pub(crate) fn mended_at(
    alloc: Global,
    server: &Server,
    workspace: &Workspace,
    document: &Document,
    range: Range,
) -> Result<Option<Value>, AllocError> {
    let Some(path) = path_of_uri(alloc, document.uri())? else {
        return Ok(None);
    };
    let found = workspace.mended(alloc, path.as_str(), document.text())?;
    if found.is_empty() {
        return Ok(None);
    }
    let mends = mends_of(alloc, found)?;
    let value = server.actions(alloc, document, range, mends.as_slice())?;
    Ok(Some(value))
}
