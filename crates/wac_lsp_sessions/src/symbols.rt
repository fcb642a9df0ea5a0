//! What open documents and those of folders declare.
use serde_json::Value;
use std::alloc::{AllocError, Global};
use wac_lsp::{Document, SavedText, Server};
use wac_lsp_folders::{path_of_uri, uri_of_path};
use wac_lsp_workspace::{SavedDocument, Workspace};

/// The paths of documents.
fn paths_of(alloc: Global, documents: &[Document]) -> Result<Vec<String>, AllocError> {
    let mut paths = Vec::new(alloc);
    for document in documents {
        if let Some(path) = path_of_uri(alloc, document.uri())? {
            paths.push(path)?;
        }
    }
    Ok(paths)
}

/// Whether a path is one of some.
fn is_among(paths: &[String], path: &str) -> bool {
    paths.iter().any(|other| other.as_str() == path)
}

/// The documents whose paths are none of those that are open, as a server takes them.
fn closed<'w>(
    alloc: Global,
    saved: &[SavedDocument<'w>],
    open: &[String],
) -> Result<Vec<SavedText<'w>>, AllocError> {
    let mut texts = Vec::new(alloc);
    for document in saved {
        if !is_among(open, document.path) {
            texts.push(SavedText {
                uri: uri_of_path(alloc, document.path)?,
                text: document.text,
            })?;
        }
    }
    Ok(texts)
}

/// What open documents declare under names that have a text in them, and those of the folders that aren't open.
pub(crate) fn symbols_named(
    alloc: Global,
    server: &Server,
    workspace: &Workspace,
    query: &str,
) -> Result<Value, AllocError> {
    let open = paths_of(alloc, server.documents())?;
    let saved = workspace.saved_documents(alloc)?;
    let texts = closed(alloc, saved.as_slice(), open.as_slice())?;
    server.symbols(alloc, query, texts.as_slice())
}
