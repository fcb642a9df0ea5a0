//! The documents of folders, as their files have them.
use crate::contents::DocumentFile;
use crate::sources::Source;
use crate::workspace::Workspace;
use std::alloc::{AllocError, Global};

/// A document of a folder, as its file has it.
#[derive(Clone, Copy)]
pub struct SavedDocument<'w> {
    pub path: &'w str,
    pub text: &'w str,
}

/// The documents that declare packages.
fn declarations_of<'w>(
    alloc: Global,
    sources: &'w [Source],
) -> Result<Vec<SavedDocument<'w>>, AllocError> {
    let mut saved = Vec::new(alloc);
    for source in sources {
        if let Some(text) = &source.saved {
            saved.push(SavedDocument {
                path: source.path.as_str(),
                text: text.as_str(),
            })?;
        }
    }
    Ok(saved)
}

/// Documents, and after them those that declare no package.
fn with_compositions<'w>(
    declarations: Vec<SavedDocument<'w>>,
    compositions: &'w [DocumentFile],
) -> Result<Vec<SavedDocument<'w>>, AllocError> {
    let mut saved = declarations;
    for document in compositions {
        saved.push(SavedDocument {
            path: document.path.as_str(),
            text: document.text.as_str(),
        })?;
    }
    Ok(saved)
}

/// The documents of folders, those that declare packages first.
fn documents_of<'w>(
    alloc: Global,
    sources: &'w [Source],
    compositions: &'w [DocumentFile],
) -> Result<Vec<SavedDocument<'w>>, AllocError> {
    let declarations = declarations_of(alloc, sources)?;
    with_compositions(declarations, compositions)
}

impl Workspace {
    /// The documents of the folders as their files have them, be they open or not, those that declare packages first.
    pub fn saved_documents(&self, alloc: Global) -> Result<Vec<SavedDocument<'_>>, AllocError> {
        documents_of(alloc, self.sources(), self.compositions())
    }
}
