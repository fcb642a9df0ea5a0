//! Components as texts that declare packages.
use std::alloc::{AllocError, Global};
use wac_component_reading::STEPS;
use wac_components::{Decoded, ErrorKind, Limits, decode};
use wac_components_documents::{Documents, DocumentsError, documents_of};
use wac_graph::PackageKey;
use wac_package_names::key_named;

/// A text that declares what a component has of a package.
#[derive(Drop)]
pub(crate) struct ShownPackage {
    pub(crate) key: PackageKey,
    pub(crate) text: String,
}

/// The texts of documents, each with the key of its package.
fn shown(alloc: Global, documents: &Documents) -> Result<Vec<ShownPackage>, AllocError> {
    let mut all = Vec::new(alloc);
    for document in &documents.documents {
        let key = key_named(alloc, document.package.as_str())?;
        let text = String::from_str(alloc, document.text.as_str())?;
        all.push(ShownPackage { key, text })?;
    }
    Ok(all)
}

/// The same of a decoded component.
fn shown_decoded(
    alloc: Global,
    decoded: &Decoded,
    key: &str,
) -> Result<Vec<ShownPackage>, AllocError> {
    match documents_of(alloc, decoded, Some(key), STEPS) {
        Ok(documents) => shown(alloc, &documents),
        Err(DocumentsError::Memory) => Err(AllocError),
        Err(_) => Ok(Vec::new(alloc)),
    }
}

/// The texts that `wacx package` shows of the component of a package, one for each package of which it says something:
/// none where its bytes have an error.
pub(crate) fn shown_packages(
    alloc: Global,
    bytes: &[u8],
    key: &str,
) -> Result<Vec<ShownPackage>, AllocError> {
    match decode(alloc, bytes, Limits::for_length(bytes.len())) {
        Ok(decoded) => shown_decoded(alloc, &decoded, key),
        Err(error) if error.kind == ErrorKind::Memory => Err(AllocError),
        Err(_) => Ok(Vec::new(alloc)),
    }
}
