//! What a composition still asks for.

use crate::picture::Picture;
use crate::rows::NodeRow;
use indexmap::IndexMap;
use std::alloc::{AllocError, Global};

/// An import of a composition: explicit, or left open by instances.
#[derive(Debug, Drop)]
pub struct OpenImport {
    /// The words for its kind.
    pub kind: &'static str,
    /// Whether a statement imports it.
    pub is_explicit: bool,
    /// The numbers of the nodes that ask for it.
    pub by: Vec<usize>,
}

/// Notes that a node asks for a name.
fn note(
    alloc: Global,
    imports: &mut IndexMap<String, OpenImport>,
    name: &str,
    import: OpenImport,
) -> Result<(), AllocError> {
    if let Some(noted) = imports.get_mut(name) {
        noted.is_explicit = noted.is_explicit || import.is_explicit;
        return Ok(noted.by.extend_from_slice(import.by.as_slice())?);
    }
    imports.insert(String::from_str(alloc, name)?, import)?;
    Ok(())
}

/// An import that one node asks for.
fn asked(
    alloc: Global,
    kind: &'static str,
    is_explicit: bool,
    node: usize,
) -> Result<OpenImport, AllocError> {
    let mut by = Vec::new(alloc);
    by.push(node)?;
    Ok(OpenImport {
        kind,
        is_explicit,
        by,
    })
}

/// Notes what a node asks for.
fn note_row(
    alloc: Global,
    imports: &mut IndexMap<String, OpenImport>,
    row: &NodeRow,
    node: usize,
) -> Result<(), AllocError> {
    if let Some(name) = &row.import {
        note(
            alloc,
            imports,
            name.as_str(),
            asked(alloc, row.item, true, node)?,
        )?;
    }
    for (name, kind) in row.open.as_slice() {
        note(
            alloc,
            imports,
            name.as_str(),
            asked(alloc, *kind, false, node)?,
        )?;
    }
    Ok(())
}

/// What a composition still asks for, by name and in order of the nodes.
pub fn open_imports(
    alloc: Global,
    picture: &Picture,
) -> Result<IndexMap<String, OpenImport>, AllocError> {
    let mut imports = IndexMap::new(alloc);
    for (node, row) in picture.nodes.as_slice().iter().enumerate() {
        note_row(alloc, &mut imports, row, node)?;
    }
    Ok(imports)
}
