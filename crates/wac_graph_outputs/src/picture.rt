//! What is shown of a graph.

use crate::rows::{NodeRow, row};
use indexmap::IndexMap;
use std::alloc::{AllocError, Global};
use wac_graph::CompositionGraph;
use wac_lexer::SourceSpan;

/// What is shown of a graph: its nodes, by number, and what it exports.
#[derive(Debug, Drop)]
pub struct Picture {
    pub nodes: Vec<NodeRow>,
    /// The exported names in order, each with the number of its node.
    pub exports: Vec<(String, usize)>,
}

impl Picture {
    /// What is shown of a graph, of a document that binds names in these places.
    pub fn of(
        alloc: Global,
        graph: &CompositionGraph,
        places: &IndexMap<String, SourceSpan>,
    ) -> Result<Picture, AllocError> {
        let nodes = rows_of(alloc, graph, places)?;
        let exports = exports_of(alloc, graph)?;
        Ok(Picture { nodes, exports })
    }
}

/// What is shown of each node.
fn rows_of(
    alloc: Global,
    graph: &CompositionGraph,
    places: &IndexMap<String, SourceSpan>,
) -> Result<Vec<NodeRow>, AllocError> {
    let mut rows = Vec::new(alloc);
    for id in graph.nodes() {
        rows.push(row(alloc, graph, id, places)?)?;
    }
    Ok(rows)
}

/// What a graph exports.
fn exports_of(alloc: Global, graph: &CompositionGraph) -> Result<Vec<(String, usize)>, AllocError> {
    let mut exports = Vec::new(alloc);
    for (name, node) in graph.exports() {
        exports.push((String::from_str(alloc, name)?, node.0))?;
    }
    Ok(exports)
}
