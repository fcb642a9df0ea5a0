//! The definitions of a graph.
ghost use Rattle.std.specs.Prelude.{IfOk};
ghost use Rattle.wac_graph_types.specs.Names.{by_name};
ghost use Rattle.wac_declared_packages.specs.Definitions.{AreExported};

use indexmap::IndexMap;
use std::alloc::{AllocError, Global};
use wac_graph::CompositionGraph;
use wac_graph_types::ItemKind;
use wac_graph_types::names::push;

/// What a graph exports, by name and in order, each with its kind.
pub(crate) fn definitions_of(
    alloc: Global,
    graph: &CompositionGraph,
) -> Result<IndexMap<String, ItemKind>, AllocError>
    ensures { IfOk result (λ all. AreExported graph.now (by_name all.entries)) }
{
    // Its contract says that no name is exported twice.
    let _nodes = graph.nodes();
    let mut all = IndexMap::new(alloc);
    for (name, node) in graph.exports() {
        push(alloc, &mut all, name, graph.kind(node))?;
    }
    Ok(all)
}
