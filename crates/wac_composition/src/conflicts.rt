//! Imports that instances leave open in vain: an encoder has to import each name once.
ghost use Rattle.std.specs.Prelude.{◌<◌, IfSome, length};
ghost use Rattle.wac_graph_types.specs.Table.{Names};

use crate::finding::warning;
use indexmap::IndexMap;
use std::alloc::{AllocError, Global};
use wac_component_rules::internals::fitting;
use wac_diagnostics::Diagnostic;
use wac_graph::{CompositionGraph, ItemKind, NodeId};
use wac_lexer::SourceSpan;

/// Appends a warning for each import that an instance leaves open in vain.
pub(crate) fn push_conflicts(
    alloc: Global,
    found: &mut Vec<Diagnostic>,
    graph: &CompositionGraph,
    places: &IndexMap<String, SourceSpan>,
) -> Result<(), AllocError> {
    for id in graph.nodes() {
        push_node(alloc, found, graph, places, id)?;
    }
    Ok(())
}

/// The place of the name that is bound to a node.
fn place_of(
    graph: &CompositionGraph,
    places: &IndexMap<String, SourceSpan>,
    id: NodeId,
) -> Option<SourceSpan>
    requires { id.0 < length graph.now.nodes }
{
    match graph.name(id) {
        None => None,
        Some(name) => places.get(name).copied(),
    }
}

/// What an instance's package imports. Other nodes have no imports.
fn imports_of(graph: &CompositionGraph, id: NodeId) -> Option<&IndexMap<String, ItemKind>>
    requires { id.0 < length graph.now.nodes }
{
    match graph.instance_of(id) {
        None => None,
        Some(package) => graph.types().imports(graph.package(package).world),
    }
}

/// Appends a warning for each import that a node leaves open in vain.
fn push_node(
    alloc: Global,
    found: &mut Vec<Diagnostic>,
    graph: &CompositionGraph,
    places: &IndexMap<String, SourceSpan>,
    id: NodeId,
) -> Result<(), AllocError>
    requires { id.0 < length graph.now.nodes }
{
    let Some(imports) = imports_of(graph, id) else {
        return Ok(());
    };
    for (name, _) in imports.iter() {
        if let Some(message) = conflict(alloc, graph, id, name.as_str())? {
            found.push(warning("wac::import-conflict", message, place_of(graph, places, id)))?;
        }
    }
    Ok(())
}

/// The kind of an import that a node leaves open under a name.
fn open_kind(graph: &CompositionGraph, id: NodeId, name: &str) -> Option<ItemKind>
    requires { id.0 < length graph.now.nodes }
    ensures { IfSome result (Names graph.now.types) }
{
    match graph.instance_of(id) {
        None => None,
        Some(package) => match graph.argument(id, name) {
            Some(_) => None,
            None => graph.import_kind(package, name),
        },
    }
}

/// Why the import that a node leaves open under a name is in vain.
fn conflict(
    alloc: Global,
    graph: &CompositionGraph,
    id: NodeId,
    name: &str,
) -> Result<Option<String>, AllocError>
    requires { id.0 < length graph.now.nodes }
{
    let Some(kind) = open_kind(graph, id, name) else {
        return Ok(None);
    };
    if graph.get_import(name).is_some() {
        return Ok(Some(format!(in alloc;
            "`{name}` is left open beside an import of that name, which an encoder refuses"
        )?));
    }
    if has_other(alloc, graph, id, name, kind) {
        return Ok(Some(format!(in alloc;
            "`{name}` is left open twice, and neither kind fits the other, which an encoder refuses"
        )?));
    }
    Ok(None)
}

/// Whether an earlier node leaves a name open whose kind doesn't fit, either way.
fn has_other(
    alloc: Global,
    graph: &CompositionGraph,
    id: NodeId,
    name: &str,
    kind: ItemKind,
) -> bool
    requires { Names graph.now.types kind }
{
    for other in graph.nodes() {
        if other.0 < id.0 {
            if let Some(earlier) = open_kind(graph, other, name) {
                if !fit(alloc, graph, earlier, kind) {
                    return true;
                }
            }
        }
    }
    false
}

/// Whether one of two kinds may stand where the other is expected.
fn fit(alloc: Global, graph: &CompositionGraph, a: ItemKind, b: ItemKind) -> bool
    requires first { Names graph.now.types a }
    requires second { Names graph.now.types b }
{
    let entries = graph.types().entries();
    fitting(alloc, entries, a, b) || fitting(alloc, entries, b, a)
}
