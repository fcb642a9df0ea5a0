//! What of a graph could be given for an import.
ghost use Rattle.std.specs.Prelude.{◌<◌, length};

use std::alloc::{AllocError, Global};
use wac_graph::{CompositionGraph, ItemKind, NodeId};
use wac_package_names::{are_compatible_names, compatible_name};

/// How what a graph has under a name, or under a compatible one, is given for an import of that name.
pub(crate) fn source_of(
    alloc: Global,
    graph: &CompositionGraph,
    name: &str,
) -> Result<Option<String>, AllocError> {
    for id in graph.nodes() {
        if let Some(found) = source_at(alloc, graph, id, name)? {
            return Ok(Some(found));
        }
    }
    Ok(None)
}

/// How a node, or what it exports, is given for an import of a name, if it can be by its name.
fn source_at(
    alloc: Global,
    graph: &CompositionGraph,
    id: NodeId,
    name: &str,
) -> Result<Option<String>, AllocError>
    requires { id.0 < length graph.now.nodes }
{
    let Some(bound) = graph.name(id) else {
        return Ok(None);
    };
    match graph.import_name(id) {
        Some(import) if import == name => {
            Ok(Some(format!(in alloc; "`{bound}` is the import of that name: give it")?))
        }
        Some(import) if are_compatible_names(import, name) => {
            Ok(Some(format!(in alloc; "{EXACTLY}: give `\"{name}\": {bound}`")?))
        }
        _ => export_at(alloc, graph, id, bound, name),
    }
}

/// That names match exactly.
pub(crate) const EXACTLY: &str =
    "names match exactly here, while other tools match compatible versions";

/// How what an instance exports is given for an import of a name.
fn export_at(
    alloc: Global,
    graph: &CompositionGraph,
    id: NodeId,
    bound: &str,
    name: &str,
) -> Result<Option<String>, AllocError>
    requires { id.0 < length graph.now.nodes }
{
    let ItemKind::Instance(_) = graph.kind(id) else {
        return Ok(None);
    };
    let Some(items) = graph.types().exports(graph.kind(id)) else {
        return Ok(None);
    };
    if items.contains_key(name) {
        return Ok(Some(format!(in alloc; "`{bound}` exports it: give `...{bound}`")?));
    }
    match compatible_name(items, name) {
        None => Ok(None),
        Some(other) => Ok(Some(compatible_argument(alloc, name, bound, other)?)),
    }
}

/// That names match exactly, and how an export under a compatible name is given.
pub(crate) fn compatible_argument(
    alloc: Global,
    import: &str,
    bound: &str,
    export: &str,
) -> Result<String, AllocError> {
    format!(in alloc; "{EXACTLY}: give `\"{import}\": {bound}[\"{export}\"]`")
}
