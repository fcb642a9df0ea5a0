//! Helps for arguments that don't fit.
ghost use Rattle.std.specs.Prelude.{◌<◌, length};
ghost use Rattle.wac_graph_types.specs.Table.{Names};

use crate::context::Context;
use crate::earlier::graph_after;
use std::alloc::{AllocError, Global};
use wac_component_rules::{Mismatch, mismatch};
use wac_graph::{CompositionGraph, ItemKind, NodeId, Type};
use wac_lexer::SourceSpan;

/// Where the argument of a name at a place differs from the import.
pub(crate) fn argument_help(
    alloc: Global,
    context: Context<'_>,
    name: &str,
    place: SourceSpan,
) -> Result<Option<String>, AllocError> {
    match graph_after(alloc, context, place)? {
        None => Ok(None),
        Some(graph) => first_mismatch(alloc, &graph, name),
    }
}

/// Where the first argument of a name that doesn't fit differs from the import.
fn first_mismatch(
    alloc: Global,
    graph: &CompositionGraph,
    name: &str,
) -> Result<Option<String>, AllocError> {
    for id in graph.nodes() {
        if let Some(help) = node_mismatch(alloc, graph, id, name)? {
            return Ok(Some(help));
        }
    }
    Ok(None)
}

/// Where the argument of a name of an instance differs from the import.
fn node_mismatch(
    alloc: Global,
    graph: &CompositionGraph,
    id: NodeId,
    name: &str,
) -> Result<Option<String>, AllocError>
    requires { id.0 < length graph.now.nodes }
{
    let Some(package) = graph.instance_of(id) else {
        return Ok(None);
    };
    let Some(value) = graph.argument(id, name) else {
        return Ok(None);
    };
    match graph.import_kind(package, name) {
        None => Ok(None),
        Some(expected) => compared(alloc, graph, graph.kind(value), expected),
    }
}

/// Where a kind differs from one that is expected, if it doesn't fit.
pub(crate) fn compared(
    alloc: Global,
    graph: &CompositionGraph,
    given: ItemKind,
    expected: ItemKind,
) -> Result<Option<String>, AllocError>
    requires given { Names graph.now.types given }
    requires expected { Names graph.now.types expected }
{
    match mismatch(alloc, graph.types(), given, expected) {
        Ok(None) => Ok(None),
        Ok(Some(found)) => Ok(Some(mismatch_text(alloc, given, &found)?)),
        Err(_) => Err(AllocError),
    }
}

/// Where a kind differs from one that is expected.
fn mismatch_text(
    alloc: Global,
    given: ItemKind,
    found: &Mismatch<'_>,
) -> Result<String, AllocError> {
    match given {
        ItemKind::Ty(Type::Interface(_)) => format!(in alloc;
            "{found}: an interface is a type, so import it, as in `import x: i;`, and give `x`"
        ),
        _ => format!(in alloc; "{found}"),
    }
}
