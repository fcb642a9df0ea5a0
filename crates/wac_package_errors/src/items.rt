//! What is denoted by an expression at a place, or by a path.
ghost use Rattle.std.specs.Prelude.{IfSome};
ghost use Rattle.wac_graph_types.specs.Table.{Names};

use crate::context::Context;
use crate::earlier::{graph_before, graph_of_all};
use indexmap::IndexMap;
use std::alloc::{AllocError, Global};
use wac_graph::{CompositionGraph, ItemKind, Type, WorldId};
use wac_lexer::SourceSpan;

/// The name under which a graph has the item that is looked for. A document that binds it gets no help.
const ITEM: &str = "the-item";

/// The graph of the statements before a place, with what an expression denotes there as its item.
pub(crate) fn graph_with_item(
    alloc: Global,
    context: Context<'_>,
    expression: &str,
    place: SourceSpan,
) -> Result<Option<CompositionGraph>, AllocError> {
    let more = format!(in alloc; "export {expression} as {ITEM};")?;
    graph_before(alloc, context, place, more.as_str())
}

/// The graph of the document, with the world of a path as its item.
pub(crate) fn graph_with_world(
    alloc: Global,
    context: Context<'_>,
    path: &str,
) -> Result<Option<CompositionGraph>, AllocError> {
    let more = format!(in alloc; "world {ITEM} {{ include {path}; }}")?;
    graph_of_all(alloc, context, more.as_str())
}

/// The kind of the item.
fn item(graph: &CompositionGraph) -> Option<ItemKind>
    ensures { IfSome result (Names graph.now.types) }
{
    match graph.get_export(ITEM) {
        None => None,
        Some(id) => Some(graph.kind(id)),
    }
}

/// What the item exports.
pub(crate) fn item_exports(graph: &CompositionGraph) -> Option<&IndexMap<String, ItemKind>> {
    match item(graph) {
        None => None,
        Some(kind) => graph.types().exports(kind),
    }
}

/// What the item exports under a name.
pub(crate) fn item_export(graph: &CompositionGraph, name: &str) -> Option<ItemKind>
    ensures { IfSome result (Names graph.now.types) }
{
    match item(graph) {
        None => None,
        Some(kind) => graph.export(kind, name),
    }
}

/// The item, if it is a world.
pub(crate) fn item_world(graph: &CompositionGraph) -> Option<WorldId> {
    match item(graph) {
        Some(ItemKind::Ty(Type::World(world))) => Some(world),
        _ => None,
    }
}
