//! Helps for what a target lacks, requires or has otherwise.
ghost use Rattle.std.specs.Prelude.{◌<◌, IfSome, length};
ghost use Rattle.wac_graph_types.specs.Table.{Names};

use crate::arguments::push_instead;
use crate::context::Context;
use crate::earlier::graph_of_all;
use crate::items::{graph_with_world, item_export, item_world};
use crate::mismatches::compared;
use indexmap::IndexMap;
use std::alloc::{AllocError, Global};
use wac_component_rules::{Mismatch, mismatch};
use wac_graph::{CompositionGraph, ExternKind, ItemKind, NodeId, WorldId};

/// Where an import or an export of the composition differs from that of the target.
pub(crate) fn target_help(
    alloc: Global,
    context: Context<'_>,
    kind: ExternKind,
    name: &str,
    world: &str,
) -> Result<Option<String>, AllocError> {
    match graph_with_world(alloc, context, world)? {
        None => Ok(None),
        Some(graph) => match kind {
            ExternKind::Import => import_mismatch(alloc, &graph, name),
            ExternKind::Export => export_mismatch(alloc, &graph, name),
        },
    }
}

/// A kind as what a type is of, which names what the kind names.
#[tactic(auto, using(wac_resolution_errors::proofs::Promoted::promoted_named))]
fn promoted(graph: &CompositionGraph, kind: ItemKind) -> ItemKind
    requires { Names graph.now.types kind }
    ensures { Names graph.now.types result }
{
    let _types = graph.types();
    kind.promote()
}

/// Where the export of a name differs from that of the target.
fn export_mismatch(
    alloc: Global,
    graph: &CompositionGraph,
    name: &str,
) -> Result<Option<String>, AllocError> {
    let Some(id) = graph.get_export(name) else {
        return Ok(None);
    };
    match item_export(graph, name) {
        None => Ok(None),
        Some(wanted) => compared(alloc, graph, graph.kind(id), promoted(graph, wanted)),
    }
}

/// What a world of the graph's table imports under a name.
fn world_import(graph: &CompositionGraph, world: WorldId, name: &str) -> Option<ItemKind>
    ensures { IfSome result (Names graph.now.types) }
{
    let types = graph.types();
    types.import(world, name)
}

/// Where the import of a name differs from that of the target: the explicit one, or the first that is left open and
/// doesn't fit.
fn import_mismatch(
    alloc: Global,
    graph: &CompositionGraph,
    name: &str,
) -> Result<Option<String>, AllocError> {
    let Some(world) = item_world(graph) else {
        return Ok(None);
    };
    match world_import(graph, world, name) {
        None => Ok(None),
        Some(allowed) => first_denied(alloc, graph, name, promoted(graph, allowed)),
    }
}

/// Where the first import of a name differs from what the target allows, if it doesn't fit.
fn first_denied(
    alloc: Global,
    graph: &CompositionGraph,
    name: &str,
    allowed: ItemKind,
) -> Result<Option<String>, AllocError>
    requires { Names graph.now.types allowed }
{
    if let Some(id) = graph.get_import(name) {
        if let Some(help) = denied(alloc, graph, graph.kind(id), allowed)? {
            return Ok(Some(help));
        }
    }
    first_open_denied(alloc, graph, name, allowed)
}

/// The same of the imports that instances leave open.
fn first_open_denied(
    alloc: Global,
    graph: &CompositionGraph,
    name: &str,
    allowed: ItemKind,
) -> Result<Option<String>, AllocError>
    requires { Names graph.now.types allowed }
{
    for id in graph.nodes() {
        if let Some(help) = open_denied(alloc, graph, id, name, allowed)? {
            return Ok(Some(help));
        }
    }
    Ok(None)
}

/// The same of the import that a node leaves open under a name, if it does, with the node's name.
fn open_denied(
    alloc: Global,
    graph: &CompositionGraph,
    id: NodeId,
    name: &str,
    allowed: ItemKind,
) -> Result<Option<String>, AllocError>
    requires there { id.0 < length graph.now.nodes }
    requires allowed { Names graph.now.types allowed }
{
    let Some(kind) = open_kind(graph, id, name) else {
        return Ok(None);
    };
    match denied(alloc, graph, kind, allowed)? {
        None => Ok(None),
        Some(help) => Ok(Some(with_opener(alloc, graph, id, help.as_str())?)),
    }
}

/// A help, after the name of the instance that leaves an import open, since that is written nowhere.
fn with_opener(
    alloc: Global,
    graph: &CompositionGraph,
    id: NodeId,
    help: &str,
) -> Result<String, AllocError>
    requires { id.0 < length graph.now.nodes }
{
    match graph.name(id) {
        None => String::from_str(alloc, help),
        Some(bound) => format!(in alloc; "`{bound}` leaves it open; {help}"),
    }
}

/// The kind of an import that a node leaves open under a name.
fn open_kind(graph: &CompositionGraph, id: NodeId, name: &str) -> Option<ItemKind>
    requires { id.0 < length graph.now.nodes }
    ensures { IfSome result (Names graph.now.types) }
{
    match graph.instance_of(id) {
        None => None,
        Some(package) => match graph.argument(id, name) {
            Some(_) => None,
            None => graph.import_kind(package, name),
        },
    }
}

/// Where an import differs from what the target allows, if it doesn't fit. What is expected is the target's.
fn denied(
    alloc: Global,
    graph: &CompositionGraph,
    asked: ItemKind,
    allowed: ItemKind,
) -> Result<Option<String>, AllocError>
    requires asked { Names graph.now.types asked }
    requires allowed { Names graph.now.types allowed }
{
    match mismatch(alloc, graph.types(), allowed, asked) {
        Ok(None) => Ok(None),
        Ok(Some(found)) => Ok(Some(turned(alloc, found)?)),
        Err(_) => Err(AllocError),
    }
}

/// A mismatch of which the other side is expected.
fn turned(alloc: Global, mismatch: Mismatch<'_>) -> Result<String, AllocError> {
    let Mismatch {
        path,
        expected,
        found,
    } = mismatch;
    let turned = Mismatch {
        path,
        expected: found,
        found: expected,
    };
    format!(in alloc; "{turned}")
}

/// What the target imports in place of a name.
pub(crate) fn lacking_import_help(
    alloc: Global,
    context: Context<'_>,
    name: &str,
    world: &str,
) -> Result<Option<String>, AllocError> {
    match graph_with_world(alloc, context, world)? {
        None => Ok(None),
        Some(graph) => allowed_help(alloc, &graph, name),
    }
}

/// What the target's world imports in place of a name.
fn allowed_help(
    alloc: Global,
    graph: &CompositionGraph,
    name: &str,
) -> Result<Option<String>, AllocError> {
    let Some(world) = item_world(graph) else {
        return Ok(None);
    };
    match graph.types().imports(world) {
        None => Ok(None),
        Some(items) => {
            let help = instead(alloc, "the world imports", items, name)?;
            Ok(Some(opened_by(alloc, graph, name, help.as_str())?))
        }
    }
}

/// A help, after the name of the first instance that leaves a name open, unless a statement imports it.
fn opened_by(
    alloc: Global,
    graph: &CompositionGraph,
    name: &str,
    help: &str,
) -> Result<String, AllocError> {
    match opener(graph, name) {
        None => String::from_str(alloc, help),
        Some(id) => with_opener(alloc, graph, id, help),
    }
}

/// The first node that leaves a name open, unless a statement imports it.
fn opener(graph: &CompositionGraph, name: &str) -> Option<NodeId>
    ensures { IfSome result (λ id. id.0 < length graph.now.nodes) }
{
    if graph.get_import(name).is_some() {
        return None;
    }
    for id in graph.nodes() {
        if open_kind(graph, id, name).is_some() {
            return Some(id);
        }
    }
    None
}

/// What something has in place of a name.
fn instead(
    alloc: Global,
    what: &str,
    items: &IndexMap<String, ItemKind>,
    name: &str,
) -> Result<String, AllocError> {
    let mut help = String::from_str(alloc, what)?;
    push_instead(alloc, &mut help, items, name)?;
    Ok(help)
}

/// What the document exports in place of a name that its target requires.
pub(crate) fn missing_export_help(
    alloc: Global,
    context: Context<'_>,
    name: &str,
) -> Result<Option<String>, AllocError> {
    match graph_of_all(alloc, context, "")? {
        None => Ok(None),
        Some(graph) => exported_help(alloc, &graph, name),
    }
}

/// What a graph exports in place of a name.
fn exported_help(
    alloc: Global,
    graph: &CompositionGraph,
    name: &str,
) -> Result<Option<String>, AllocError> {
    let items = exports_of(alloc, graph)?;
    Ok(Some(instead(alloc, "the document exports", &items, name)?))
}

/// What a graph exports.
fn exports_of(
    alloc: Global,
    graph: &CompositionGraph,
) -> Result<IndexMap<String, ItemKind>, AllocError> {
    let mut items = IndexMap::new(alloc);
    for (name, _) in graph.exports() {
        if let Some(id) = graph.get_export(name) {
            items.insert(String::from_str(alloc, name)?, graph.kind(id))?;
        }
    }
    Ok(items)
}
