//! Instances that are spread.
ghost use Rattle.std.specs.Prelude.{◌≡◌, ◌<◌, [], ◌∷◌, IfOk, OnOk, length, map, string_bytes};
ghost use Rattle.wac_graph_types.specs.Names.{by_name};
ghost use Rattle.wac_graph_types.specs.Readings.{world_imports};
ghost use Rattle.wac_graph_types.specs.Table.{Names};
ghost use Rattle.wac_resolution_rules.specs.Find.{names_of};
ghost use Rattle.wac_resolution_state.specs.Nodes.{NodesStand};
ghost use Rattle.wac_resolution_expressions.specs.Spreads.{GivenThere, NamesSpread, NodeSpread};

use indexmap::IndexMap;
use std::alloc::{AllocError, Global};
use wac_graph::names::{find, push};
use wac_graph::{ItemKind, NodeId, WorldId};
use wac_resolution_state::{State, alias};

/// The names, copied.
fn copied_names(alloc: Global, all: &IndexMap<String, ItemKind>) -> Result<Vec<String>, AllocError>
    ensures { IfOk result (λ names. map string_bytes names.items ≡ names_of (by_name all.now.entries)) }
{
    let mut names = Vec::new(alloc);
    for (name, _) in all.iter() {
        let copy = String::from_str(alloc, name.as_str())?;
        names.push(copy)?;
    }
    Ok(names)
}

/// The names of what a world imports, copied.
fn import_names(state: &State, world: WorldId) -> Result<Vec<String>, AllocError>
    ensures { IfOk result (λ names. map string_bytes names.items
        ≡ names_of (world_imports state.now.graph.types world.0)) }
{
    let types = state.graph.types();
    match types.imports(world) {
        Some(all) => copied_names(state.alloc, all),
        None => Ok(Vec::new(state.alloc)),
    }
}

/// For a name for which nothing is given yet, gives the node's export of that name, where there is one.
fn spread_name(
    state: &mut State,
    node: NodeId,
    name: &str,
    given: &mut IndexMap<String, NodeId>,
) -> Result<(), AllocError>
    requires agrees { NodesStand state.old.graph }
    requires there { GivenThere state.old.graph (by_name given.old.entries) }
    ensures { OnOk result (NamesSpread state.old.graph state.new.graph (by_name given.old.entries)
        (by_name given.new.entries) node.0 (name.now ∷ [])) }
{
    if find(given, name).is_some() {
        return Ok(());
    }
    if state.graph.export_kind(node, name).is_none() {
        return Ok(());
    }
    let value = alias(state, node, name)?;
    push(state.alloc, given, name, value)?;
    Ok(())
}

/// Does that for names, in order.
fn spread_names(
    state: &mut State,
    node: NodeId,
    names: &[String],
    given: &mut IndexMap<String, NodeId>,
) -> Result<(), AllocError>
    requires agrees { NodesStand state.old.graph }
    requires there { GivenThere state.old.graph (by_name given.old.entries) }
    ensures { OnOk result (NamesSpread state.old.graph state.new.graph (by_name given.old.entries)
        (by_name given.new.entries) node.0 (map string_bytes names.now)) }
{
    for name in names {
        spread_name(state, node, name.as_str(), given)?;
    }
    Ok(())
}

/// For each import for which nothing is given yet, gives the node's export of that name, where there is one.
pub(crate) fn spread_from(
    state: &mut State,
    world: WorldId,
    node: NodeId,
    given: &mut IndexMap<String, NodeId>,
) -> Result<(), AllocError>
    requires agrees { NodesStand state.old.graph }
    requires there { GivenThere state.old.graph (by_name given.old.entries) }
    requires world { Names state.old.graph.types (ItemKind.Component world) }
    ensures { OnOk result (NodeSpread state.old.graph state.new.graph (by_name given.old.entries)
        (by_name given.new.entries) node.0 world) }
{
    // Its contract says that the table is sound, and what its entries mean.
    let _types = state.graph.types();
    let names = import_names(state, world)?;
    spread_names(state, node, &names, given)?;
    Ok(())
}
