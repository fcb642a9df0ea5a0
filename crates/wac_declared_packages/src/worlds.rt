//! Which world of a package's definitions is the package's own.
ghost use Rattle.std.specs.Prelude.{◌≡◌, ◌++◌, IfOk, OnOk};
ghost use Rattle.wac_graph_types.specs.Names.{by_name};
ghost use Rattle.wac_declared_packages.specs.Definitions.{listed, only_world, sole as only, world_named, world_of as world_in, worlds_in};

use indexmap::IndexMap;
use std::alloc::{AllocError, Global};
use wac_graph_types::names::find;
use wac_graph_types::{ItemKind, Type, WorldId};

/// The world that a kind is, if it is one.
fn world_of(kind: ItemKind) -> Option<WorldId>
    ensures { result ≡ world_in kind }
{
    match kind {
        ItemKind::Ty(Type::World(id)) => Some(id),
        _ => None,
    }
}

/// The world of that name.
pub(crate) fn named_world(definitions: &IndexMap<String, ItemKind>, name: &str) -> Option<WorldId>
    ensures { result ≡ world_named name.now (by_name definitions.now.entries) }
{
    match find(definitions, name) {
        Some(kind) => world_of(kind),
        None => None,
    }
}

/// Adds the world that a kind is, if it is one.
fn add_world(worlds: &mut Vec<WorldId>, kind: ItemKind) -> Result<(), AllocError>
    ensures { OnOk result (worlds.new.items ≡ worlds.old.items ++ listed (world_in kind)) }
{
    match world_of(kind) {
        Some(world) => Ok(worlds.push(world)?),
        None => Ok(()),
    }
}

/// All worlds, in order.
fn worlds(
    alloc: Global,
    definitions: &IndexMap<String, ItemKind>,
) -> Result<Vec<WorldId>, AllocError>
    ensures { IfOk result (λ worlds. worlds.items ≡ worlds_in (by_name definitions.now.entries)) }
{
    let mut worlds = Vec::new(alloc);
    for (_, kind) in definitions.iter() {
        add_world(&mut worlds, *kind)?;
    }
    Ok(worlds)
}

/// The world, where there is just one.
#[tactic(auto, using(crate::proofs::Choosing::sole_one, crate::proofs::Choosing::sole_none))]
fn sole(worlds: &[WorldId]) -> Option<WorldId>
    ensures { result ≡ only worlds.now }
{
    if worlds.len() == 1 {
        Some(worlds[0])
    } else {
        None
    }
}

/// The world among definitions, where there is just one.
pub(crate) fn sole_world(
    alloc: Global,
    definitions: &IndexMap<String, ItemKind>,
) -> Result<Option<WorldId>, AllocError>
    ensures { IfOk result (λ world. world ≡ only_world (by_name definitions.now.entries)) }
{
    let worlds = worlds(alloc, definitions)?;
    Ok(sole(worlds.as_slice()))
}
