//! The package that the definitions of a graph make.
ghost use Rattle.std.specs.Prelude.{◌≡◌, [], IfOk, None, option_map};
ghost use Rattle.wac_graph_types.specs.Growth.{KeepsMeanings};
ghost use Rattle.wac_graph_types.specs.Names.{by_name};
ghost use Rattle.wac_graph.specs.Copied.{IsGrown};
ghost use Rattle.wac_declared_packages.specs.Definitions.{AreExported, HasWorld, IsChosen, IsWorld};

use crate::copies::copied_types;
use crate::definitions::definitions_of;
use crate::definitions_error::DefinitionsError;
use crate::worlds::{named_world, sole_world};
use indexmap::IndexMap;
use std::alloc::{AllocError, Global};
use wac_graph::CompositionGraph;
use wac_graph_types::{Interface, InterfaceId, ItemKind, Package, Types, World, WorldId};

/// The package that the definitions of a graph make: its world is the named one, or the only one. With no world, or with
/// several and none named, it has the definitions, and a world that imports and exports nothing.
///
/// What the graph exports are the definitions, by name and in order. Its instance has no id and no uses.
///
/// ```text
/// package a:b; interface i { f: func(); } world w { export i; }      two definitions, and the world `w`
/// ```
pub fn package_of(
    alloc: Global,
    graph: &CompositionGraph,
    world: Option<&str>,
) -> Result<Package, DefinitionsError>
    // Its definitions are what the graph exports, and each kind of the graph means in it what it means there.
    ensures definitions { IfOk result (λ p. AreExported graph.now p.definitions) }
    ensures means { IfOk result (λ p. KeepsMeanings graph.now.types p.types) }
    // Its world is the named one, or the only one; else it imports and exports nothing.
    ensures world { IfOk result (λ p. HasWorld (option_map (λ s. s.now) world.entry) p) }
{
    let definitions = definitions_of(alloc, graph)?;
    let world = chosen(alloc, &definitions, world)?;
    let table = graph.types();
    let types = copied_types(alloc, table)?;
    let package = assembled(alloc, types, world, definitions)?;
    Ok(package)
}

/// The world of that name, or the only one.
fn chosen(
    alloc: Global,
    definitions: &IndexMap<String, ItemKind>,
    name: Option<&str>,
) -> Result<Option<WorldId>, DefinitionsError>
    ensures { IfOk result (IsChosen (option_map (λ s. s.now) name.entry) (by_name definitions.now.entries)) }
{
    match name {
        None => Ok(sole_world(alloc, definitions)?),
        Some(name) => match named_world(definitions, name) {
            Some(world) => Ok(Some(world)),
            None => Err(DefinitionsError::NoSuchWorld),
        },
    }
}

/// The package of these types and definitions, whose world is that of this number, or a new one.
fn assembled(
    alloc: Global,
    mut types: Types,
    world: Option<WorldId>,
    definitions: IndexMap<String, ItemKind>,
) -> Result<Package, DefinitionsError>
    ensures definitions { IfOk result (λ p. p.definitions ≡ by_name definitions.entries) }
    ensures grown { IfOk result (λ p. IsGrown types p.types) }
    ensures world { IfOk result (IsWorld world) }
{
    match world {
        Some(world) => with_world(alloc, types, world, definitions),
        None => with_empty_world(alloc, types, definitions),
    }
}

/// The package of these types and definitions, with a new world that imports and exports nothing.
fn with_empty_world(
    alloc: Global,
    mut types: Types,
    definitions: IndexMap<String, ItemKind>,
) -> Result<Package, DefinitionsError>
    ensures definitions { IfOk result (λ p. p.definitions ≡ by_name definitions.entries) }
    ensures grown { IfOk result (λ p. IsGrown types p.types) }
    ensures world { IfOk result (IsWorld None) }
{
    let world = types.add_world(empty_world(alloc))?;
    let package = with_world(alloc, types, world, definitions)?;
    Ok(package)
}

/// The package of these types and definitions, whose world is that of this number.
fn with_world(
    alloc: Global,
    mut types: Types,
    world: WorldId,
    definitions: IndexMap<String, ItemKind>,
) -> Result<Package, DefinitionsError>
    ensures definitions { IfOk result (λ p. p.definitions ≡ by_name definitions.entries) }
    ensures world { IfOk result (λ p. p.world ≡ world) }
    ensures grown { IfOk result (λ p. IsGrown types p.types) }
{
    let instance = add_instance(alloc, &mut types, world)?;
    match Package::new(types, world, instance, definitions) {
        Ok(package) => Ok(package),
        Err(error) => Err(DefinitionsError::Parts(error)),
    }
}

/// A world that imports and exports nothing.
fn empty_world(alloc: Global) -> World
    ensures imports { result.imports.entries ≡ [] }
    ensures exports { result.exports.entries ≡ [] }
{
    World {
        id: None,
        uses: IndexMap::new(alloc),
        imports: IndexMap::new(alloc),
        exports: IndexMap::new(alloc),
    }
}

/// Adds an interface that exports what a world exports.
fn add_instance(alloc: Global, types: &mut Types, world: WorldId) -> Result<InterfaceId, AllocError>
    ensures { IsGrown types.old types.new }
{
    let exports = match types.exports(ItemKind::Component(world)) {
        None => IndexMap::new(alloc),
        Some(exports) => exports_of(alloc, exports)?,
    };
    types.add_interface(Interface {
        id: None,
        uses: IndexMap::new(alloc),
        exports,
    })
}

/// A copy of exports.
fn exports_of(
    alloc: Global,
    from: &IndexMap<String, ItemKind>,
) -> Result<IndexMap<String, ItemKind>, AllocError> {
    let mut exports = IndexMap::with_capacity(alloc, from.len())?;
    for (name, kind) in from.iter() {
        exports.insert(String::from_str(alloc, name.as_str())?, *kind)?;
    }
    Ok(exports)
}
