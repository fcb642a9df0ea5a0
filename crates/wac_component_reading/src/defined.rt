//! Packages of definitions.
ghost use Rattle.std.specs.Prelude.{IfOk};
ghost use Rattle.wac_graph_types.specs.Package.{IsPackage};

use crate::parts::{add_instance, copied_items, copied_types};
use indexmap::IndexMap;
use std::alloc::{AllocError, Global};
use wac_graph::{ItemKind, Package, PackageError, Type, Types, World, WorldId};

/// The name under which the package of a component defines its world.
pub const ROOT: &str = "root";

/// The package with its world as its one definition, `root`, as the document of a component declares it.
pub fn with_root(alloc: Global, package: &Package) -> Result<Package, PackageError>
    ensures { IfOk result IsPackage }
{
    let types = copied_types(alloc, package)?;
    let definitions = root_definition(alloc, package.world())?;
    Package::new(types, package.world(), package.instance(), definitions)
}

/// A world as the one definition.
fn root_definition(
    alloc: Global,
    world: WorldId,
) -> Result<IndexMap<String, ItemKind>, AllocError> {
    let mut definitions = IndexMap::new(alloc);
    let name = String::from_str(alloc, ROOT)?;
    definitions.insert(name, ItemKind::Ty(Type::World(world)))?;
    Ok(definitions)
}

/// Whether a package defines its world alone, as `root`.
pub(crate) fn has_root_alone(package: &Package) -> bool {
    let definitions = package.definitions();
    definitions.len() == 1 && world_named(definitions, ROOT) == Some(package.world())
}

/// The package with a world of its definitions as its own: the one of this name, or else the only one. Where there is none,
/// or none is named and there are several, it imports and exports nothing, as a package that a document declares.
///
/// The component in which the package of an encoded WIT text is exports its definitions; it is no world of the package.
pub fn with_defined_world(
    alloc: Global,
    package: &Package,
    name: Option<&str>,
) -> Result<Package, PackageError>
    ensures { IfOk result IsPackage }
{
    let mut types = copied_types(alloc, package)?;
    let world = match defined_world(package.definitions(), name) {
        Some(world) => world,
        None => add_world(alloc, &mut types, IndexMap::new(alloc))?,
    };
    let exports = match types.exports(ItemKind::Component(world)) {
        Some(exports) => copied_items(alloc, exports)?,
        None => IndexMap::new(alloc),
    };
    let instance = add_instance(alloc, &mut types, exports)?;
    let definitions = copied_items(alloc, package.definitions())?;
    Package::new(types, world, instance, definitions)
}

/// The package with a world that exports its definitions, each under its name.
pub(crate) fn with_exported_definitions(
    alloc: Global,
    package: &Package,
) -> Result<Package, PackageError>
    ensures { IfOk result IsPackage }
{
    let mut types = copied_types(alloc, package)?;
    let exports = copied_items(alloc, package.definitions())?;
    let world = add_world(alloc, &mut types, exports)?;
    let exports = copied_items(alloc, package.definitions())?;
    let instance = add_instance(alloc, &mut types, exports)?;
    Package::new(types, world, instance, IndexMap::new(alloc))
}

/// Adds a world that imports nothing and has these exports.
fn add_world(
    alloc: Global,
    types: &mut Types,
    exports: IndexMap<String, ItemKind>,
) -> Result<WorldId, AllocError> {
    types.add_world(World {
        id: None,
        uses: IndexMap::new(alloc),
        imports: IndexMap::new(alloc),
        exports,
    })
}

/// The world of a name among definitions; without a name the only one.
pub fn defined_world(
    definitions: &IndexMap<String, ItemKind>,
    name: Option<&str>,
) -> Option<WorldId> {
    match name {
        Some(name) => world_named(definitions, name),
        None => only_world(definitions),
    }
}

/// The world of a name among definitions.
fn world_named(definitions: &IndexMap<String, ItemKind>, name: &str) -> Option<WorldId> {
    match definitions.get(name) {
        Some(ItemKind::Ty(Type::World(world))) => Some(*world),
        _ => None,
    }
}

/// The world among definitions, if there is just one.
fn only_world(definitions: &IndexMap<String, ItemKind>) -> Option<WorldId> {
    let mut found = None;
    for (_, kind) in definitions.iter() {
        if let ItemKind::Ty(Type::World(world)) = kind {
            if found.is_some() {
                return None;
            }
            found = Some(*world);
        }
    }
    found
}
