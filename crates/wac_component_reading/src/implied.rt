//! The interfaces whose types a world's items use.
ghost use Rattle.std.specs.Prelude.{IfOk};
ghost use Rattle.wac_graph_types.specs.Package.{IsPackage};

use crate::parts::{add_instance, copied_items, copied_types};
use indexmap::IndexMap;
use std::alloc::{AllocError, Global};
use wac_graph::{
    Interface, InterfaceId, ItemKind, Package, PackageError, Types, UsedType, World, WorldId,
};

/// What a world imports, with what is implied, and interfaces whose uses aren't looked at yet.
#[derive(Drop)]
struct Imports {
    all: IndexMap<String, ItemKind>,
    pending: Vec<InterfaceId>,
}

/// The package with a world that imports, too, what the package's world implies: each interface whose types its items
/// use, and those whose types these use. An export that uses types of another export uses what is exported, so that this
/// implies no import. The package has no definitions.
///
/// Tools give a component such imports, which a document need not name. What the world imports under such a name stays.
///
/// ```text
/// interface i { resource r; }  interface j { use i.{r}; }
/// world v { export j; }                 it imports `a:b/i`
/// world w { export i; export j; }       it imports nothing
/// ```
pub fn with_implied_imports(alloc: Global, package: &Package) -> Result<Package, PackageError>
    ensures { IfOk result IsPackage }
{
    let mut types = copied_types(alloc, package)?;
    let world = add_world(alloc, &mut types, package)?;
    let instance = add_exports(alloc, &mut types, package)?;
    Package::new(types, world, instance, IndexMap::new(alloc))
}

/// Adds a world that imports what a package's world does, with what is implied, and exports what that exports.
fn add_world(alloc: Global, types: &mut Types, package: &Package) -> Result<WorldId, AllocError> {
    let imports = implied_imports(alloc, package)?;
    let exports = exports_of(alloc, package)?;
    types.add_world(World {
        id: None,
        uses: IndexMap::new(alloc),
        imports,
        exports,
    })
}

/// Adds an interface that exports what a package's world does.
fn add_exports(
    alloc: Global,
    types: &mut Types,
    package: &Package,
) -> Result<InterfaceId, AllocError> {
    let exports = exports_of(alloc, package)?;
    add_instance(alloc, types, exports)
}

/// What a package's world exports.
fn exports_of(alloc: Global, package: &Package) -> Result<IndexMap<String, ItemKind>, AllocError> {
    match package.types().world(package.world()) {
        Some(world) => copied_items(alloc, &world.exports),
        None => Ok(IndexMap::new(alloc)),
    }
}

/// What a package's world imports, with what is implied.
fn implied_imports(
    alloc: Global,
    package: &Package,
) -> Result<IndexMap<String, ItemKind>, AllocError> {
    let types = package.types();
    let Some(world) = types.world(package.world()) else {
        return Ok(IndexMap::new(alloc));
    };
    let mut imports = Imports::of_world(alloc, types, world)?;
    // Each interface is pending once for each of the world's items that it is, and once where it is added.
    for _ in 0..u64::MAX {
        let Some(id) = imports.pending.pop() else {
            break;
        };
        if let Some(interface) = types.interface(id) {
            imports.add_used(alloc, types, &interface.uses)?;
        }
    }
    Ok(imports.all)
}

impl Imports {
    /// The imports of a world, and the interfaces that it uses.
    fn of_world(alloc: Global, types: &Types, world: &World) -> Result<Imports, AllocError> {
        let mut imports = Imports {
            all: copied_items(alloc, &world.imports)?,
            pending: Vec::new(alloc),
        };
        imports.look_at(&world.imports)?;
        imports.add_used(alloc, types, &world.uses)?;
        imports.add_used_by_exports(alloc, types, &world.exports)?;
        Ok(imports)
    }

    /// Has the uses of these instances looked at.
    fn look_at(&mut self, items: &IndexMap<String, ItemKind>) -> Result<(), AllocError> {
        for (_, kind) in items.iter() {
            if let ItemKind::Instance(id) = kind {
                self.pending.push(*id)?;
            }
        }
        Ok(())
    }

    /// Adds the interfaces whose types are used.
    fn add_used(
        &mut self,
        alloc: Global,
        types: &Types,
        uses: &IndexMap<String, UsedType>,
    ) -> Result<(), AllocError> {
        for (_, used) in uses.iter() {
            if let Some(interface) = types.interface(used.interface) {
                self.add(alloc, used.interface, interface)?;
            }
        }
        Ok(())
    }

    /// Adds the interfaces whose types exports use.
    fn add_used_by_exports(
        &mut self,
        alloc: Global,
        types: &Types,
        exports: &IndexMap<String, ItemKind>,
    ) -> Result<(), AllocError> {
        for (_, kind) in exports.iter() {
            if let Some(uses) = uses_of(types, *kind) {
                self.add_used_but(alloc, types, uses, exports)?;
            }
        }
        Ok(())
    }

    /// Adds the interfaces whose types are used, but those that are exported.
    fn add_used_but(
        &mut self,
        alloc: Global,
        types: &Types,
        uses: &IndexMap<String, UsedType>,
        exports: &IndexMap<String, ItemKind>,
    ) -> Result<(), AllocError> {
        for (_, used) in uses.iter() {
            if let Some(interface) = types.interface(used.interface) {
                if !is_named_in(interface, exports) {
                    self.add(alloc, used.interface, interface)?;
                }
            }
        }
        Ok(())
    }

    /// Adds an interface, unless something is imported under its id, or it has none.
    fn add(
        &mut self,
        alloc: Global,
        id: InterfaceId,
        interface: &Interface,
    ) -> Result<(), AllocError> {
        let Some(name) = &interface.id else {
            return Ok(());
        };
        if !self.all.contains_key(name.as_str()) {
            let name = String::from_str(alloc, name.as_str())?;
            self.all.insert(name, ItemKind::Instance(id))?;
            self.pending.push(id)?;
        }
        Ok(())
    }
}

/// The types that an instance uses; nothing of another kind.
fn uses_of(types: &Types, kind: ItemKind) -> Option<&IndexMap<String, UsedType>> {
    match kind {
        ItemKind::Instance(id) => match types.interface(id) {
            Some(interface) => Some(&interface.uses),
            None => None,
        },
        _ => None,
    }
}

/// Whether items have the id of an interface as a name.
fn is_named_in(interface: &Interface, items: &IndexMap<String, ItemKind>) -> bool {
    match &interface.id {
        Some(name) => items.contains_key(name.as_str()),
        None => false,
    }
}
