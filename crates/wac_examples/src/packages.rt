//! A package, built in code.

use indexmap::IndexMap;
use std::alloc::{AllocError, Global};
use wac_parser::resolution::{
    FuncResults, FuncType, Interface, ItemKind, Package, PackageError, PackageKey, Types, World,
};

/// A package that imports the function `log` and exports the function `get`, both without parameters and results.
pub fn cache(alloc: Global) -> Result<Package, PackageError> {
    let mut types = Types::new(alloc);
    let func = types.add_func_type(FuncType {
        params: IndexMap::new(alloc),
        results: FuncResults::None,
        is_async: false,
    })?;
    let func = ItemKind::Func(func);
    let world = types.add_world(world(alloc, func)?)?;
    let instance = types.add_interface(interface(alloc, func)?)?;
    Package::new(types, world, instance, IndexMap::new(alloc))
}

/// A world that imports a function as `log` and exports it as `get`.
fn world(alloc: Global, func: ItemKind) -> Result<World, AllocError> {
    Ok(World {
        id: None,
        uses: IndexMap::new(alloc),
        imports: one(alloc, "log", func)?,
        exports: one(alloc, "get", func)?,
    })
}

/// The interface of what that world exports.
fn interface(alloc: Global, func: ItemKind) -> Result<Interface, AllocError> {
    Ok(Interface {
        id: None,
        uses: IndexMap::new(alloc),
        exports: one(alloc, "get", func)?,
    })
}

/// One item by its name.
fn one(
    alloc: Global,
    name: &str,
    kind: ItemKind,
) -> Result<IndexMap<String, ItemKind>, AllocError> {
    let mut items = IndexMap::new(alloc);
    items.insert(String::from_str(alloc, name)?, kind)?;
    Ok(items)
}

/// The cache alone, as it is passed to the resolver: under its name. It is as a package has
/// to be, so that the only error is that memory runs out.
pub fn cache_alone(alloc: Global) -> Result<IndexMap<PackageKey, Package>, AllocError> {
    match cache(alloc) {
        Ok(package) => under(alloc, "example:cache", package),
        Err(_) => Err(AllocError),
    }
}

fn under(
    alloc: Global,
    name: &str,
    package: Package,
) -> Result<IndexMap<PackageKey, Package>, AllocError> {
    let mut packages = IndexMap::new(alloc);
    let name = String::from_str(alloc, name)?;
    let key = PackageKey {
        name,
        version: None,
    };
    packages.insert(key, package)?;
    Ok(packages)
}
