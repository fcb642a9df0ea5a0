//! Packages that are supplied to the resolver.

use indexmap::IndexMap;
use std::alloc::{AllocError, Global};
use wac_graph::{
    FuncResults, FuncType, FuncTypeId, Interface, InterfaceId, ItemKind, Package, PackageError,
    PackageKey, Type, Types, World, WorldId,
};

type Items = &'static [(&'static str, ItemKind)];

const FUNC: ItemKind = ItemKind::Func(FuncTypeId(0));

const IMPORTS: Items = &[("log", FUNC), ("x:y/z", ItemKind::Instance(InterfaceId(1)))];

const DEFINITIONS: Items = &[
    ("z", ItemKind::Ty(Type::Interface(InterfaceId(1)))),
    ("w", ItemKind::Ty(Type::World(WorldId(2)))),
];

/// Values by their names. It is proved for any values, once, which takes a tenth of a proof for kinds of items.
fn named<V: Copy>(alloc: Global, rows: &[(&str, V)]) -> Result<IndexMap<String, V>, AllocError> {
    let mut all = IndexMap::new(alloc);
    for (name, value) in rows {
        all.insert(String::from_str(alloc, name)?, *value)?;
    }
    Ok(all)
}

fn func(alloc: Global) -> FuncType {
    FuncType {
        params: IndexMap::new(alloc),
        results: FuncResults::None,
        is_async: false,
    }
}

fn text(alloc: Global, text: Option<&str>) -> Result<Option<String>, AllocError> {
    match text {
        None => Ok(None),
        Some(text) => Ok(Some(String::from_str(alloc, text)?)),
    }
}

/// An interface that exports one function.
fn interface(alloc: Global, id: Option<&str>, export: Items) -> Result<Interface, AllocError> {
    let id = text(alloc, id)?;
    Ok(Interface {
        id,
        uses: IndexMap::new(alloc),
        exports: named(alloc, export)?,
    })
}

fn world(alloc: Global) -> Result<World, AllocError> {
    let imports = named(alloc, IMPORTS)?;
    Ok(World {
        id: None,
        uses: IndexMap::new(alloc),
        imports,
        exports: named(alloc, &[("run", FUNC)])?,
    })
}

/// A function, an interface that exports it, the world of the package, and the interface of its instances.
fn table(alloc: Global) -> Result<Types, AllocError> {
    let mut types = Types::new(alloc);
    types.add_func_type(func(alloc))?;
    types.add_interface(interface(alloc, Some("x:y/z"), &[("f", FUNC)])?)?;
    types.add_world(world(alloc)?)?;
    types.add_interface(interface(alloc, None, &[("run", FUNC)])?)?;
    Ok(types)
}

/// A package that imports the function `log` and the instance `x:y/z`, which exports `f`, and exports the function `run`.
fn package(alloc: Global) -> Result<Package, PackageError> {
    let definitions = named(alloc, DEFINITIONS)?;
    Package::new(table(alloc)?, WorldId(2), InterfaceId(3), definitions)
}

fn key(alloc: Global, version: Option<&str>) -> Result<PackageKey, AllocError> {
    let name = String::from_str(alloc, "c:d")?;
    let version = text(alloc, version)?;
    Ok(PackageKey { name, version })
}

/// Supplies the package under its key.
fn hand(
    alloc: Global,
    all: &mut IndexMap<PackageKey, Package>,
    version: Option<&str>,
    package: Package,
) -> Result<(), AllocError> {
    let key = key(alloc, version)?;
    all.insert(key, package)?;
    Ok(())
}

/// The package, as `c:d` and as `c:d@1.0.0`.
pub fn packages(alloc: Global) -> Result<IndexMap<PackageKey, Package>, PackageError> {
    let mut all = IndexMap::new(alloc);
    for version in [None, Some("1.0.0")] {
        hand(alloc, &mut all, version, package(alloc)?)?;
    }
    Ok(all)
}
