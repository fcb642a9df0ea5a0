//! A package with entries of each sort.

use crate::rows::{Row, package};
use std::alloc::{AllocError, Global};
use wac_graph::{
    DefinedTypeId, FuncTypeId, InterfaceId, ItemKind, Package, PackageError, PackageKey,
    PrimitiveType, ResourceAlias, ResourceId, Type, ValueType, WorldId,
};

const BYTE: ValueType = ValueType::Primitive(PrimitiveType::U8);

const OWNED: ValueType = ValueType::Own(ResourceId(0));

const BORROWED: ValueType = ValueType::Borrow(ResourceId(0));

const PAIR: ValueType = ValueType::Defined(DefinedTypeId(1));

const RECORD: ValueType = ValueType::Defined(DefinedTypeId(2));

const RUN: ItemKind = ItemKind::Func(FuncTypeId(5));

const LOG: ItemKind = ItemKind::Func(FuncTypeId(6));

const OWNER: InterfaceId = InterfaceId(7);

const ANOTHER_NAME: ResourceAlias = ResourceAlias {
    owner: Some(OWNER),
    source: ResourceId(0),
};

/// A resource, types of values that have it, functions, the resource's interface, another name of it, and an instance
/// and a world that use them.
static ENTRIES: [Row<'static>; 11] = [
    Row::Resource("r", None),
    Row::Tuple(&[BYTE, BYTE]),
    Row::Record(&[("x", OWNED), ("y", PAIR)]),
    Row::Variant(&[("none", None), ("some", Some(RECORD))]),
    Row::Enum(&["a", "b"]),
    Row::Func(&[("self", BORROWED)], Some(RECORD)),
    Row::Func(&[], None),
    Row::Interface(
        Some("x:y/z"),
        &[("r", ItemKind::Ty(Type::Resource(ResourceId(0))))],
    ),
    Row::Resource("s", Some(ANOTHER_NAME)),
    Row::Using("q", OWNER, "r", &[("run", RUN)]),
    Row::World(
        &[("log", LOG), ("x:y/z", ItemKind::Instance(OWNER))],
        &[("run", RUN)],
    ),
];

/// A package that imports the function `log` and the instance `x:y/z` and exports the function `run`.
pub fn component(alloc: Global) -> Result<Package, PackageError> {
    let world = ItemKind::Ty(Type::World(WorldId(10)));
    package(alloc, &ENTRIES, (10, 9), &[("w", world)])
}

pub fn key(alloc: Global, name: &str, version: &str) -> Result<PackageKey, AllocError> {
    let name = String::from_str(alloc, name)?;
    let version = String::from_str(alloc, version)?;
    Ok(PackageKey {
        name,
        version: Some(version),
    })
}
