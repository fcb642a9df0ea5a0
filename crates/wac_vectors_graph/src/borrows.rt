//! Which types contain a borrow.

use crate::rows::{Row, package};
use std::test::Fail;
use wac_graph::{
    DefinedTypeId, FuncTypeId, InterfaceId, ItemKind, Package, ResourceAlias, ResourceId, Type,
    ValueType,
};

const BORROWED: ValueType = ValueType::Borrow(ResourceId(2));

const ANOTHER_NAME: ResourceAlias = ResourceAlias {
    owner: Some(InterfaceId(4)),
    source: ResourceId(2),
};

/// A resource, another name of it, which an interface owns that has a method of it, and lists: of the borrowed
/// resource, of such lists, of the owned one, and of its owned other name.
static ENTRIES: [Row<'static>; 11] = [
    Row::Interface(None, &[]),
    Row::World(&[], &[]),
    Row::Resource("r", None),
    Row::Func(&[("self", BORROWED)], None),
    Row::Interface(None, &[("run", ItemKind::Func(FuncTypeId(3)))]),
    Row::Resource("s", Some(ANOTHER_NAME)),
    Row::List(BORROWED),
    Row::List(ValueType::Defined(DefinedTypeId(6))),
    Row::List(ValueType::Own(ResourceId(2))),
    Row::List(ValueType::Own(ResourceId(5))),
    Row::Stream,
];

static DEFINITIONS: [(&str, ItemKind); 6] = [
    (
        "a",
        ItemKind::Ty(Type::Value(ValueType::Defined(DefinedTypeId(6)))),
    ),
    (
        "b",
        ItemKind::Ty(Type::Value(ValueType::Defined(DefinedTypeId(7)))),
    ),
    (
        "c",
        ItemKind::Ty(Type::Value(ValueType::Defined(DefinedTypeId(8)))),
    ),
    (
        "d",
        ItemKind::Ty(Type::Value(ValueType::Defined(DefinedTypeId(9)))),
    ),
    (
        "e",
        ItemKind::Ty(Type::Value(ValueType::Defined(DefinedTypeId(10)))),
    ),
    ("r", ItemKind::Ty(Type::Resource(ResourceId(2)))),
];

/// Whether the values of a definition contain a borrow, if it is a type of values.
fn contains_borrow(package: &Package, i: usize) -> Option<bool> {
    let types = package.types();
    let definitions = package.definitions();
    let (_, kind) = definitions.get_index(i)?;
    match *kind {
        ItemKind::Ty(Type::Value(ty)) => Some(types.contains_borrow(ty)),
        _ => None,
    }
}

/// For each definition whether its values contain a borrow. The last one is no type of values, and past it is none.
static BORROWS: [(usize, Option<bool>); 7] = [
    (0, Some(true)),
    (1, Some(true)),
    (2, Some(false)),
    (3, Some(false)),
    (4, Some(false)),
    (5, None),
    (6, None),
];

/// Whether this is so of each definition.
fn are_found(package: &Package, rows: &[(usize, Option<bool>)]) -> bool {
    for (i, is) in rows {
        if contains_borrow(package, *i) != *is {
            return false;
        }
    }
    true
}

#[test]
fn looks_for_borrows(rt: HostRuntime) -> Result<(), Fail> {
    let package = package(rt.alloc(), &ENTRIES, (1, 0), &DEFINITIONS)?;
    assert!(rt; are_found(&package, &BORROWS));
    Ok(())
}
