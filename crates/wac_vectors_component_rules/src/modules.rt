//! Modules and types of modules, values beside their types, and instances beside theirs, which no document declares.

use crate::building::{BYTE, instance};
use crate::tables::{NAMES, fits, package_of};
use std::alloc::{AllocError, Global};
use std::test::Fail;
use wac_graph_types::{InterfaceId, ItemKind, ModuleTypeId, Package, PackageError, Type, Types};

/// A module and a type of modules of each of two numbers; a value and an instance, each with its type.
const ITEMS: [ItemKind; 8] = [
    ItemKind::Module(ModuleTypeId(0)),
    ItemKind::Module(ModuleTypeId(1)),
    ItemKind::Ty(Type::Module(ModuleTypeId(0))),
    ItemKind::Ty(Type::Module(ModuleTypeId(1))),
    ItemKind::Value(BYTE),
    ItemKind::Ty(Type::Value(BYTE)),
    ItemKind::Instance(InterfaceId(0)),
    ItemKind::Ty(Type::Interface(InterfaceId(0))),
];

/// Whether one of the items fits itself, and no other one.
fn fits_itself(alloc: Global, package: &Package, a: usize) -> Result<bool, AllocError> {
    for b in 0..ITEMS.len() {
        if fits(alloc, package, NAMES[a % NAMES.len()], NAMES[b])? != Some(a == b) {
            return Ok(false);
        }
    }
    Ok(true)
}

/// A package that defines the items, over a table whose first entry is an interface.
fn package(alloc: Global) -> Result<Package, PackageError> {
    let mut types = Types::new(alloc);
    instance(alloc, &mut types, &[])?;
    package_of(alloc, types, &ITEMS)
}

#[test]
fn items_are_no_types_and_modules_have_numbers(rt: HostRuntime) -> Result<(), Fail> {
    let alloc = rt.alloc();
    match package(alloc) {
        Err(_) => assert!(rt; false, "the items make no package"),
        Ok(package) => {
            for a in 0..ITEMS.len() {
                let alone = fits_itself(alloc, &package, a)?;
                assert!(rt; alone, "{a} fits another one");
            }
        }
    }
    Ok(())
}
