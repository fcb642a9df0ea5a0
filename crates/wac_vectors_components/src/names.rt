//! By which names the types of decoded components are called.

use crate::small::{IDENTITIES, decoded_again};
use std::alloc::{AllocError, Global};
use std::test::Fail;
use wac_components::Decoded;
use wac_components_types::{
    InstanceId, Item, NameId, Names, Owner, Reference, Table, TypeId, reference_of,
};
use wac_graph_types::ExternKind;

/// The instance that a component imports at a place.
fn imported(decoded: &Decoded, place: usize) -> Option<InstanceId> {
    match decoded.table.import_at(decoded.component, place) {
        Some((_, Item::Instance(instance))) => Some(instance),
        _ => None,
    }
}

/// The instance that a component exports at a place.
fn exported(decoded: &Decoded, place: usize) -> Option<InstanceId> {
    let world = decoded.table.component(decoded.component)?.instance;
    match decoded.table.export_at(world, place) {
        Some((_, Item::Instance(instance))) => Some(instance),
        _ => None,
    }
}

/// The type that an instance exports first.
fn first_type(table: &Table, instance: InstanceId) -> Option<TypeId> {
    match table.export_at(instance, 0) {
        Some((_, Item::Type(ty))) => Some(ty),
        _ => None,
    }
}

/// The names of what an instance exports; collected once more where memory runs out.
fn names_again(alloc: Global, table: &Table, instance: InstanceId) -> Result<Names, AllocError> {
    let mut names = Names::new(alloc);
    if names.add_exports(table, instance).is_ok() {
        return Ok(names);
    }
    let mut again = Names::new(alloc);
    again.add_exports(table, instance)?;
    Ok(again)
}

/// The name by which the first type of an instance is called there, and what it is another name of.
type Called = (Option<NameId>, Option<Reference>);

fn called(
    alloc: Global,
    table: &Table,
    instance: Option<InstanceId>,
) -> Result<Called, AllocError> {
    let Some(instance) = instance else {
        return Ok((None, None));
    };
    let Some(ty) = first_type(table, instance) else {
        return Ok((None, None));
    };
    let names = names_again(alloc, table, instance)?;
    let reference = reference_of(table, &names, ty, Owner::Instance(instance));
    Ok((names.of(table, ty), reference))
}

fn is_name(table: &Table, name: Option<NameId>, text: &str) -> bool {
    match name {
        Some(name) => table.name(name) == text,
        None => false,
    }
}

/// Whether a type is used from that interface, which is imported, under that name.
fn is_used(table: &Table, reference: Option<Reference>, interface: &str, name: &str) -> bool {
    match reference {
        Some(Reference::Used(origin)) => {
            origin.kind == ExternKind::Import
                && table.name(origin.interface) == interface
                && table.name(origin.name) == name
        }
        _ => false,
    }
}

#[test]
fn a_resource_that_is_exported_again_is_used(rt: HostRuntime) -> Result<(), Fail> {
    let decoded = decoded_again(rt.alloc(), IDENTITIES)?;
    let table = &decoded.table;
    let (name, reference) = called(rt.alloc(), table, exported(&decoded, 0))?;
    assert!(rt; is_name(table, name, "r2"));
    assert!(rt; is_used(table, reference, "a:b/y", "r"));
    Ok(())
}

#[test]
fn a_resource_is_no_other_name_where_it_is_first(rt: HostRuntime) -> Result<(), Fail> {
    let decoded = decoded_again(rt.alloc(), IDENTITIES)?;
    let table = &decoded.table;
    let (name, reference) = called(rt.alloc(), table, imported(&decoded, 0))?;
    assert!(rt; is_name(table, name, "r"));
    assert!(rt; reference.is_none());
    Ok(())
}
