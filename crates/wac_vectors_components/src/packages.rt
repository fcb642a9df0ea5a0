//! Packages of decoded components.

use crate::small::IDENTITIES;
use std::alloc::Global;
use std::test::Fail;
use wac_components::{DecodeError, Decoded, ErrorKind, Limits, decode};
use wac_components_package::{ConversionError, package_of};
use wac_graph_types::{ItemKind, Package, ResourceId, Type, Types};

/// How many steps are enough for each component here.
const STEPS: u64 = 1000;

/// A function is imported that takes a list of four bytes.
static FIXED_LIST: &[u8] =
    b"\0asm\x0d\0\x01\0\x07\x0b\x02\x67\x7d\x04\x40\x01\x01a\0\x01\0\x0a\x06\x01\0\x01f\x01\x01";

/// What bytes are decoded to; decoded once more where memory runs out.
fn decoded_again(alloc: Global, bytes: &[u8]) -> Result<Decoded, DecodeError> {
    let limits = Limits::for_length(bytes.len());
    match decode(alloc, bytes, limits) {
        Err(error) if error.kind == ErrorKind::Memory => decode(alloc, bytes, limits),
        answer => answer,
    }
}

/// The package of a decoded component; made once more where memory runs out.
fn package_again(alloc: Global, decoded: &Decoded, steps: u64) -> Result<Package, ConversionError> {
    match package_of(alloc, decoded, steps) {
        Err(ConversionError::Memory) => package_of(alloc, decoded, steps),
        answer => answer,
    }
}

/// The resource that an instance exports under a name.
fn resource_in(types: &Types, instance: Option<ItemKind>, name: &str) -> Option<ResourceId> {
    match types.export(instance?, name) {
        Some(ItemKind::Ty(Type::Resource(id))) => Some(id),
        _ => None,
    }
}

/// What a resource is another name of.
fn source_of(types: &Types, id: Option<ResourceId>) -> Option<ResourceId> {
    match types.resource(id?) {
        Some(resource) => match resource.alias {
            Some(alias) => Some(alias.source),
            None => None,
        },
        None => None,
    }
}

/// Whether the resources of both imports are two, and those of the exports are other names of them.
fn keeps_resources(package: &Package) -> bool {
    let types = package.types();
    let world = package.world();
    let component = ItemKind::Component(world);
    let first = resource_in(types, types.import(world, "a:b/x"), "r");
    let second = resource_in(types, types.import(world, "a:b/y"), "r");
    let of_second = resource_in(types, types.export(component, "a:b/z"), "r2");
    let of_first = resource_in(types, types.export(component, "a:b/x2"), "r");
    first.is_some()
        && second.is_some()
        && first != second
        && source_of(types, of_second) == second
        && source_of(types, of_first) == first
}

#[test]
fn resources_keep_who_they_are(rt: HostRuntime) -> Result<(), Fail> {
    let decoded = decoded_again(rt.alloc(), IDENTITIES)?;
    let package = package_again(rt.alloc(), &decoded, STEPS)?;
    assert!(rt; keeps_resources(&package));
    Ok(())
}

/// Whether no package is made, since WAC can't say a type.
fn is_unsupported(alloc: Global, decoded: &Decoded) -> bool {
    match package_again(alloc, decoded, STEPS) {
        Err(ConversionError::Unsupported) => true,
        _ => false,
    }
}

#[test]
fn a_list_of_fixed_length_is_unsupported(rt: HostRuntime) -> Result<(), Fail> {
    let decoded = decoded_again(rt.alloc(), FIXED_LIST)?;
    assert!(rt; is_unsupported(rt.alloc(), &decoded));
    Ok(())
}

/// Whether no package is made in three steps.
fn is_too_large(alloc: Global, decoded: &Decoded) -> bool {
    match package_again(alloc, decoded, 3) {
        Err(ConversionError::TooLarge) => true,
        _ => false,
    }
}

#[test]
fn three_steps_are_too_few(rt: HostRuntime) -> Result<(), Fail> {
    let decoded = decoded_again(rt.alloc(), IDENTITIES)?;
    assert!(rt; is_too_large(rt.alloc(), &decoded));
    Ok(())
}
