// The packages of components.
use crate::handed_over::{Component, ComponentFault};
use indexmap::IndexMap;
use std::alloc::{AllocError, Global};
use wac_component_reading::{Converted, component_package};
use wac_graph::{Package, PackageKey};

/// Adds the package of a component to those that are there, under its key.
pub(crate) fn add_component(
    alloc: Global,
    packages: &mut IndexMap<PackageKey, Package>,
    component: &Component<'_>,
) -> Result<(), ComponentFault> {
    let key = package_key(alloc, component.key)?;
    if packages.contains_key(&key) {
        return Err(twice(alloc, component)?);
    }
    let package = read(alloc, component)?;
    packages.insert(key, package)?;
    Ok(())
}

/// The package of a component.
fn read(alloc: Global, component: &Component<'_>) -> Result<Package, ComponentFault> {
    match component_package(alloc, component.bytes, None)? {
        Converted::Package(package) => Ok(package),
        Converted::Rejected(diagnostic) => Err(ComponentFault::Bad {
            span: component.place,
            message: diagnostic.message,
        }),
    }
}

/// That there is a package of this key already.
fn twice(alloc: Global, component: &Component<'_>) -> Result<ComponentFault, AllocError> {
    let key = component.key;
    let message = format!(in alloc; "there is another package `{key}`")?;
    Ok(ComponentFault::Bad {
        span: component.place,
        message,
    })
}

/// The name and the version of a key.
fn package_key(alloc: Global, key: &str) -> Result<PackageKey, AllocError> {
    let (name, version) = match key.split_once('@') {
        Some((name, version)) => (name, Some(String::from_str(alloc, version)?)),
        None => (key, None),
    };
    Ok(PackageKey {
        name: String::from_str(alloc, name)?,
        version,
    })
}
