//! Parts of packages, copied.

use indexmap::IndexMap;
use std::alloc::{AllocError, Global};
use wac_graph::{Interface, InterfaceId, ItemKind, Package, Types, copy_types};

/// A copy of a package's table.
pub(crate) fn copied_types(alloc: Global, package: &Package) -> Result<Types, AllocError> {
    let from = package.types();
    let mut types = Types::new(alloc);
    types.reserve(from.entries().len())?;
    copy_types(alloc, &mut types, from)?;
    Ok(types)
}

/// A copy of named items.
pub(crate) fn copied_items(
    alloc: Global,
    from: &IndexMap<String, ItemKind>,
) -> Result<IndexMap<String, ItemKind>, AllocError> {
    let mut items = IndexMap::with_capacity(alloc, from.len())?;
    for (name, kind) in from.iter() {
        items.insert(String::from_str(alloc, name.as_str())?, *kind)?;
    }
    Ok(items)
}

/// Adds an interface with these exports, which has no id.
pub(crate) fn add_instance(
    alloc: Global,
    types: &mut Types,
    exports: IndexMap<String, ItemKind>,
) -> Result<InterfaceId, AllocError> {
    types.add_interface(Interface {
        id: None,
        uses: IndexMap::new(alloc),
        exports,
    })
}
