//! Copies of tables and packages.
ghost use Rattle.std.specs.Prelude.{◌≡◌, ◌<◌, ◌^◌, IfOk, length};
ghost use Rattle.wac_graph_types.specs.Growth.{KeepsMeanings};
ghost use Rattle.wac_graph_types.specs.Names.{by_name};
ghost use Rattle.wac_graph_types.specs.Table.{IsTable, ItemsNamed};
ghost use Rattle.wac_declared_packages.specs.Packages.{IsCopy};

use indexmap::IndexMap;
use std::alloc::{AllocError, Global};
use wac_graph::{copy_items, copy_types};
use wac_graph_types::{ItemKind, Package, PackageError, Types};

/// A copy of a table, in which each kind means what it means there.
pub(crate) fn copied_types(alloc: Global, from: &Types) -> Result<Types, AllocError>
    requires table { IsTable from.now }
    ensures means { IfOk result (λ types. KeepsMeanings from.now types) }
    ensures len { IfOk result (λ types. length types ≡ length from.now) }
    ensures room { IfOk result (λ types. length from.now < 2 ^ 64) }
{
    let mut types = Types::new(alloc);
    types.reserve(from.entries().len())?;
    copy_types(alloc, &mut types, from)?;
    Ok(types)
}

/// A copy of named items of a table that is not too long.
pub(crate) fn copied_items(
    alloc: Global,
    types: &Types,
    from: &IndexMap<String, ItemKind>,
) -> Result<IndexMap<String, ItemKind>, AllocError>
    requires named { ItemsNamed types.now (by_name from.now.entries) }
    requires room { length types.now < 2 ^ 64 }
    ensures { IfOk result (λ items. by_name items.entries ≡ by_name from.now.entries) }
{
    copy_items(alloc, 0, from)
}

/// A copy of a package. Resolving takes the packages that it is given, so whoever resolves twice makes copies.
///
/// The error is that memory ran out. The copy has the numbers of the package.
///
/// ```text
/// let supplied = copied_package(alloc, &package)?;
/// ```
pub fn copied_package(alloc: Global, from: &Package) -> Result<Package, PackageError>
    ensures { IfOk result (λ copy. IsCopy from.now copy) }
{
    let types = copied_types(alloc, from.types())?;
    let definitions = copied_items(alloc, from.types(), from.definitions())?;
    Package::new(types, from.world(), from.instance(), definitions)
}
