//! Packages by their keys, and copies of them: what resolving is given.
ghost use Rattle.std.specs.Prelude.{◌≡◌, IfOk, OnOk, Some, is_some, option_map, string_bytes};
ghost use Rattle.wac_graph.specs.Package.{key_of as key_in};
ghost use Rattle.wac_declared_packages.specs.Together.{AreCopiesOf, HasMentioned, Puts, Supplies, found as found_under};

use crate::copied_package;
use indexmap::IndexMap;
use std::alloc::{AllocError, Global};
use wac_graph::{Package, PackageError, PackageKey};
use wac_lexer::SourceSpan;

/// The package of a key.
fn found<'m>(packages: &'m IndexMap<PackageKey, Package>, key: &PackageKey) -> Option<&'m Package>
    ensures { option_map (λ p. p.now) result ≡ found_under key.now packages.now.entries }
{
    packages.get(key)
}

/// Whether there is a package of a key.
pub(crate) fn has(packages: &IndexMap<PackageKey, Package>, key: &PackageKey) -> bool
    ensures { result ≡ is_some (found_under key.now packages.now.entries) }
{
    match found(packages, key) {
        Some(_) => true,
        None => false,
    }
}

/// Puts a package under a key.
#[tactic(auto, using(crate::proofs::PackageCopies::puts))]
pub(crate) fn put(
    packages: &mut IndexMap<PackageKey, Package>,
    key: PackageKey,
    package: Package,
) -> Result<(), AllocError>
    ensures { OnOk result (Puts (key_in key) «package» packages.old.entries packages.new.entries) }
{
    packages.insert(key, package)?;
    Ok(())
}

/// A copy of a version's text.
fn copied_version(alloc: Global, version: &Option<String>) -> Result<Option<String>, AllocError>
    ensures { IfOk result (λ v. option_map string_bytes v ≡ option_map string_bytes version.now) }
{
    match version {
        None => Ok(None),
        Some(version) => Ok(Some(String::from_str(alloc, version.as_str())?)),
    }
}

/// A copy of a key.
pub(crate) fn copied_key(alloc: Global, key: &PackageKey) -> Result<PackageKey, AllocError>
    ensures { IfOk result (λ copy. key_in copy ≡ key_in key.now) }
{
    let name = String::from_str(alloc, key.name.as_str())?;
    let version = copied_version(alloc, &key.version)?;
    Ok(PackageKey { name, version })
}

/// Adds a copy of a package, which is one of those made.
#[tactic(auto, using(crate::proofs::PackageCopies::copies_more, crate::proofs::PackageCopies::supplies_copy))]
fn supply_copy(
    alloc: Global,
    made: &IndexMap<PackageKey, Package>,
    supplied: &mut IndexMap<PackageKey, Package>,
    key: &PackageKey,
    package: &Package,
) -> Result<(), PackageError>
    requires there { found_under key.now made.now.entries ≡ Some «package».now }
    requires copies { AreCopiesOf made.now.entries supplied.old.entries }
    ensures copies { OnOk result (AreCopiesOf made.now.entries supplied.new.entries) }
    ensures more { OnOk result (Supplies key.now made.now.entries supplied.old.entries supplied.new.entries) }
{
    let copy = copied_package(alloc, package)?;
    let key = copied_key(alloc, key)?;
    put(supplied, key, copy)?;
    Ok(())
}

/// Adds a copy of the package of a key, if it is made.
fn supply(
    alloc: Global,
    made: &IndexMap<PackageKey, Package>,
    supplied: &mut IndexMap<PackageKey, Package>,
    key: &PackageKey,
) -> Result<(), PackageError>
    requires copies { AreCopiesOf made.now.entries supplied.old.entries }
    ensures copies { OnOk result (AreCopiesOf made.now.entries supplied.new.entries) }
    ensures more { OnOk result (Supplies key.now made.now.entries supplied.old.entries supplied.new.entries) }
{
    match found(made, key) {
        None => Ok(()),
        Some(package) => supply_copy(alloc, made, supplied, key, package),
    }
}

/// Copies of the packages that are mentioned, of those that are there: what resolving is to be given.
pub fn supplied_packages(
    alloc: Global,
    mentioned: &IndexMap<PackageKey, SourceSpan>,
    made: &IndexMap<PackageKey, Package>,
) -> Result<IndexMap<PackageKey, Package>, PackageError>
    // Each is a copy of the package that is there under its key.
    ensures copies { IfOk result (λ supplied. AreCopiesOf made.now.entries supplied.entries) }
    // Each package that is mentioned and there has one.
    ensures all { IfOk result (λ supplied. HasMentioned mentioned.now.entries made.now.entries supplied.entries) }
{
    let mut supplied = IndexMap::new(alloc);
    for (key, _) in mentioned.iter() {
        supply(alloc, made, &mut supplied, key)?;
    }
    Ok(supplied)
}
