//! Packages that were added to a graph.
ghost use Rattle.std.specs.Prelude.{◌≡◌, ◌+◌, ◌<◌, ◌^◌, [], ◌∷◌, ◌++◌, None, Some, OnOk, OnErr, IfOk, length, slice_get};
ghost use Rattle.wac_graph_types.specs.Names.{by_name};
ghost use Rattle.wac_graph.specs.Package.{Key, key_of, package_keyed, moved_package};
ghost use Rattle.wac_graph.specs.PackageCopies.{held_under};
ghost use Rattle.wac_graph.specs.Readings.{held_of};

use crate::copy_items;
use crate::package_key::PackageKey;
use indexmap::IndexMap;
use std::alloc::{AllocError, Global};
use std::marker::Model;
use wac_graph_types::{InterfaceId, ItemKind, Package, WorldId};

/// What was copied of a package, in the graph's numbers.
#[derive(Drop)]
pub struct PackageCopy {
    pub first: usize,
    pub size: usize,
    pub world: WorldId,
    pub instance: InterfaceId,
    pub definitions: IndexMap<String, ItemKind>,
}

/// What a graph holds of a package. The numbers are those of the graph's table.
#[derive(Clone, Copy)]
pub struct GraphPackage<'a> {
    pub key: &'a PackageKey,
    /// The number of the first entry that was copied from the package.
    pub first: usize,
    /// How many entries were copied from the package.
    pub size: usize,
    /// What the package imports and exports.
    pub world: WorldId,
    /// The interface of its instances.
    pub instance: InterfaceId,
    pub definitions: &'a IndexMap<String, ItemKind>,
}

impl PackageCopy {
    /// The package with its numbers moved by `n`.
    pub(crate) fn moved(alloc: Global, n: usize, from: &Package) -> Result<Self, AllocError>
        requires { n + length from.now.types < 2 ^ 64 }
        ensures { IfOk result (λ c. (key : Key) → held_under key c ≡ moved_package n key from.now) }
    {
        let definitions = copy_items(alloc, n, from.definitions())?;
        Ok(PackageCopy {
            first: n,
            size: from.types().entries().len(),
            world: WorldId(n + from.world().0),
            instance: InterfaceId(n + from.instance().0),
            definitions,
        })
    }

    fn under<'a>(&'a self, key: &'a PackageKey) -> GraphPackage<'a>
        ensures { held_of result ≡ held_under (key_of key.now) self.now }
    {
        GraphPackage {
            key,
            first: self.first,
            size: self.size,
            world: self.world,
            instance: self.instance,
            definitions: &self.definitions,
        }
    }
}

/// Packages by key. A contract sees the list of them, in the order in which they were added.
#[derive(Drop)]
pub struct HeldPackages {
    copies: IndexMap<PackageKey, PackageCopy>,
}

impl Model for HeldPackages {
    ghost use Rattle.std.specs.Prelude.{List};
    ghost use Rattle.wac_graph.specs.Package.{HeldPackage};

    ghost Value = { List HeldPackage };

    ghost use Rattle.wac_graph.specs.PackageCopies.{held_in};

    ghost view = { λ p. held_in p.copies.entries };
}

impl HeldPackages {
    pub(crate) fn new(alloc: Global) -> Self
        ensures { result ≡ [] }
    {
        HeldPackages {
            copies: IndexMap::new(alloc),
        }
    }

    pub(crate) fn len(&self) -> usize
        ensures { result ≡ length self.now }
    {
        self.copies.len()
    }

    /// The number of the package of a key.
    pub(crate) fn find(&self, key: &PackageKey) -> Option<usize>
        ensures { result ≡ package_keyed (key_of key.now) self.now }
    {
        self.copies.get_index_of(key)
    }

    /// The package of a number.
    pub(crate) fn get(&self, number: usize) -> GraphPackage<'_>
        requires { number < length self.now }
        ensures { slice_get self.now number ≡ Some (held_of result) }
    {
        let Some((key, copy)) = self.copies.get_index(number) else {
            unreachable!()
        };
        copy.under(key)
    }

    /// Adds a package under a new key, after the others. The key is copied.
    pub(crate) fn push(
        &mut self,
        alloc: Global,
        key: &PackageKey,
        copy: PackageCopy,
    ) -> Result<(), AllocError>
        requires { package_keyed (key_of key.now) self.old ≡ None }
        ensures ok { OnOk result (self.new ≡ self.old ++ held_under (key_of key.now) copy ∷ []) }
        ensures err { OnErr result (self.new ≡ self.old) }
    {
        let key = key.copy(alloc)?;
        self.copies.insert(key, copy)?;
        Ok(())
    }
}
