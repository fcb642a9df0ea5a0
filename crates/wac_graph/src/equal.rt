//! Equality is equality of all fields. Each function here is `==` alone, and its contract is the law.
ghost use Rattle.std.specs.Prelude.{◌≡◌, IsTrue, ◌↔◌};
ghost use Rattle.wac_graph.specs.Package.{key_of, hash_of};

use crate::node::{NodeId, PackageId};
use crate::package_key::PackageKey;
use std::hash::{DefaultHasher, Hash, Hasher};

/// Ids are equal where their numbers are.
pub fn node_ids(a: NodeId, b: NodeId) -> bool
    ensures { IsTrue result ↔ (a ≡ b) }
{
    a == b
}

/// Ids are equal where their numbers are.
pub fn package_ids(a: PackageId, b: PackageId) -> bool
    ensures { IsTrue result ↔ (a ≡ b) }
{
    a == b
}

/// Keys are equal where their names and the texts of their versions are.
pub fn package_keys(a: &PackageKey, b: &PackageKey) -> bool
    ensures { IsTrue result ↔ (key_of a.now ≡ key_of b.now) }
{
    *a == *b
}

/// A key's hash is that of its name and the text of its version.
pub fn package_hash(key: &PackageKey) -> u64
    ensures { result ≡ hash_of (key_of key.now) }
{
    let mut state = DefaultHasher::new();
    key.hash(&mut state);
    state.finish()
}
