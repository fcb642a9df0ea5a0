//! What names a package.
ghost use Rattle.std.specs.Prelude.{◌≡◌, IfOk};
ghost use Rattle.wac_graph.specs.Package.{key_of};

use crate::copy_text;
use std::alloc::{AllocError, Global};

/// A package's name and the text of its version, as `wasi:http` and `0.2.0`.
///
/// Versions are compared by their texts: `1.0.0+a` and `1.0.0+b` are two keys.
#[derive(PartialEq, Eq, Hash, Drop)]
pub struct PackageKey {
    pub name: String,
    pub version: Option<String>,
}

impl PackageKey {
    pub(crate) fn copy(&self, alloc: Global) -> Result<PackageKey, AllocError>
        ensures { IfOk result (λ k. key_of k ≡ key_of self.now) }
    {
        let name = String::from_str(alloc, self.name.as_str())?;
        let version = copy_text(alloc, &self.version)?;
        Ok(PackageKey { name, version })
    }
}
