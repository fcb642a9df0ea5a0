//! Keys of packages.
ghost use Rattle.std.specs.Prelude.{◌≡◌, IfOk, option_map, string_bytes};
ghost use Rattle.wac_ast_grammar.specs.Version.{version_text};
ghost use Rattle.wac_graph.specs.Package.{key_of};

use std::alloc::{AllocError, Global};
use wac_graph::PackageKey;

/// The text of the version, after `@`.
fn version(text: &str) -> Option<&str>
    ensures { option_map (λ t. t.now) result ≡ version_text text.now }
{
    let (_, version) = text.split_once('@')?;
    Some(version)
}

/// The text of the version, copied.
fn copied_version(alloc: Global, text: &str) -> Result<Option<String>, AllocError>
    ensures { IfOk result (λ v. option_map string_bytes v ≡ version_text text.now) }
{
    match version(text) {
        Some(version) => Ok(Some(String::from_str(alloc, version)?)),
        None => Ok(None),
    }
}

/// The key of the package of a name, with the version that is in the whole text.
pub fn package_key(alloc: Global, name: &str, text: &str) -> Result<PackageKey, AllocError>
    ensures { IfOk result (λ k. key_of k ≡ (name.now, version_text text.now)) }
{
    let version = copied_version(alloc, text)?;
    let name = String::from_str(alloc, name)?;
    Ok(PackageKey { name, version })
}
