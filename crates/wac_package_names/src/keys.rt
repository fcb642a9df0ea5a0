//! Keys of packages as texts.
ghost use Rattle.std.specs.Prelude.{◌≡◌, ◌++◌, IfOk, OnOk, string_bytes};
ghost use Rattle.wac_graph.specs.Package.{key_of};
ghost use Rattle.wac_ast_grammar.specs.Version.{unversioned};
ghost use Rattle.wac_package_names.specs.Keys.{key_text, named_key};

use std::alloc::{AllocError, Global};
use wac_graph::PackageKey;
use wac_resolution_state::package_key;

/// Appends a package's name, and its version after `@`.
pub fn push_key(out: &mut String, key: &PackageKey) -> Result<(), AllocError>
    ensures { OnOk result (string_bytes out.new ≡ string_bytes out.old ++ key_text (key_of key.now)) }
{
    out.push_str(key.name.as_str())?;
    if let Some(version) = &key.version {
        out.push('@')?;
        out.push_str(version.as_str())?;
    }
    Ok(())
}

/// The text before `@`.
fn name_in(text: &str) -> &str
    ensures { result.now ≡ unversioned text.now }
{
    match text.split_once('@') {
        Some((name, _)) => name,
        None => text,
    }
}

/// The key that a text names: a package's name, and its version after `@`.
pub fn key_named(alloc: Global, text: &str) -> Result<PackageKey, AllocError>
    ensures { IfOk result (λ key. key_of key ≡ named_key text.now) }
{
    package_key(alloc, name_in(text), text)
}
