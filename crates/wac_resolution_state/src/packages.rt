//! Packages that a document mentions.
ghost use Rattle.std.specs.Prelude.{◌≡◌, IfOk, MatchOption, option_map};
ghost use Rattle.std.specs.Map.{lookup};
ghost use Rattle.wac_graph.specs.Package.{key_of, same_key};
ghost use Rattle.wac_resolution_state.specs.Expands.{AllSupplied, Loads, IsNotSupplied};
ghost use Rattle.wac_resolution_state.specs.Context.{packages_in};

use crate::State;
use crate::context::Context;
use std::alloc::AllocError;
use wac_graph::{Package, PackageId, PackageKey};

/// The supplied package of a key.
fn supplied<'s>(context: &Context<'s>, key: &PackageKey) -> Option<&'s Package>
    ensures { option_map (λ p. p.now) result ≡ lookup (λ k. same_key (key_of key.now) k) (packages_in context.now) }
{
    context.packages.get(key)
}

/// The package of a key: the graph's own if it holds one, else a copy of the supplied one, if there is one.
pub fn package(
    state: &mut State,
    context: &Context<'_>,
    key: &PackageKey,
) -> Result<Option<PackageId>, AllocError>
    requires { AllSupplied (packages_in context.now) state.old.graph }
    ensures { IfOk result (λ o. MatchOption o (IsNotSupplied (packages_in context.now) (key_of key.now))
        (λ id. Loads (packages_in context.now) state.old.graph state.new.graph (key_of key.now) id.0)) }
{
    if let Some(id) = state.graph.get_package(key) {
        return Ok(Some(id));
    }
    match supplied(context, key) {
        Some(package) => {
            let id = state.graph.add_package(key, package)?;
            // Its contract says what the graph holds of the package.
            let _held = state.graph.package(id);
            Ok(Some(id))
        }
        None => Ok(None),
    }
}
