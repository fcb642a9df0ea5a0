//! Packages that are instantiated.
ghost use Rattle.std.specs.Prelude.{◌≡◌, IfOk, MatchOption};
ghost use Rattle.std.specs.Str.{bytes_eq};
ghost use Rattle.wac_ast_base.specs.Names.{package_name_of};
ghost use Rattle.wac_graph.specs.Origin.{Numbering};
ghost use Rattle.wac_resolution_errors.specs.Error.{unknown_package};
ghost use Rattle.wac_resolution_errors.specs.ErrorModel.{error_model};
ghost use Rattle.wac_resolution_rules.specs.BrokenExpressions.{IsUnknownPackage};
ghost use Rattle.wac_resolution_rules.specs.Errors.{ErrorSays};
ghost use Rattle.wac_resolution_rules.specs.Given.{Rules, key_named};
ghost use Rattle.wac_resolution_state.specs.Nodes.{NodesStand};
ghost use Rattle.wac_resolution_state.specs.Expands.{AllSupplied, Loads, IsNotSupplied};
ghost use Rattle.wac_resolution_state.specs.Context.{packages_in};
ghost use Rattle.wac_resolution_expressions.specs.Growth.{given_in};
ghost use Rattle.wac_resolution_expressions.specs.Loaded.{IsInstantiable};

use std::alloc::{AllocError, Global};
use wac_ast_base::PackageName;
use wac_graph::{PackageId, WorldId};
use wac_resolution_errors::Error;
use wac_resolution_state::{Context, State, package as load_package, package_key};

/// A package that the graph holds.
#[derive(Clone, Copy)]
pub struct Loaded {
    /// Its number.
    pub id: PackageId,
    /// What it imports and exports.
    pub world: WorldId,
}

/// Whether a package is the document's own.
fn is_own(context: &Context<'_>, package: &PackageName<'_>) -> bool
    ensures { result ≡ bytes_eq «package».now.name.now context.now.own.now }
{
    package.name == context.own
}

/// What is reported of a package that was not supplied, or is the document's own.
#[cold]
#[inline(never)]
fn unknown(alloc: Global, package: &PackageName<'_>) -> Result<Error, AllocError>
    ensures { IfOk result (λ e. error_model e ≡ unknown_package «package».now.name.now «package».now.span) }
{
    Ok(Error::UnknownPackage {
        name: String::from_str(alloc, package.name)?,
        span: package.span,
    })
}

/// The package of a name.
fn load(
    state: &mut State,
    context: &Context<'_>,
    package: &PackageName<'_>,
) -> Result<Option<PackageId>, AllocError>
    requires { AllSupplied (packages_in context.now) state.old.graph }
    ensures { IfOk result (λ o. MatchOption o
        (IsNotSupplied (packages_in context.now) (key_named (package_name_of «package».now)))
        (λ id. Loads (packages_in context.now) state.old.graph state.new.graph
        (key_named (package_name_of «package».now)) id.0)) }
{
    let key = package_key(state.alloc, package.name, package.string)?;
    load_package(state, context, &key)
}

/// The package that is instantiated under a name. It must be supplied, and not be the document's own.
#[inline(never)]
pub fn instantiable(
    state: &mut State,
    context: &Context<'_>,
    package: &PackageName<'_>,
) -> Result<Loaded, Error>
    requires stand { NodesStand state.old.graph }
    requires supplied { AllSupplied (packages_in context.now) state.old.graph }
    ensures ok { IfOk result (λ p. IsInstantiable context.now state.old.graph state.new.graph
        (package_name_of «package».now) p) }
    ensures err { ErrorSays result (λ e. (numbering : Numbering) (rules : Rules)
        → IsUnknownPackage (given_in numbering context.now rules) (package_name_of «package».now) e) }
{
    if is_own(context, package) {
        return Err(unknown(state.alloc, package)?);
    }
    let loaded = load(state, context, package)?;
    match loaded {
        Some(id) => {
            let held = state.graph.package(id);
            Ok(Loaded {
                id,
                world: held.world,
            })
        }
        None => Err(unknown(state.alloc, package)?),
    }
}
