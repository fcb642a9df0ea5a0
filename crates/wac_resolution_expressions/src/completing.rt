//! The rest of an instantiation, after the arguments that aren't spreads were given.
ghost use Rattle.std.specs.Prelude.{◌≡◌, IfOk, OnOk, map};
ghost use Rattle.wac_ast_grammar.specs.Tree.{arguments_from};
ghost use Rattle.wac_graph_types.specs.Names.{by_name};
ghost use Rattle.wac_graph_types.specs.Table.{Names};
ghost use Rattle.wac_ast_base.specs.Names.{package_name_of};
ghost use Rattle.wac_ast_statements.specs.Expressions.{argument_of};
ghost use Rattle.wac_resolution_errors.specs.ErrorModel.{error_model};
ghost use Rattle.wac_resolution_rules.specs.Errors.{ErrorSays};
ghost use Rattle.wac_resolution_rules.specs.Given.{rules_of};
ghost use Rattle.wac_resolution_state.specs.Root.{numbers_of, Agrees};
ghost use Rattle.wac_resolution_expressions.specs.Fits.{AllFit};
ghost use Rattle.wac_resolution_expressions.specs.Spreads.{GivenThere};
ghost use Rattle.wac_resolution_expressions.specs.Completing.{misfit_of, AreRight, AreWrong, Completes, FailsToComplete};
ghost use Rattle.wac_resolution_expressions.specs.Loaded.{IsThere};
ghost use Rattle.wac_resolution_expressions.specs.Places.{StandThemselves, StandSomewhere};

use crate::fits::misfit;
use crate::instance::instantiate;
use crate::left_out::check_complete;
use crate::packages::Loaded;
use crate::places::place;
use crate::spread_arguments::spreads;
use indexmap::IndexMap;
use std::alloc::{AllocError, Global};
use wac_ast_base::PackageName;
use wac_ast_statements::NewExpr;
use wac_graph::{ItemKind, NodeId, Reason, Rules, WorldId};
use wac_lexer::SourceSpan;
use wac_resolution_errors::Error;
use wac_resolution_state::{Scope, State};

/// What is reported of an argument that doesn't fit. Without a reason it is for no import.
#[cold]
#[inline(never)]
fn misfitting(
    alloc: Global,
    package: &PackageName<'_>,
    name: &str,
    reason: Option<Reason>,
    span: SourceSpan,
) -> Result<Error, AllocError>
    ensures { IfOk result (λ e. error_model e ≡ misfit_of «package».now.name.now name.now reason span) }
{
    match reason {
        Some(source) => Ok(Error::MismatchedInstantiationArg {
            name: String::from_str(alloc, name)?,
            source,
            span,
        }),
        None => Ok(Error::MissingComponentImport {
            package: String::from_str(alloc, package.name)?,
            import: String::from_str(alloc, name)?,
            span,
        }),
    }
}

/// Rejects an argument that doesn't fit.
fn check_fit<R: Rules>(
    new: &NewExpr<'_>,
    state: &State,
    scope: &Scope<'_, '_, R>,
    world: WorldId,
    given: &IndexMap<String, NodeId>,
) -> Result<(), Error>
    requires agrees { Agrees state.now.graph scope.now.root.now }
    requires there { GivenThere state.now.graph (by_name given.now.entries) }
    requires world { Names state.now.graph.types (ItemKind.Component world) }
    requires stand { StandSomewhere state.now.graph (numbers_of scope.now.root.now.nodes) world
        (arguments_from (map argument_of new.now.arguments.items)) (by_name given.now.entries) }
    ensures ok { OnOk result (AllFit (rules_of R.Rules scope.now.rules.now) state.now.graph world
        (by_name given.now.entries)) }
    ensures err { ErrorSays result (λ e. AreWrong (rules_of R.Rules scope.now.rules.now) state.now.graph
        (numbers_of scope.now.root.now.nodes) world (package_name_of new.now.«package»)
        (arguments_from (map argument_of new.now.arguments.items)) (by_name given.now.entries) e) }
{
    match misfit(state, scope.rules, world, given) {
        Some((name, reason)) => {
            let place = place(&new.arguments, state, scope.root, world, name);
            let span = place.unwrap_or(new.package.span);
            Err(misfitting(state.alloc, &new.package, name, reason, span)?)
        }
        None => Ok(()),
    }
}

/// Rejects an argument that doesn't fit, and an import that is left out.
fn check_arguments<R: Rules>(
    new: &NewExpr<'_>,
    state: &State,
    scope: &Scope<'_, '_, R>,
    world: WorldId,
    given: &IndexMap<String, NodeId>,
) -> Result<(), Error>
    requires agrees { Agrees state.now.graph scope.now.root.now }
    requires there { GivenThere state.now.graph (by_name given.now.entries) }
    requires world { Names state.now.graph.types (ItemKind.Component world) }
    requires stand { StandSomewhere state.now.graph (numbers_of scope.now.root.now.nodes) world
        (arguments_from (map argument_of new.now.arguments.items)) (by_name given.now.entries) }
    ensures ok { OnOk result (AreRight (rules_of R.Rules scope.now.rules.now) state.now.graph world
        (arguments_from (map argument_of new.now.arguments.items)) (by_name given.now.entries)) }
    ensures err { ErrorSays result (λ e. AreWrong (rules_of R.Rules scope.now.rules.now) state.now.graph
        (numbers_of scope.now.root.now.nodes) world (package_name_of new.now.«package»)
        (arguments_from (map argument_of new.now.arguments.items)) (by_name given.now.entries) e) }
{
    check_fit(new, state, scope, world, given)?;
    check_complete(&new.arguments, state, &new.package, world, given)
}

/// Gives what spreads give, and makes the instance if each argument is right.
#[inline(never)]
pub fn complete<R: Rules>(
    new: &NewExpr<'_>,
    state: &mut State,
    scope: &Scope<'_, '_, R>,
    of: Loaded,
    given: &mut IndexMap<String, NodeId>,
) -> Result<NodeId, Error>
    requires agrees { Agrees state.old.graph scope.now.root.now }
    requires loaded { IsThere state.old.graph of }
    requires there { GivenThere state.old.graph (by_name given.old.entries) }
    requires stand { StandThemselves state.old.graph (numbers_of scope.now.root.now.nodes) of.world
        (arguments_from (map argument_of new.now.arguments.items)) (by_name given.old.entries) }
    ensures ok { IfOk result (λ n. Completes (rules_of R.Rules scope.now.rules.now)
        state.old.graph state.new.graph (numbers_of scope.now.root.now.nodes) of
        (arguments_from (map argument_of new.now.arguments.items)) (by_name given.old.entries) n.0) }
    ensures err { ErrorSays result (λ e. FailsToComplete (rules_of R.Rules scope.now.rules.now) state.old.graph
        (numbers_of scope.now.root.now.nodes) of.world (package_name_of new.now.«package»)
        (arguments_from (map argument_of new.now.arguments.items)) (by_name given.old.entries) e) }
{
    spreads(&new.arguments, state, scope.root, of.world, given)?;
    check_arguments(new, state, scope, of.world, given)?;
    Ok(instantiate(state, of.id, given)?)
}
