//! Resolving, step by step: the statements, then the target.
ghost use Rattle.std.specs.Prelude.{◌≡◌, IfOk, OnOk, map, option_map};
ghost use Rattle.wac_ast.specs.Statements.{statement_of};
ghost use Rattle.wac_ast_base.specs.Names.{package_path_of};
ghost use Rattle.wac_graph.specs.Graph.{empty};
ghost use Rattle.wac_resolution_rules.specs.Errors.{ErrorSays};
ghost use Rattle.wac_resolution_rules.specs.Given.{rules_of};
ghost use Rattle.wac_resolution.specs.Steps.{Composed, Breaks};

use crate::lent::carry_out;
use crate::target::check_targets;
use std::alloc::Global;
use wac_ast::PackagePath;
use wac_ast::internals::Statements;
use wac_graph::{CompositionGraph, Rules};
use wac_resolution_errors::Error;
use wac_resolution_state::{Given, Root, Scope, State};
use wac_resolution_statements::Externs;

/// Executes the statements in an empty graph, and checks the target if there is one.
fn compose_in<'a, R: Rules>(
    statements: Statements<'_, 'a>,
    state: &mut State,
    given: &Given<'_, R>,
    targets: &Option<PackagePath<'_>>,
) -> Result<(), Error>
    requires { state.old.graph ≡ empty }
    ensures ok { OnOk result (Composed given.now.context.now (rules_of R.Rules given.now.rules.now)
        (map statement_of statements.entry) (option_map package_path_of targets.now) state.new.graph) }
    ensures err { ErrorSays result (λ e. Breaks given.now.context.now (rules_of R.Rules given.now.rules.now)
        (map statement_of statements.entry) (option_map package_path_of targets.now) e) }
{
    let mut root: Root<'a> = Root::new(state.alloc);
    let mut externs = Externs::new(state.alloc);
    match carry_out(statements, state, given, &mut root, &mut externs) {
        Ok(()) => {
            let scope = Scope {
                context: given.context,
                rules: given.rules,
                root: &root,
            };
            check_targets(state, &scope, &externs, targets)
        }
        Err(error) => Err(error),
    }
}

/// The graph of statements, which the target allows if there is one.
pub(crate) fn composed<R: Rules>(
    statements: Statements<'_, '_>,
    alloc: Global,
    given: &Given<'_, R>,
    targets: &Option<PackagePath<'_>>,
) -> Result<CompositionGraph, Error>
    ensures ok { IfOk result (λ g. Composed given.now.context.now (rules_of R.Rules given.now.rules.now)
        (map statement_of statements.entry) (option_map package_path_of targets.now) g) }
    ensures err { ErrorSays result (λ e. Breaks given.now.context.now (rules_of R.Rules given.now.rules.now)
        (map statement_of statements.entry) (option_map package_path_of targets.now) e) }
{
    let graph = CompositionGraph::new(alloc);
    let mut state = State { alloc, graph };
    match compose_in(statements, &mut state, given, targets) {
        Ok(()) => Ok(state.graph),
        Err(error) => Err(error),
    }
}
