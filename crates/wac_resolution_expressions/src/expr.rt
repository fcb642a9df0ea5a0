//! Expressions.
ghost use Rattle.std.specs.Prelude.{[], IfOk, OnOk, map};
ghost use Rattle.wac_ast_grammar.specs.Tree.{arguments_from};
ghost use Rattle.wac_graph_types.specs.Names.{by_name};
ghost use Rattle.wac_graph_types.specs.Table.{Names};
ghost use Rattle.wac_ast_statements.specs.Expressions.{argument_of, expr_of, new_expr_of, primary_expr_of};
ghost use Rattle.wac_resolution_rules.specs.Errors.{ErrorSays};
ghost use Rattle.wac_resolution_rules.specs.Given.{rules_of};
ghost use Rattle.wac_resolution_state.specs.Root.{numbers_of, Agrees};
ghost use Rattle.wac_resolution_state.specs.Expands.{AllSupplied};
ghost use Rattle.wac_resolution_state.specs.Context.{packages_in};
ghost use Rattle.wac_resolution_expressions.specs.Spreads.{GivenThere};
ghost use Rattle.wac_resolution_expressions.specs.Giving.{ArgumentStep, ArgumentBreaks, ArgumentSteps, ArgumentsBreak};
ghost use Rattle.wac_resolution_expressions.specs.Growth.{ExprStep, ExprBreaks};
ghost use Rattle.wac_resolution_expressions.specs.Primaries.{PrimaryStep, PrimaryBreaks};

use crate::completing::complete;
use crate::given::{check_last, give_inferred, give_named};
use crate::packages::instantiable;
use indexmap::IndexMap;
use wac_ast_statements::{Expr, InstantiationArgument, NewExpr, PrimaryExpr};
use wac_graph::{ItemKind, NodeId, Rules, WorldId};
use wac_resolution_errors::Error;
use wac_resolution_state::{Scope, State, accesses};

/// An argument whose turn it is.
#[derive(Clone, Copy)]
struct NextArgument<'x, 'a> {
    /// The argument.
    argument: &'x InstantiationArgument<'a>,
    /// Whether no other comes after it.
    is_last: bool,
}

/// The node that an expression denotes.
#[cycle(expression)]
pub fn expression<R: Rules>(
    expr: &Expr<'_>,
    state: &mut State,
    scope: &Scope<'_, '_, R>,
) -> Result<NodeId, Error>
    requires agrees { Agrees state.old.graph scope.now.root.now }
    requires supplied { AllSupplied (packages_in scope.now.context.now) state.old.graph }
    ensures ok { IfOk result (λ n. ExprStep scope.now.context.now (rules_of R.Rules scope.now.rules.now)
        state.old.graph state.new.graph (numbers_of scope.now.root.now.nodes) (expr_of expr.now) n.0) }
    ensures err { ErrorSays result (λ e. ExprBreaks scope.now.context.now (rules_of R.Rules scope.now.rules.now)
        state.old.graph (numbers_of scope.now.root.now.nodes) (expr_of expr.now) e) }
{
    let node = primary(&expr.primary, state, scope)?;
    accesses(state, node, expr.primary.span(), &expr.postfix)
}

/// The node that the beginning of an expression denotes.
#[cycle(expression)]
fn primary<R: Rules>(
    expr: &PrimaryExpr<'_>,
    state: &mut State,
    scope: &Scope<'_, '_, R>,
) -> Result<NodeId, Error>
    requires agrees { Agrees state.old.graph scope.now.root.now }
    requires supplied { AllSupplied (packages_in scope.now.context.now) state.old.graph }
    ensures ok { IfOk result (λ n. PrimaryStep scope.now.context.now (rules_of R.Rules scope.now.rules.now)
        state.old.graph state.new.graph (numbers_of scope.now.root.now.nodes) (primary_expr_of expr.now) n.0) }
    ensures err { ErrorSays result (λ e. PrimaryBreaks scope.now.context.now (rules_of R.Rules scope.now.rules.now)
        state.old.graph (numbers_of scope.now.root.now.nodes) (primary_expr_of expr.now) e) }
{
    match expr {
        PrimaryExpr::New(part) => instantiation(part, state, scope),
        PrimaryExpr::Nested(nested) => expression(&nested.inner, state, scope),
        PrimaryExpr::Ident(id) => scope.root.node(state.alloc, id),
    }
}

/// A new instance of a package. It has a frame of its own, so that parentheses don't take its stack.
#[cycle(expression)]
#[inline(never)]
fn instantiation<R: Rules>(
    new: &NewExpr<'_>,
    state: &mut State,
    scope: &Scope<'_, '_, R>,
) -> Result<NodeId, Error>
    requires agrees { Agrees state.old.graph scope.now.root.now }
    requires supplied { AllSupplied (packages_in scope.now.context.now) state.old.graph }
    ensures ok { IfOk result (λ n. PrimaryStep scope.now.context.now (rules_of R.Rules scope.now.rules.now)
        state.old.graph state.new.graph (numbers_of scope.now.root.now.nodes) (new_expr_of new.now) n.0) }
    ensures err { ErrorSays result (λ e. PrimaryBreaks scope.now.context.now (rules_of R.Rules scope.now.rules.now)
        state.old.graph (numbers_of scope.now.root.now.nodes) (new_expr_of new.now) e) }
{
    let of = instantiable(state, scope.context, &new.package)?;
    let mut given = IndexMap::new(state.alloc);
    arguments(&new.arguments, state, scope, of.world, &mut given)?;
    complete(new, state, scope, of, &mut given)
}

/// Gives the arguments that aren't spreads, in order.
#[cycle(expression)]
fn arguments<R: Rules>(
    arguments: &[InstantiationArgument<'_>],
    state: &mut State,
    scope: &Scope<'_, '_, R>,
    world: WorldId,
    given: &mut IndexMap<String, NodeId>,
) -> Result<(), Error>
    requires agrees { Agrees state.old.graph scope.now.root.now }
    requires supplied { AllSupplied (packages_in scope.now.context.now) state.old.graph }
    requires world { Names state.old.graph.types (ItemKind.Component world) }
    requires there { GivenThere state.old.graph (by_name given.old.entries) }
    ensures ok { OnOk result (ArgumentSteps scope.now.context.now (rules_of R.Rules scope.now.rules.now)
        state.old.graph state.new.graph (by_name given.old.entries) (by_name given.new.entries)
        (numbers_of scope.now.root.now.nodes) world (arguments_from (map argument_of arguments.now))) }
    ensures err { ErrorSays result (λ e. ArgumentsBreak scope.now.context.now (rules_of R.Rules scope.now.rules.now)
        state.old.graph (by_name given.old.entries) (numbers_of scope.now.root.now.nodes) world
        (arguments_from (map argument_of arguments.now)) e) }
{
    let mut left = arguments.len();
    for one in arguments {
        left -= 1;
        let next = NextArgument {
            argument: one,
            is_last: left == 0,
        };
        argument(state, scope, world, &next, given)?;
    }
    Ok(())
}

/// Gives an argument, unless it is a spread: the last one, or one before others.
#[cycle(expression)]
fn argument<R: Rules>(
    state: &mut State,
    scope: &Scope<'_, '_, R>,
    world: WorldId,
    next: &NextArgument<'_, '_>,
    given: &mut IndexMap<String, NodeId>,
) -> Result<(), Error>
    requires agrees { Agrees state.old.graph scope.now.root.now }
    requires supplied { AllSupplied (packages_in scope.now.context.now) state.old.graph }
    requires world { Names state.old.graph.types (ItemKind.Component world) }
    requires there { GivenThere state.old.graph (by_name given.old.entries) }
    ensures ok { OnOk result (ArgumentStep scope.now.context.now (rules_of R.Rules scope.now.rules.now)
        state.old.graph state.new.graph (by_name given.old.entries) (by_name given.new.entries)
        (numbers_of scope.now.root.now.nodes) world next.now.is_last (argument_of next.now.argument.now)) }
    ensures err { ErrorSays result (λ e. ArgumentBreaks scope.now.context.now (rules_of R.Rules scope.now.rules.now)
        state.old.graph (by_name given.old.entries) (numbers_of scope.now.root.now.nodes) world next.now.is_last
        (argument_of next.now.argument.now) e) }
{
    match next.argument {
        InstantiationArgument::Inferred(id) => give_inferred(state, scope.root, world, id, given),
        InstantiationArgument::Spread(_) => Ok(()),
        InstantiationArgument::Named(named) => {
            let node = expression(&named.expr, state, scope)?;
            give_named(state, world, &named.name, node, given)
        }
        InstantiationArgument::Fill(span) => check_last(next.is_last, *span),
    }
}
