//! What expressions mention.
ghost use Rattle.std.specs.Prelude.{OnOk, map};
ghost use Rattle.wac_ast_grammar.specs.Tree.{arguments_from};
ghost use Rattle.wac_ast_statements.specs.Expressions.{argument_of, expr_of, new_expr_of, primary_expr_of};
ghost use Rattle.wac_resolution_rules.specs.Mentions.{argument_mentions, arguments_mentions, expr_mentions, primary_mentions};
ghost use Rattle.wac_resolution.specs.Noted.{Notes};

use crate::mentions::Mentions;
use std::alloc::AllocError;
use wac_ast_statements::{Expr, InstantiationArgument, NewExpr, PrimaryExpr};

/// Notes what an expression mentions.
#[cycle(expression)]
pub(crate) fn expression(expr: &Expr<'_>, mentions: &mut Mentions<'_>) -> Result<(), AllocError>
    ensures { OnOk result (Notes mentions.old mentions.new (expr_mentions mentions.old.own (expr_of expr.now))) }
{
    primary(&expr.primary, mentions)
}

/// Notes what the beginning of an expression mentions.
#[cycle(expression)]
fn primary(expr: &PrimaryExpr<'_>, mentions: &mut Mentions<'_>) -> Result<(), AllocError>
    ensures { OnOk result (Notes mentions.old mentions.new
        (primary_mentions mentions.old.own (primary_expr_of expr.now))) }
{
    match expr {
        PrimaryExpr::New(new) => instantiation(new, mentions),
        PrimaryExpr::Nested(nested) => expression(&nested.inner, mentions),
        PrimaryExpr::Ident(_) => Ok(()),
    }
}

/// Notes what a `new` mentions: the package, and what its arguments mention.
#[cycle(expression)]
fn instantiation(new: &NewExpr<'_>, mentions: &mut Mentions<'_>) -> Result<(), AllocError>
    ensures { OnOk result (Notes mentions.old mentions.new (primary_mentions mentions.old.own (new_expr_of new.now))) }
{
    mentions.name(&new.package)?;
    arguments(&new.arguments, mentions)
}

/// Notes what arguments mention.
#[cycle(expression)]
fn arguments(
    arguments: &[InstantiationArgument<'_>],
    mentions: &mut Mentions<'_>,
) -> Result<(), AllocError>
    ensures { OnOk result (Notes mentions.old mentions.new
        (arguments_mentions mentions.old.own (arguments_from (map argument_of arguments.now)))) }
{
    for one in arguments {
        argument(one, mentions)?;
    }
    Ok(())
}

/// Notes what an argument mentions.
#[cycle(expression)]
fn argument(
    argument: &InstantiationArgument<'_>,
    mentions: &mut Mentions<'_>,
) -> Result<(), AllocError>
    ensures { OnOk result (Notes mentions.old mentions.new
        (argument_mentions mentions.old.own (argument_of argument.now))) }
{
    match argument {
        InstantiationArgument::Named(named) => expression(&named.expr, mentions),
        InstantiationArgument::Inferred(_)
        | InstantiationArgument::Spread(_)
        | InstantiationArgument::Fill(_) => Ok(()),
    }
}
