//! Names in expressions.
ghost use Rattle.std.specs.Prelude.{◌≡◌, OnOk, map};
ghost use Rattle.wac_ast_grammar.specs.Tree.{arguments_from};
ghost use Rattle.wac_ast_statements.specs.Expressions.{argument_of, expr_of, new_expr_of, primary_expr_of};
ghost use Rattle.wac_names.specs.Steps.{argument_steps, arguments_steps, expr_steps, primary_steps};
ghost use Rattle.wac_names.specs.Traced.{Takes};

use crate::finder::Finder;
use crate::paths::at_root;
use crate::place::after;
use std::alloc::AllocError;
use wac_ast_base::{Ident, String};
use wac_ast_statements::{Expr, InstantiationArgument, NewExpr, PostfixExpr, PrimaryExpr};
use wac_lexer::SourceSpan;

/// Notes the names of an expression, and returns the scope after it.
#[cycle(expression)]
pub(crate) fn expression<'a>(
    expr: &Expr<'a>,
    finder: &mut Finder<'a>,
) -> Result<Option<usize>, AllocError>
    ensures { OnOk result (Takes finder.old finder.new (expr_steps (expr_of expr.now))) }
{
    let scope = primary(&expr.primary, finder)?;
    accesses(&expr.postfix, finder, scope)
}

/// Notes the names of the beginning of an expression, and returns the scope after it. What a new instance exports is
/// declared in another package.
#[cycle(expression)]
fn primary<'a>(expr: &PrimaryExpr<'a>, finder: &mut Finder<'a>) -> Result<Option<usize>, AllocError>
    ensures { OnOk result (Takes finder.old finder.new (primary_steps (primary_expr_of expr.now))) }
{
    match expr {
        PrimaryExpr::New(new) => {
            instantiation(new, finder)?;
            Ok(None)
        }
        PrimaryExpr::Nested(nested) => expression(&nested.inner, finder),
        PrimaryExpr::Ident(id) => at_root(finder, id),
    }
}

/// Notes the names of a `new`.
#[cycle(expression)]
fn instantiation<'a>(new: &NewExpr<'a>, finder: &mut Finder<'a>) -> Result<(), AllocError>
    ensures { OnOk result (Takes finder.old finder.new (primary_steps (new_expr_of new.now))) }
{
    arguments(&new.arguments, finder)
}

/// Notes the names of arguments.
#[cycle(expression)]
fn arguments<'a>(
    arguments: &[InstantiationArgument<'a>],
    finder: &mut Finder<'a>,
) -> Result<(), AllocError>
    ensures { OnOk result (Takes finder.old finder.new
        (arguments_steps (arguments_from (map argument_of arguments.now)))) }
{
    for one in arguments {
        argument(one, finder)?;
    }
    Ok(())
}

/// Notes the names of an argument. What is before a colon is the name of another package's import.
#[cycle(expression)]
fn argument<'a>(
    argument: &InstantiationArgument<'a>,
    finder: &mut Finder<'a>,
) -> Result<(), AllocError>
    ensures { OnOk result (Takes finder.old finder.new (argument_steps (argument_of argument.now))) }
{
    match argument {
        InstantiationArgument::Inferred(id) | InstantiationArgument::Spread(id) => {
            at_root(finder, id)?;
            Ok(())
        }
        InstantiationArgument::Named(named) => {
            expression(&named.expr, finder)?;
            Ok(())
        }
        InstantiationArgument::Fill(_) => Ok(()),
    }
}

/// A text in quotes as an identifier: without them.
fn unquoted<'a>(text: &String<'a>) -> Ident<'a> {
    let start = text.span.offset().saturating_add(1);
    Ident {
        string: text.value,
        span: SourceSpan::new(start, text.value.len()),
    }
}

/// The name of the export that an access is to.
fn accessed<'a>(access: &PostfixExpr<'a>) -> Ident<'a> {
    match access {
        PostfixExpr::Access(access) => Ident {
            string: access.id.string,
            span: access.id.span,
        },
        PostfixExpr::NamedAccess(access) => unquoted(&access.string),
    }
}

/// Notes the names of accesses to what has this scope after it, and returns the scope after the last.
fn accesses<'a>(
    accesses: &[PostfixExpr<'a>],
    finder: &mut Finder<'a>,
    scope: Option<usize>,
) -> Result<Option<usize>, AllocError>
    ensures { OnOk result (finder.new ≡ finder.old) }
{
    let mut scope = scope;
    for access in accesses {
        let id = accessed(access);
        let found = finder.member(scope, &id)?;
        scope = after(found);
    }
    Ok(scope)
}
