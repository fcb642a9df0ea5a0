//! Expressions.
ghost use Rattle.std.specs.Prelude.{◌≡◌, ℕ, List, codes};
ghost use Rattle.std.specs.List.{flat_map};
ghost use Rattle.wac_ast_statements.specs.Expressions.{argument_name_of, expr_of, new_expr_of, primary_expr_of};
ghost use Rattle.wac_printer_pieces.specs.Printed.{Prints};
ghost use Rattle.wac_json_text.specs.Contents.{argument_pieces, named_json, nested_json};
ghost use Rattle.wac_json_forms.specs.Forms.{expr_json, primary_expr_json};
ghost use Rattle.wac_json_text.specs.Pieces.{after_comma, joined_pieces, pieces};

use crate::form::{Enclosed, Json};
use crate::parts::enclosed;
use wac_ast::{Expr, InstantiationArgument, InstantiationArgumentName, NewExpr, PrimaryExpr};
use wac_lexer::{Sink, SourceSpan};
use wac_printer_pieces::{Pieces, PrintResult};

impl Json for Expr<'_> {
    ghost form = { λ x. expr_json (expr_of x) };

    fn write<S: Sink>(&self, out: &mut Pieces<'_, S>) -> PrintResult {
        expr(self, out)
    }
}

/// Writes an expression.
#[cycle(expressions)]
pub(crate) fn expr<S: Sink>(tree: &Expr<'_>, out: &mut Pieces<'_, S>) -> PrintResult
    ensures { Prints out.old result out.new (pieces (expr_json (expr_of tree.now))) }
{
    out.blank("{\"postfix\":[")
        .and(tree.postfix.write_inside(out))
        .and(out.blank("],\"primary\":"))
        .and(primary(&tree.primary, out))
        .and(out.blank(",\"span\":{\"length\":"))
        .and(tree.span.write_inside(out))
        .and(out.blank("}}"))
}

/// Writes what an expression begins with.
#[cycle(expressions)]
fn primary<S: Sink>(tree: &PrimaryExpr<'_>, out: &mut Pieces<'_, S>) -> PrintResult
    ensures { Prints out.old result out.new (pieces (primary_expr_json (primary_expr_of tree.now))) }
{
    match tree {
        PrimaryExpr::New(tree) => new_expr(tree, out),
        PrimaryExpr::Nested(tree) => nested(&tree.inner, &tree.span, out),
        PrimaryExpr::Ident(id) => enclosed("{\"ident\":{\"span\":{\"length\":", id, "\"}}", out),
    }
}

/// Writes an expression in parentheses.
#[cycle(expressions)]
fn nested<S: Sink>(inner: &Expr<'_>, span: &SourceSpan, out: &mut Pieces<'_, S>) -> PrintResult
    ensures { Prints out.old result out.new (pieces (nested_json (expr_of inner.now) span.now)) }
{
    out.blank("{\"nested\":{\"inner\":")
        .and(expr(inner, out))
        .and(out.blank(",\"span\":{\"length\":"))
        .and(span.write_inside(out))
        .and(out.blank("}}}"))
}

/// Writes an instantiation.
#[cycle(expressions)]
fn new_expr<S: Sink>(tree: &NewExpr<'_>, out: &mut Pieces<'_, S>) -> PrintResult
    ensures { Prints out.old result out.new (pieces (primary_expr_json (new_expr_of tree.now))) }
{
    out.blank("{\"new\":{\"arguments\":[")
        .and(joined_arguments(&tree.arguments, out))
        .and(out.blank("],\"package\":"))
        .and(tree.package.write(out))
        .and(out.blank(",\"span\":{\"length\":"))
        .and(tree.span.write_inside(out))
        .and(out.blank("}}}"))
}

/// Writes arguments with a comma between two.
#[cycle(expressions)]
fn joined_arguments<S: Sink>(
    arguments: &[InstantiationArgument<'_>],
    out: &mut Pieces<'_, S>,
) -> PrintResult
    ensures { Prints out.old result out.new (joined_pieces argument_pieces arguments.now) }
{
    match arguments.split_first() {
        None => out.ready(),
        Some((first, rest)) => {
            argument(first, out)?;
            further_arguments(rest, out)
        }
    }
}

/// Writes arguments, each after a comma.
#[cycle(expressions)]
fn further_arguments<S: Sink>(
    arguments: &[InstantiationArgument<'_>],
    out: &mut Pieces<'_, S>,
) -> PrintResult
    ensures { Prints out.old result out.new (flat_map (λ x. after_comma (argument_pieces x)) arguments.now) }
{
    out.ready()?;
    for tree in arguments {
        further_argument(tree, out)?;
    }
    Ok(())
}

#[cycle(expressions)]
fn further_argument<S: Sink>(
    tree: &InstantiationArgument<'_>,
    out: &mut Pieces<'_, S>,
) -> PrintResult
    ensures { Prints out.old result out.new (after_comma (argument_pieces tree.now)) }
{
    out.blank(",").and(argument(tree, out))
}

/// Writes an argument.
#[cycle(expressions)]
fn argument<S: Sink>(tree: &InstantiationArgument<'_>, out: &mut Pieces<'_, S>) -> PrintResult
    ensures { Prints out.old result out.new (argument_pieces tree.now) }
{
    match tree {
        InstantiationArgument::Inferred(id) => enclosed(
            "{\"inferred\":{\"span\":{\"length\":",
            id,
            "\"}}",
            out,
        ),
        InstantiationArgument::Spread(id) => enclosed(
            "{\"spread\":{\"span\":{\"length\":",
            id,
            "\"}}",
            out,
        ),
        InstantiationArgument::Named(argument) => named(&argument.expr, &argument.name, out),
        InstantiationArgument::Fill(span) => enclosed("{\"fill\":{\"length\":", span, "}}", out),
    }
}

/// Writes a named argument.
#[cycle(expressions)]
fn named<S: Sink>(
    value: &Expr<'_>,
    name: &InstantiationArgumentName<'_>,
    out: &mut Pieces<'_, S>,
) -> PrintResult
    ensures { Prints out.old result out.new (pieces (named_json (expr_of value.now) (argument_name_of name.now))) }
{
    out.blank("{\"named\":{\"expr\":")
        .and(expr(value, out))
        .and(out.blank(",\"name\":"))
        .and(name.write(out))
        .and(out.blank("}}"))
}
