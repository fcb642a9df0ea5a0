//! Parts of expressions that hold no expression.

use crate::form::{Enclosed, Json};
use crate::parts::{enclosed, variant};
use wac_ast::{AccessExpr, InstantiationArgumentName, NamedAccessExpr, PostfixExpr};
use wac_lexer::Sink;
use wac_printer_pieces::{Pieces, PrintResult};

impl Json for AccessExpr<'_> {
    ghost use Rattle.wac_ast_statements.specs.Expressions.{access_expr_of};
    ghost use Rattle.wac_json_forms.specs.Forms.{access_expr_json};

    ghost form = { λ x. access_expr_json (access_expr_of x) };

    fn write<S: Sink>(&self, out: &mut Pieces<'_, S>) -> PrintResult {
        out.blank("{\"id\":{\"span\":{\"length\":")
            .and(self.id.write_inside(out))
            .and(out.blank("\"},\"span\":{\"length\":"))
            .and(self.span.write_inside(out))
            .and(out.blank("}}"))
    }
}

impl Json for NamedAccessExpr<'_> {
    ghost use Rattle.wac_ast_statements.specs.Expressions.{named_access_expr_of};
    ghost use Rattle.wac_json_forms.specs.Forms.{named_access_expr_json};

    ghost form = { λ x. named_access_expr_json (named_access_expr_of x) };

    fn write<S: Sink>(&self, out: &mut Pieces<'_, S>) -> PrintResult {
        out.blank("{\"span\":{\"length\":")
            .and(self.span.write_inside(out))
            .and(out.blank("},\"string\":{\"span\":{\"length\":"))
            .and(self.string.write_inside(out))
            .and(out.blank("\"}}"))
    }
}

impl Json for PostfixExpr<'_> {
    ghost use Rattle.wac_ast_statements.specs.Expressions.{postfix_expr_of};
    ghost use Rattle.wac_json_forms.specs.Forms.{postfix_expr_json};

    ghost form = { λ x. postfix_expr_json (postfix_expr_of x) };

    fn write<S: Sink>(&self, out: &mut Pieces<'_, S>) -> PrintResult {
        match self {
            PostfixExpr::Access(part) => variant("{\"access\":", part, out),
            PostfixExpr::NamedAccess(part) => variant("{\"namedAccess\":", part, out),
        }
    }
}

impl Json for InstantiationArgumentName<'_> {
    ghost use Rattle.wac_ast_statements.specs.Expressions.{argument_name_of};
    ghost use Rattle.wac_json_forms.specs.Forms.{argument_name_json};

    ghost form = { λ x. argument_name_json (argument_name_of x) };

    fn write<S: Sink>(&self, out: &mut Pieces<'_, S>) -> PrintResult {
        match self {
            InstantiationArgumentName::Ident(part) => enclosed(
                "{\"ident\":{\"span\":{\"length\":",
                part,
                "\"}}",
                out,
            ),
            InstantiationArgumentName::String(part) => enclosed(
                "{\"string\":{\"span\":{\"length\":",
                part,
                "\"}}",
                out,
            ),
        }
    }
}
