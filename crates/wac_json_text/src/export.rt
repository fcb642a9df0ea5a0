//! Exports.

use crate::form::{Enclosed, Json};
use crate::parts::{enclosed, variant};
use wac_ast::{ExportOptions, ExportStatement};
use wac_lexer::Sink;
use wac_printer_pieces::{Pieces, PrintResult};

impl Json for ExportStatement<'_> {
    ghost use Rattle.wac_ast_statements.specs.Statements.{export_statement_of};
    ghost use Rattle.wac_json_forms.specs.Forms.{export_statement_json};

    ghost form = { λ x. export_statement_json (export_statement_of x) };

    fn write<S: Sink>(&self, out: &mut Pieces<'_, S>) -> PrintResult {
        out.blank("{\"docs\":[")
            .and(self.docs.write_inside(out))
            .and(out.blank("],\"expr\":"))
            .and(self.expr.write(out))
            .and(out.blank(",\"options\":"))
            .and(self.options.write(out))
            .and(out.blank("}"))
    }
}

impl Json for ExportOptions<'_> {
    ghost use Rattle.wac_ast_statements.specs.Statements.{export_options_of};
    ghost use Rattle.wac_json_forms.specs.Forms.{export_options_json};

    ghost form = { λ x. export_options_json (export_options_of x) };

    fn write<S: Sink>(&self, out: &mut Pieces<'_, S>) -> PrintResult {
        match self {
            ExportOptions::None => "none".write(out),
            ExportOptions::Spread(part) => enclosed("{\"spread\":{\"length\":", part, "}}", out),
            ExportOptions::Rename(part) => variant("{\"rename\":", part, out),
        }
    }
}
