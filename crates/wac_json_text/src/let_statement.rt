//! Let statements.

use crate::form::{Enclosed, Json};
use wac_ast::LetStatement;
use wac_lexer::Sink;
use wac_printer_pieces::{Pieces, PrintResult};

impl Json for LetStatement<'_> {
    ghost use Rattle.wac_ast_statements.specs.Statements.{let_statement_of};
    ghost use Rattle.wac_json_forms.specs.Forms.{let_statement_json};

    ghost form = { λ x. let_statement_json (let_statement_of x) };

    fn write<S: Sink>(&self, out: &mut Pieces<'_, S>) -> PrintResult {
        out.blank("{\"docs\":[")
            .and(self.docs.write_inside(out))
            .and(out.blank("],\"expr\":"))
            .and(self.expr.write(out))
            .and(out.blank(",\"id\":{\"span\":{\"length\":"))
            .and(self.id.write_inside(out))
            .and(out.blank("\"}}"))
    }
}
