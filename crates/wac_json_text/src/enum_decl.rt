//! Enums.

use crate::form::{Enclosed, Json};
use wac_ast::{EnumCase, EnumDecl};
use wac_lexer::Sink;
use wac_printer_pieces::{Pieces, PrintResult};

impl Json for EnumDecl<'_> {
    ghost use Rattle.wac_ast_types.specs.Declarations.{enum_decl_of};
    ghost use Rattle.wac_json_forms.specs.Forms.{enum_decl_json};

    ghost form = { λ x. enum_decl_json (enum_decl_of x) };

    fn write<S: Sink>(&self, out: &mut Pieces<'_, S>) -> PrintResult {
        out.blank("{\"cases\":[")
            .and(self.cases.write_inside(out))
            .and(out.blank("],\"docs\":["))
            .and(self.docs.write_inside(out))
            .and(out.blank("],\"id\":{\"span\":{\"length\":"))
            .and(self.id.write_inside(out))
            .and(out.blank("\"}}"))
    }
}

impl Json for EnumCase<'_> {
    ghost use Rattle.wac_ast_types.specs.Declarations.{enum_case_of};
    ghost use Rattle.wac_json_forms.specs.Forms.{enum_case_json};

    ghost form = { λ x. enum_case_json (enum_case_of x) };

    fn write<S: Sink>(&self, out: &mut Pieces<'_, S>) -> PrintResult {
        out.blank("{\"docs\":[")
            .and(self.docs.write_inside(out))
            .and(out.blank("],\"id\":{\"span\":{\"length\":"))
            .and(self.id.write_inside(out))
            .and(out.blank("\"}}"))
    }
}
