//! Records.

use crate::form::{Enclosed, Json};
use wac_ast::{Field, RecordDecl};
use wac_lexer::Sink;
use wac_printer_pieces::{Pieces, PrintResult};

impl Json for RecordDecl<'_> {
    ghost use Rattle.wac_ast_types.specs.Declarations.{record_decl_of};
    ghost use Rattle.wac_json_forms.specs.Forms.{record_decl_json};

    ghost form = { λ x. record_decl_json (record_decl_of x) };

    fn write<S: Sink>(&self, out: &mut Pieces<'_, S>) -> PrintResult {
        out.blank("{\"docs\":[")
            .and(self.docs.write_inside(out))
            .and(out.blank("],\"fields\":["))
            .and(self.fields.write_inside(out))
            .and(out.blank("],\"id\":{\"span\":{\"length\":"))
            .and(self.id.write_inside(out))
            .and(out.blank("\"}}"))
    }
}

impl Json for Field<'_> {
    ghost use Rattle.wac_ast_types.specs.Declarations.{field_of};
    ghost use Rattle.wac_json_forms.specs.Forms.{field_json};

    ghost form = { λ x. field_json (field_of x) };

    fn write<S: Sink>(&self, out: &mut Pieces<'_, S>) -> PrintResult {
        out.blank("{\"docs\":[")
            .and(self.docs.write_inside(out))
            .and(out.blank("],\"id\":{\"span\":{\"length\":"))
            .and(self.id.write_inside(out))
            .and(out.blank("\"},\"ty\":"))
            .and(self.ty.write(out))
            .and(out.blank("}"))
    }
}
