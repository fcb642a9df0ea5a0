//! Flags.

use crate::form::{Enclosed, Json};
use wac_ast::{Flag, FlagsDecl};
use wac_lexer::Sink;
use wac_printer_pieces::{Pieces, PrintResult};

impl Json for FlagsDecl<'_> {
    ghost use Rattle.wac_ast_types.specs.Declarations.{flags_decl_of};
    ghost use Rattle.wac_json_forms.specs.Forms.{flags_decl_json};

    ghost form = { λ x. flags_decl_json (flags_decl_of x) };

    fn write<S: Sink>(&self, out: &mut Pieces<'_, S>) -> PrintResult {
        out.blank("{\"docs\":[")
            .and(self.docs.write_inside(out))
            .and(out.blank("],\"flags\":["))
            .and(self.flags.write_inside(out))
            .and(out.blank("],\"id\":{\"span\":{\"length\":"))
            .and(self.id.write_inside(out))
            .and(out.blank("\"}}"))
    }
}

impl Json for Flag<'_> {
    ghost use Rattle.wac_ast_types.specs.Declarations.{flag_of};
    ghost use Rattle.wac_json_forms.specs.Forms.{flag_json};

    ghost form = { λ x. flag_json (flag_of x) };

    fn write<S: Sink>(&self, out: &mut Pieces<'_, S>) -> PrintResult {
        out.blank("{\"docs\":[")
            .and(self.docs.write_inside(out))
            .and(out.blank("],\"id\":{\"span\":{\"length\":"))
            .and(self.id.write_inside(out))
            .and(out.blank("\"}}"))
    }
}
