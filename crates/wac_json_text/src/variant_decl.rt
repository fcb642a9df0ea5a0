//! Variants.

use crate::form::{Enclosed, Json};
use wac_ast::{VariantCase, VariantDecl};
use wac_lexer::Sink;
use wac_printer_pieces::{Pieces, PrintResult};

impl Json for VariantDecl<'_> {
    ghost use Rattle.wac_ast_types.specs.Declarations.{variant_decl_of};
    ghost use Rattle.wac_json_forms.specs.Forms.{variant_decl_json};

    ghost form = { λ x. variant_decl_json (variant_decl_of x) };

    fn write<S: Sink>(&self, out: &mut Pieces<'_, S>) -> PrintResult {
        out.blank("{\"cases\":[")
            .and(self.cases.write_inside(out))
            .and(out.blank("],\"docs\":["))
            .and(self.docs.write_inside(out))
            .and(out.blank("],\"id\":{\"span\":{\"length\":"))
            .and(self.id.write_inside(out))
            .and(out.blank("\"}}"))
    }
}

impl Json for VariantCase<'_> {
    ghost use Rattle.wac_ast_types.specs.Declarations.{variant_case_of};
    ghost use Rattle.wac_json_forms.specs.Forms.{variant_case_json};

    ghost form = { λ x. variant_case_json (variant_case_of x) };

    fn write<S: Sink>(&self, out: &mut Pieces<'_, S>) -> PrintResult {
        out.blank("{\"docs\":[")
            .and(self.docs.write_inside(out))
            .and(out.blank("],\"id\":{\"span\":{\"length\":"))
            .and(self.id.write_inside(out))
            .and(out.blank("\"},\"ty\":"))
            .and(self.ty.write(out))
            .and(out.blank("}"))
    }
}
