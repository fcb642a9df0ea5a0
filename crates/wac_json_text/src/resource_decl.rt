//! Resources.

use crate::form::{Enclosed, Json};
use crate::parts::variant;
use wac_ast::{Constructor, Method, ResourceDecl, ResourceMethod};
use wac_lexer::Sink;
use wac_printer_pieces::{Pieces, PrintResult};

impl Json for ResourceDecl<'_> {
    ghost use Rattle.wac_ast_types.specs.Declarations.{resource_decl_of};
    ghost use Rattle.wac_json_forms.specs.Forms.{resource_decl_json};

    ghost form = { λ x. resource_decl_json (resource_decl_of x) };

    fn write<S: Sink>(&self, out: &mut Pieces<'_, S>) -> PrintResult {
        out.blank("{\"docs\":[")
            .and(self.docs.write_inside(out))
            .and(out.blank("],\"id\":{\"span\":{\"length\":"))
            .and(self.id.write_inside(out))
            .and(out.blank("\"},\"methods\":["))
            .and(self.methods.write_inside(out))
            .and(out.blank("]}"))
    }
}

impl Json for Constructor<'_> {
    ghost use Rattle.wac_ast_types.specs.Declarations.{constructor_of};
    ghost use Rattle.wac_json_forms.specs.Forms.{constructor_json};

    ghost form = { λ x. constructor_json (constructor_of x) };

    fn write<S: Sink>(&self, out: &mut Pieces<'_, S>) -> PrintResult {
        out.blank("{\"docs\":[")
            .and(self.docs.write_inside(out))
            .and(out.blank("],\"params\":["))
            .and(self.params.write_inside(out))
            .and(out.blank("],\"span\":{\"length\":"))
            .and(self.span.write_inside(out))
            .and(out.blank("}}"))
    }
}

impl Json for Method<'_> {
    ghost use Rattle.wac_ast_types.specs.Declarations.{method_of};
    ghost use Rattle.wac_json_forms.specs.Forms.{method_json};

    ghost form = { λ x. method_json (method_of x) };

    fn write<S: Sink>(&self, out: &mut Pieces<'_, S>) -> PrintResult {
        out.blank("{\"docs\":[")
            .and(self.docs.write_inside(out))
            .and(out.blank("],\"id\":{\"span\":{\"length\":"))
            .and(self.id.write_inside(out))
            .and(out.blank("\"},\"isStatic\":"))
            .and(self.is_static.write(out))
            .and(out.blank(",\"ty\":"))
            .and(self.ty.write(out))
            .and(out.blank("}"))
    }
}

impl Json for ResourceMethod<'_> {
    ghost use Rattle.wac_ast_types.specs.Declarations.{resource_method_of};
    ghost use Rattle.wac_json_forms.specs.Forms.{resource_method_json};

    ghost form = { λ x. resource_method_json (resource_method_of x) };

    fn write<S: Sink>(&self, out: &mut Pieces<'_, S>) -> PrintResult {
        match self {
            ResourceMethod::Constructor(part) => variant("{\"constructor\":", part, out),
            ResourceMethod::Method(part) => variant("{\"method\":", part, out),
        }
    }
}
