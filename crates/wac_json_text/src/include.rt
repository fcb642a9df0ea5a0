//! Includes.

use crate::form::{Enclosed, Json};
use crate::parts::{enclosed, variant};
use wac_ast::{WorldInclude, WorldIncludeItem, WorldRef};
use wac_lexer::Sink;
use wac_printer_pieces::{Pieces, PrintResult};

impl Json for WorldIncludeItem<'_> {
    ghost use Rattle.wac_ast_uses.specs.Uses.{world_include_item_of};
    ghost use Rattle.wac_json_forms.specs.Forms.{world_include_item_json};

    ghost form = { λ x. world_include_item_json (world_include_item_of x) };

    fn write<S: Sink>(&self, out: &mut Pieces<'_, S>) -> PrintResult {
        out.blank("{\"from\":{\"span\":{\"length\":")
            .and(self.from.write_inside(out))
            .and(out.blank("\"},\"to\":{\"span\":{\"length\":"))
            .and(self.to.write_inside(out))
            .and(out.blank("\"}}"))
    }
}

impl Json for WorldInclude<'_> {
    ghost use Rattle.wac_ast_uses.specs.Uses.{world_include_of};
    ghost use Rattle.wac_json_forms.specs.Forms.{world_include_json};

    ghost form = { λ x. world_include_json (world_include_of x) };

    fn write<S: Sink>(&self, out: &mut Pieces<'_, S>) -> PrintResult {
        out.blank("{\"docs\":[")
            .and(self.docs.write_inside(out))
            .and(out.blank("],\"with\":["))
            .and(self.with.write_inside(out))
            .and(out.blank("],\"world\":"))
            .and(self.world.write(out))
            .and(out.blank("}"))
    }
}

impl Json for WorldRef<'_> {
    ghost use Rattle.wac_ast_uses.specs.Uses.{world_ref_of};
    ghost use Rattle.wac_json_forms.specs.Forms.{world_ref_json};

    ghost form = { λ x. world_ref_json (world_ref_of x) };

    fn write<S: Sink>(&self, out: &mut Pieces<'_, S>) -> PrintResult {
        match self {
            WorldRef::Ident(part) => enclosed(
                "{\"ident\":{\"span\":{\"length\":",
                part,
                "\"}}",
                out,
            ),
            WorldRef::Package(part) => variant("{\"package\":", part, out),
        }
    }
}
