//! Uses.

use crate::form::{Enclosed, Json};
use crate::parts::{enclosed, variant};
use wac_ast::{Use, UseItem, UsePath};
use wac_lexer::Sink;
use wac_printer_pieces::{Pieces, PrintResult};

impl Json for UseItem<'_> {
    ghost use Rattle.wac_ast_uses.specs.Uses.{use_item_of};
    ghost use Rattle.wac_json_forms.specs.Forms.{use_item_json};

    ghost form = { λ x. use_item_json (use_item_of x) };

    fn write<S: Sink>(&self, out: &mut Pieces<'_, S>) -> PrintResult {
        out.blank("{\"asId\":")
            .and(self.as_id.write(out))
            .and(out.blank(",\"id\":{\"span\":{\"length\":"))
            .and(self.id.write_inside(out))
            .and(out.blank("\"}}"))
    }
}

impl Json for Use<'_> {
    ghost use Rattle.wac_ast_uses.specs.Uses.{use_of};
    ghost use Rattle.wac_json_forms.specs.Forms.{use_json};

    ghost form = { λ x. use_json (use_of x) };

    fn write<S: Sink>(&self, out: &mut Pieces<'_, S>) -> PrintResult {
        out.blank("{\"docs\":[")
            .and(self.docs.write_inside(out))
            .and(out.blank("],\"items\":["))
            .and(self.items.write_inside(out))
            .and(out.blank("],\"path\":"))
            .and(self.path.write(out))
            .and(out.blank("}"))
    }
}

impl Json for UsePath<'_> {
    ghost use Rattle.wac_ast_uses.specs.Uses.{use_path_of};
    ghost use Rattle.wac_json_forms.specs.Forms.{use_path_json};

    ghost form = { λ x. use_path_json (use_path_of x) };

    fn write<S: Sink>(&self, out: &mut Pieces<'_, S>) -> PrintResult {
        match self {
            UsePath::Package(part) => variant("{\"package\":", part, out),
            UsePath::Ident(part) => enclosed(
                "{\"ident\":{\"span\":{\"length\":",
                part,
                "\"}}",
                out,
            ),
        }
    }
}
