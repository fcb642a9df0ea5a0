//! Interfaces.

use crate::form::{Enclosed, Json};
use crate::parts::variant;
use wac_ast::{InlineInterface, InterfaceDecl, InterfaceExport, InterfaceItem};
use wac_lexer::Sink;
use wac_printer_pieces::{Pieces, PrintResult};

impl Json for InterfaceExport<'_> {
    ghost use Rattle.wac_ast_worlds.specs.Worlds.{interface_export_of};
    ghost use Rattle.wac_json_forms.specs.Forms.{interface_export_json};

    ghost form = { λ x. interface_export_json (interface_export_of x) };

    fn write<S: Sink>(&self, out: &mut Pieces<'_, S>) -> PrintResult {
        out.blank("{\"docs\":[")
            .and(self.docs.write_inside(out))
            .and(out.blank("],\"id\":{\"span\":{\"length\":"))
            .and(self.id.write_inside(out))
            .and(out.blank("\"},\"ty\":"))
            .and(self.ty.write(out))
            .and(out.blank("}"))
    }
}

impl Json for InterfaceDecl<'_> {
    ghost use Rattle.wac_ast_worlds.specs.Worlds.{interface_decl_of};
    ghost use Rattle.wac_json_forms.specs.Forms.{interface_decl_json};

    ghost form = { λ x. interface_decl_json (interface_decl_of x) };

    fn write<S: Sink>(&self, out: &mut Pieces<'_, S>) -> PrintResult {
        out.blank("{\"docs\":[")
            .and(self.docs.write_inside(out))
            .and(out.blank("],\"id\":{\"span\":{\"length\":"))
            .and(self.id.write_inside(out))
            .and(out.blank("\"},\"items\":["))
            .and(self.items.write_inside(out))
            .and(out.blank("]}"))
    }
}

impl Json for InlineInterface<'_> {
    ghost use Rattle.wac_ast_worlds.specs.Worlds.{inline_interface_of};
    ghost use Rattle.wac_json_forms.specs.Forms.{inline_interface_json};

    ghost form = { λ x. inline_interface_json (inline_interface_of x) };

    fn write<S: Sink>(&self, out: &mut Pieces<'_, S>) -> PrintResult {
        out.blank("{\"items\":[")
            .and(self.items.write_inside(out))
            .and(out.blank("]}"))
    }
}

impl Json for InterfaceItem<'_> {
    ghost use Rattle.wac_ast_worlds.specs.Worlds.{interface_item_of};
    ghost use Rattle.wac_json_forms.specs.Forms.{interface_item_json};

    ghost form = { λ x. interface_item_json (interface_item_of x) };

    fn write<S: Sink>(&self, out: &mut Pieces<'_, S>) -> PrintResult {
        match self {
            InterfaceItem::Use(part) => variant("{\"use\":", &**part, out),
            InterfaceItem::Ty(part) => variant("{\"type\":", part, out),
            InterfaceItem::Export(part) => variant("{\"export\":", part, out),
        }
    }
}
