//! Worlds.
ghost use Rattle.std.specs.Prelude.{◌≡◌};
ghost use Rattle.wac_printer_pieces.specs.Printed.{Prints};
ghost use Rattle.wac_json_text.specs.Contents.{world_items_pieces};

use crate::form::{Enclosed, Json};
use crate::parts::{enclosed, list, variant};
use wac_ast::{
    ExternType, NamedWorldItem, WorldDecl, WorldExport, WorldImport, WorldItem, WorldItemPath,
};
use wac_lexer::Sink;
use wac_printer_pieces::{Pieces, PrintResult};

impl Json for NamedWorldItem<'_> {
    ghost use Rattle.wac_ast_worlds.specs.Worlds.{named_world_item_of};
    ghost use Rattle.wac_json_forms.specs.Forms.{named_world_item_json};

    ghost form = { λ x. named_world_item_json (named_world_item_of x) };

    fn write<S: Sink>(&self, out: &mut Pieces<'_, S>) -> PrintResult {
        out.blank("{\"id\":{\"span\":{\"length\":")
            .and(self.id.write_inside(out))
            .and(out.blank("\"},\"ty\":"))
            .and(self.ty.write(out))
            .and(out.blank("}"))
    }
}

impl Json for WorldImport<'_> {
    ghost use Rattle.wac_ast_worlds.specs.Worlds.{world_import_of};
    ghost use Rattle.wac_json_forms.specs.Forms.{world_import_json};

    ghost form = { λ x. world_import_json (world_import_of x) };

    fn write<S: Sink>(&self, out: &mut Pieces<'_, S>) -> PrintResult {
        out.blank("{\"docs\":[")
            .and(self.docs.write_inside(out))
            .and(out.blank("],\"path\":"))
            .and(self.path.write(out))
            .and(out.blank("}"))
    }
}

impl Json for WorldExport<'_> {
    ghost use Rattle.wac_ast_worlds.specs.Worlds.{world_export_of};
    ghost use Rattle.wac_json_forms.specs.Forms.{world_export_json};

    ghost form = { λ x. world_export_json (world_export_of x) };

    fn write<S: Sink>(&self, out: &mut Pieces<'_, S>) -> PrintResult {
        out.blank("{\"docs\":[")
            .and(self.docs.write_inside(out))
            .and(out.blank("],\"path\":"))
            .and(self.path.write(out))
            .and(out.blank("}"))
    }
}

fn items_of<'t, 'a>(decl: &'t WorldDecl<'a>) -> &'t [WorldItem<'a>]
    ensures { result.now ≡ decl.now.items.items }
{
    &decl.items
}

/// Writes the items of a world, which comes first: the prover's work grows with the number of lifetimes before its own.
fn write_items<S: Sink>(decl: &WorldDecl<'_>, out: &mut Pieces<'_, S>) -> PrintResult
    ensures { Prints out.old result out.new (world_items_pieces decl.now.items.items) }
{
    list(items_of(decl), out)
}

impl Json for WorldDecl<'_> {
    ghost use Rattle.wac_ast_worlds.specs.Worlds.{world_decl_of};
    ghost use Rattle.wac_json_forms.specs.Forms.{world_decl_json};

    ghost form = { λ x. world_decl_json (world_decl_of x) };

    fn write<S: Sink>(&self, out: &mut Pieces<'_, S>) -> PrintResult {
        out.blank("{\"docs\":[")
            .and(self.docs.write_inside(out))
            .and(out.blank("],\"id\":{\"span\":{\"length\":"))
            .and(self.id.write_inside(out))
            .and(out.blank("\"},\"items\":"))
            .and(write_items(self, out))
            .and(out.blank("}"))
    }
}

impl Json for ExternType<'_> {
    ghost use Rattle.wac_ast_worlds.specs.Worlds.{extern_type_of};
    ghost use Rattle.wac_json_forms.specs.Forms.{extern_type_json};

    ghost form = { λ x. extern_type_json (extern_type_of x) };

    fn write<S: Sink>(&self, out: &mut Pieces<'_, S>) -> PrintResult {
        match self {
            ExternType::Ident(part) => enclosed(
                "{\"ident\":{\"span\":{\"length\":",
                part,
                "\"}}",
                out,
            ),
            ExternType::Func(part) => variant("{\"func\":", part, out),
            ExternType::Interface(part) => variant("{\"interface\":", part, out),
        }
    }
}

impl Json for WorldItemPath<'_> {
    ghost use Rattle.wac_ast_worlds.specs.Worlds.{world_item_path_of};
    ghost use Rattle.wac_json_forms.specs.Forms.{world_item_path_json};

    ghost form = { λ x. world_item_path_json (world_item_path_of x) };

    fn write<S: Sink>(&self, out: &mut Pieces<'_, S>) -> PrintResult {
        match self {
            WorldItemPath::Named(part) => variant("{\"named\":", part, out),
            WorldItemPath::Package(part) => variant("{\"package\":", part, out),
            WorldItemPath::Ident(part) => enclosed(
                "{\"ident\":{\"span\":{\"length\":",
                part,
                "\"}}",
                out,
            ),
        }
    }
}

impl Json for WorldItem<'_> {
    ghost use Rattle.wac_ast_worlds.specs.Worlds.{world_item_of};
    ghost use Rattle.wac_json_forms.specs.Forms.{world_item_json};

    ghost form = { λ x. world_item_json (world_item_of x) };

    fn write<S: Sink>(&self, out: &mut Pieces<'_, S>) -> PrintResult {
        match self {
            WorldItem::Use(part) => variant("{\"use\":", part, out),
            WorldItem::Ty(part) => variant("{\"type\":", part, out),
            WorldItem::Import(part) => variant("{\"import\":", part, out),
            WorldItem::Export(part) => variant("{\"export\":", part, out),
            WorldItem::Include(part) => variant("{\"include\":", part, out),
        }
    }
}
