//! Imports.

use crate::form::{Enclosed, Json};
use crate::parts::{enclosed, variant};
use wac_ast::{ExternName, ImportStatement, ImportType};
use wac_lexer::Sink;
use wac_printer_pieces::{Pieces, PrintResult};

impl Json for ImportStatement<'_> {
    ghost use Rattle.wac_ast_worlds.specs.Worlds.{import_statement_of};
    ghost use Rattle.wac_json_forms.specs.Forms.{import_statement_json};

    ghost form = { λ x. import_statement_json (import_statement_of x) };

    fn write<S: Sink>(&self, out: &mut Pieces<'_, S>) -> PrintResult {
        out.blank("{\"docs\":[")
            .and(self.docs.write_inside(out))
            .and(out.blank("],\"id\":{\"span\":{\"length\":"))
            .and(self.id.write_inside(out))
            .and(out.blank("\"},\"name\":"))
            .and(self.name.write(out))
            .and(out.blank(",\"ty\":"))
            .and(self.ty.write(out))
            .and(out.blank("}"))
    }
}

impl Json for ExternName<'_> {
    ghost use Rattle.wac_ast_base.specs.Names.{extern_name_of};
    ghost use Rattle.wac_json_forms.specs.Forms.{extern_name_json};

    ghost form = { λ x. extern_name_json (extern_name_of x) };

    fn write<S: Sink>(&self, out: &mut Pieces<'_, S>) -> PrintResult {
        match self {
            ExternName::Ident(part) => enclosed(
                "{\"ident\":{\"span\":{\"length\":",
                part,
                "\"}}",
                out,
            ),
            ExternName::String(part) => enclosed(
                "{\"string\":{\"span\":{\"length\":",
                part,
                "\"}}",
                out,
            ),
        }
    }
}

impl Json for ImportType<'_> {
    ghost use Rattle.wac_ast_worlds.specs.Worlds.{import_type_of};
    ghost use Rattle.wac_json_forms.specs.Forms.{import_type_json};

    ghost form = { λ x. import_type_json (import_type_of x) };

    fn write<S: Sink>(&self, out: &mut Pieces<'_, S>) -> PrintResult {
        match self {
            ImportType::Package(part) => variant("{\"package\":", part, out),
            ImportType::Func(part) => variant("{\"func\":", part, out),
            ImportType::Interface(part) => variant("{\"interface\":", part, out),
            ImportType::Ident(part) => enclosed(
                "{\"ident\":{\"span\":{\"length\":",
                part,
                "\"}}",
                out,
            ),
        }
    }
}
