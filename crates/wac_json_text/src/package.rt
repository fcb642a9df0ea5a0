//! Package names and package paths.

use crate::form::{Enclosed, Json};
use wac_ast::{PackageName, PackagePath};
use wac_lexer::Sink;
use wac_printer_pieces::{Pieces, PrintResult};

impl Json for PackageName<'_> {
    ghost use Rattle.wac_ast_base.specs.Names.{package_name_of};
    ghost use Rattle.wac_json_forms.specs.Forms.{package_name_json};

    ghost form = { λ x. package_name_json (package_name_of x) };

    fn write<S: Sink>(&self, out: &mut Pieces<'_, S>) -> PrintResult {
        out.blank("{\"name\":\"")
            .and(self.name.write_inside(out))
            .and(out.blank("\",\"span\":{\"length\":"))
            .and(self.span.write_inside(out))
            .and(out.blank("},\"string\":\""))
            .and(self.string.write_inside(out))
            .and(out.blank("\",\"version\":"))
            .and(self.version.write(out))
            .and(out.blank("}"))
    }
}

impl Json for PackagePath<'_> {
    ghost use Rattle.wac_ast_base.specs.Names.{package_path_of};
    ghost use Rattle.wac_json_forms.specs.Forms.{package_path_json};

    ghost form = { λ x. package_path_json (package_path_of x) };

    fn write<S: Sink>(&self, out: &mut Pieces<'_, S>) -> PrintResult {
        out.blank("{\"name\":\"")
            .and(self.name.write_inside(out))
            .and(out.blank("\",\"segments\":\""))
            .and(self.segments.write_inside(out))
            .and(out.blank("\",\"span\":{\"length\":"))
            .and(self.span.write_inside(out))
            .and(out.blank("},\"string\":\""))
            .and(self.string.write_inside(out))
            .and(out.blank("\",\"version\":"))
            .and(self.version.write(out))
            .and(out.blank("}"))
    }
}
