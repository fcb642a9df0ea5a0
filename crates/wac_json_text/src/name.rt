//! Identifiers, strings and docs.

use crate::form::{Enclosed, Json};
use crate::parts::enclosed;
use wac_ast::{DocComment, Ident, String};
use wac_lexer::Sink;
use wac_printer_pieces::{Pieces, PrintResult};

impl Json for Ident<'_> {
    ghost use Rattle.wac_ast_base.specs.Names.{ident_of};
    ghost use Rattle.wac_json_forms.specs.Forms.{ident_json};

    ghost form = { λ x. ident_json (ident_of x) };

    fn write<S: Sink>(&self, out: &mut Pieces<'_, S>) -> PrintResult {
        enclosed("{\"span\":{\"length\":", self, "\"}", out)
    }
}

impl Enclosed for Ident<'_> {
    ghost use Rattle.wac_ast_base.specs.Names.{ident_of};
    ghost use Rattle.wac_json_text.specs.Contents.{ident_inside};

    ghost inside = { λ x. ident_inside (ident_of x) };

    fn write_inside<S: Sink>(&self, out: &mut Pieces<'_, S>) -> PrintResult {
        self.span
            .write_inside(out)
            .and(out.blank("},\"string\":\""))
            .and(self.string.write_inside(out))
    }
}

impl Json for String<'_> {
    ghost use Rattle.wac_ast_base.specs.Names.{string_of};
    ghost use Rattle.wac_json_forms.specs.Forms.{string_json};

    ghost form = { λ x. string_json (string_of x) };

    fn write<S: Sink>(&self, out: &mut Pieces<'_, S>) -> PrintResult {
        enclosed("{\"span\":{\"length\":", self, "\"}", out)
    }
}

impl Enclosed for String<'_> {
    ghost use Rattle.wac_ast_base.specs.Names.{string_of};
    ghost use Rattle.wac_json_text.specs.Contents.{string_inside};

    ghost inside = { λ x. string_inside (string_of x) };

    fn write_inside<S: Sink>(&self, out: &mut Pieces<'_, S>) -> PrintResult {
        self.span
            .write_inside(out)
            .and(out.blank("},\"value\":\""))
            .and(self.value.write_inside(out))
    }
}

impl Json for DocComment<'_> {
    ghost use Rattle.wac_ast_base.specs.Names.{doc_comment_of};
    ghost use Rattle.wac_json_forms.specs.Forms.{doc_json};

    ghost form = { λ x. doc_json (doc_comment_of x) };

    fn write<S: Sink>(&self, out: &mut Pieces<'_, S>) -> PrintResult {
        out.blank("{\"comment\":\"")
            .and(self.comment.write_inside(out))
            .and(out.blank("\",\"span\":{\"length\":"))
            .and(self.span.write_inside(out))
            .and(out.blank("}}"))
    }
}
