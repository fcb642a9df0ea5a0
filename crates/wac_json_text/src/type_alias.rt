//! Type aliases.

use crate::form::{Enclosed, Json};
use crate::parts::variant;
use wac_ast::{TypeAlias, TypeAliasKind};
use wac_lexer::Sink;
use wac_printer_pieces::{Pieces, PrintResult};

impl Json for TypeAlias<'_> {
    ghost use Rattle.wac_ast_types.specs.Declarations.{type_alias_of};
    ghost use Rattle.wac_json_forms.specs.Forms.{type_alias_json};

    ghost form = { λ x. type_alias_json (type_alias_of x) };

    fn write<S: Sink>(&self, out: &mut Pieces<'_, S>) -> PrintResult {
        out.blank("{\"docs\":[")
            .and(self.docs.write_inside(out))
            .and(out.blank("],\"id\":{\"span\":{\"length\":"))
            .and(self.id.write_inside(out))
            .and(out.blank("\"},\"kind\":"))
            .and(self.kind.write(out))
            .and(out.blank("}"))
    }
}

impl Json for TypeAliasKind<'_> {
    ghost use Rattle.wac_ast_types.specs.Declarations.{type_alias_kind_of};
    ghost use Rattle.wac_json_forms.specs.Forms.{type_alias_kind_json};

    ghost form = { λ x. type_alias_kind_json (type_alias_kind_of x) };

    fn write<S: Sink>(&self, out: &mut Pieces<'_, S>) -> PrintResult {
        match self {
            TypeAliasKind::Func(part) => variant("{\"func\":", part, out),
            TypeAliasKind::Ty(part) => variant("{\"type\":", part, out),
        }
    }
}
