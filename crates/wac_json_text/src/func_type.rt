//! Function types.

use crate::form::{Enclosed, Json};
use crate::parts::{enclosed, variant};
use wac_ast::{FuncType, FuncTypeRef, NamedType, ResultList};
use wac_lexer::Sink;
use wac_printer_pieces::{Pieces, PrintResult};

impl Json for FuncType<'_> {
    ghost use Rattle.wac_ast_types.specs.Declarations.{func_type_of};
    ghost use Rattle.wac_json_forms.specs.Forms.{func_type_json};

    ghost form = { λ x. func_type_json (func_type_of x) };

    fn write<S: Sink>(&self, out: &mut Pieces<'_, S>) -> PrintResult {
        out.blank("{\"isAsync\":")
            .and(self.is_async.write(out))
            .and(out.blank(",\"params\":["))
            .and(self.params.write_inside(out))
            .and(out.blank("],\"results\":"))
            .and(self.results.write(out))
            .and(out.blank("}"))
    }
}

impl Json for NamedType<'_> {
    ghost use Rattle.wac_ast_types.specs.Declarations.{named_type_of};
    ghost use Rattle.wac_json_forms.specs.Forms.{named_type_json};

    ghost form = { λ x. named_type_json (named_type_of x) };

    fn write<S: Sink>(&self, out: &mut Pieces<'_, S>) -> PrintResult {
        out.blank("{\"id\":{\"span\":{\"length\":")
            .and(self.id.write_inside(out))
            .and(out.blank("\"},\"ty\":"))
            .and(self.ty.write(out))
            .and(out.blank("}"))
    }
}

impl Json for ResultList<'_> {
    ghost use Rattle.wac_ast_types.specs.Declarations.{result_list_of};
    ghost use Rattle.wac_json_forms.specs.Forms.{result_list_json};

    ghost form = { λ x. result_list_json (result_list_of x) };

    fn write<S: Sink>(&self, out: &mut Pieces<'_, S>) -> PrintResult {
        match self {
            ResultList::Empty => "empty".write(out),
            ResultList::Scalar(part) => variant("{\"scalar\":", part, out),
            ResultList::Named(part) => variant("{\"named\":", part, out),
        }
    }
}

impl Json for FuncTypeRef<'_> {
    ghost use Rattle.wac_ast_types.specs.Declarations.{func_type_ref_of};
    ghost use Rattle.wac_json_forms.specs.Forms.{func_type_ref_json};

    ghost form = { λ x. func_type_ref_json (func_type_ref_of x) };

    fn write<S: Sink>(&self, out: &mut Pieces<'_, S>) -> PrintResult {
        match self {
            FuncTypeRef::Func(part) => variant("{\"func\":", part, out),
            FuncTypeRef::Ident(part) => enclosed(
                "{\"ident\":{\"span\":{\"length\":",
                part,
                "\"}}",
                out,
            ),
        }
    }
}
