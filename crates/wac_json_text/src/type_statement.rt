//! Declarations.

use crate::form::Json;
use crate::parts::variant;
use wac_ast::{ItemTypeDecl, TypeDecl, TypeStatement};
use wac_lexer::Sink;
use wac_printer_pieces::{Pieces, PrintResult};

impl Json for TypeDecl<'_> {
    ghost use Rattle.wac_ast_types.specs.Declarations.{type_decl_of};
    ghost use Rattle.wac_json_forms.specs.Forms.{type_decl_json};

    ghost form = { λ x. type_decl_json (type_decl_of x) };

    fn write<S: Sink>(&self, out: &mut Pieces<'_, S>) -> PrintResult {
        match self {
            TypeDecl::Variant(part) => variant("{\"variant\":", part, out),
            TypeDecl::Record(part) => variant("{\"record\":", part, out),
            TypeDecl::Flags(part) => variant("{\"flags\":", part, out),
            TypeDecl::Enum(part) => variant("{\"enum\":", part, out),
            TypeDecl::Alias(part) => variant("{\"alias\":", part, out),
        }
    }
}

impl Json for ItemTypeDecl<'_> {
    ghost use Rattle.wac_ast_types.specs.Declarations.{item_type_decl_of};
    ghost use Rattle.wac_json_forms.specs.Forms.{item_type_decl_json};

    ghost form = { λ x. item_type_decl_json (item_type_decl_of x) };

    fn write<S: Sink>(&self, out: &mut Pieces<'_, S>) -> PrintResult {
        match self {
            ItemTypeDecl::Resource(part) => variant("{\"resource\":", part, out),
            ItemTypeDecl::Variant(part) => variant("{\"variant\":", part, out),
            ItemTypeDecl::Record(part) => variant("{\"record\":", part, out),
            ItemTypeDecl::Flags(part) => variant("{\"flags\":", part, out),
            ItemTypeDecl::Enum(part) => variant("{\"enum\":", part, out),
            ItemTypeDecl::Alias(part) => variant("{\"alias\":", part, out),
        }
    }
}

impl Json for TypeStatement<'_> {
    ghost use Rattle.wac_ast.specs.Statements.{type_statement_of};
    ghost use Rattle.wac_json_forms.specs.Forms.{type_statement_json};

    ghost form = { λ x. type_statement_json (type_statement_of x) };

    fn write<S: Sink>(&self, out: &mut Pieces<'_, S>) -> PrintResult {
        match self {
            TypeStatement::Interface(part) => variant("{\"interface\":", part, out),
            TypeStatement::World(part) => variant("{\"world\":", part, out),
            TypeStatement::Ty(part) => variant("{\"type\":", part, out),
        }
    }
}
