//! Statements and items that declare something.

use crate::ToValue;
use crate::build::variant_of;
use serde_json::Value;
use std::alloc::{AllocError, Global};
use wac_ast::{ItemTypeDecl, TypeDecl, TypeStatement};

impl ToValue for TypeStatement<'_> {
    ghost use Rattle.wac_ast.specs.Statements.{type_statement_of};
    ghost use Rattle.wac_json_forms.specs.Forms.{type_statement_json};

    ghost form = { λ x. type_statement_json (type_statement_of x) };

    #[tactic(auto, unfolding(wac_json_forms::specs::Forms::type_statement_json))]
    fn to_value(&self, alloc: Global) -> Result<Value, AllocError> {
        match self {
            TypeStatement::Interface(decl) => variant_of(alloc, "interface", decl),
            TypeStatement::World(decl) => variant_of(alloc, "world", decl),
            TypeStatement::Ty(decl) => variant_of(alloc, "type", decl),
        }
    }
}

impl ToValue for TypeDecl<'_> {
    ghost use Rattle.wac_ast_types.specs.Declarations.{type_decl_of};
    ghost use Rattle.wac_json_forms.specs.Forms.{type_decl_json};

    ghost form = { λ x. type_decl_json (type_decl_of x) };

    #[tactic(auto, unfolding(wac_json_forms::specs::Forms::type_decl_json))]
    fn to_value(&self, alloc: Global) -> Result<Value, AllocError> {
        match self {
            TypeDecl::Variant(decl) => variant_of(alloc, "variant", decl),
            TypeDecl::Record(decl) => variant_of(alloc, "record", decl),
            TypeDecl::Flags(decl) => variant_of(alloc, "flags", decl),
            TypeDecl::Enum(decl) => variant_of(alloc, "enum", decl),
            TypeDecl::Alias(alias) => variant_of(alloc, "alias", alias),
        }
    }
}

impl ToValue for ItemTypeDecl<'_> {
    ghost use Rattle.wac_ast_types.specs.Declarations.{item_type_decl_of};
    ghost use Rattle.wac_json_forms.specs.Forms.{item_type_decl_json};

    ghost form = { λ x. item_type_decl_json (item_type_decl_of x) };

    #[tactic(auto, unfolding(wac_json_forms::specs::Forms::item_type_decl_json))]
    fn to_value(&self, alloc: Global) -> Result<Value, AllocError> {
        match self {
            ItemTypeDecl::Resource(decl) => variant_of(alloc, "resource", decl),
            ItemTypeDecl::Variant(decl) => variant_of(alloc, "variant", decl),
            ItemTypeDecl::Record(decl) => variant_of(alloc, "record", decl),
            ItemTypeDecl::Flags(decl) => variant_of(alloc, "flags", decl),
            ItemTypeDecl::Enum(decl) => variant_of(alloc, "enum", decl),
            ItemTypeDecl::Alias(alias) => variant_of(alloc, "alias", alias),
        }
    }
}
