//! Import statements.

use crate::ToValue;
use crate::build::{Object, variant_of};
use serde_json::Value;
use std::alloc::{AllocError, Global};
use wac_ast::{ExternName, ImportStatement, ImportType};

impl ToValue for ImportStatement<'_> {
    ghost use Rattle.wac_ast_worlds.specs.Worlds.{import_statement_of};
    ghost use Rattle.wac_json_forms.specs.Forms.{import_statement_json};

    ghost form = { λ x. import_statement_json (import_statement_of x) };

    #[tactic(auto, using(crate::proofs::Forms::forms), unfolding(wac_json_forms::specs::Forms::import_statement_json))]
    fn to_value(&self, alloc: Global) -> Result<Value, AllocError> {
        Ok(
            Object::new(alloc)
                .with("docs", &self.docs)?
                .with("id", &self.id)?
                .with("name", &self.name)?
                .with("ty", &self.ty)?
                .into_value(),
        )
    }
}

impl ToValue for ExternName<'_> {
    ghost use Rattle.wac_ast_base.specs.Names.{extern_name_of};
    ghost use Rattle.wac_json_forms.specs.Forms.{extern_name_json};

    ghost form = { λ x. extern_name_json (extern_name_of x) };

    #[tactic(auto, unfolding(wac_json_forms::specs::Forms::extern_name_json))]
    fn to_value(&self, alloc: Global) -> Result<Value, AllocError> {
        match self {
            ExternName::Ident(id) => variant_of(alloc, "ident", id),
            ExternName::String(string) => variant_of(alloc, "string", string),
        }
    }
}

impl ToValue for ImportType<'_> {
    ghost use Rattle.wac_ast_worlds.specs.Worlds.{import_type_of};
    ghost use Rattle.wac_json_forms.specs.Forms.{import_type_json};

    ghost form = { λ x. import_type_json (import_type_of x) };

    #[tactic(auto, unfolding(wac_json_forms::specs::Forms::import_type_json))]
    fn to_value(&self, alloc: Global) -> Result<Value, AllocError> {
        match self {
            ImportType::Package(path) => variant_of(alloc, "package", path),
            ImportType::Func(func) => variant_of(alloc, "func", func),
            ImportType::Interface(interface) => variant_of(alloc, "interface", interface),
            ImportType::Ident(id) => variant_of(alloc, "ident", id),
        }
    }
}
