//! Enums.

use crate::ToValue;
use crate::build::Object;
use serde_json::Value;
use std::alloc::{AllocError, Global};
use wac_ast::{EnumCase, EnumDecl};

impl ToValue for EnumDecl<'_> {
    ghost use Rattle.wac_ast_types.specs.Declarations.{enum_decl_of};
    ghost use Rattle.wac_json_forms.specs.Forms.{enum_decl_json};

    ghost form = { λ x. enum_decl_json (enum_decl_of x) };

    #[tactic(auto, using(crate::proofs::Forms::forms), unfolding(wac_json_forms::specs::Forms::enum_decl_json))]
    fn to_value(&self, alloc: Global) -> Result<Value, AllocError> {
        Ok(
            Object::new(alloc)
                .with("docs", &self.docs)?
                .with("id", &self.id)?
                .with("cases", &self.cases)?
                .into_value(),
        )
    }
}

impl ToValue for EnumCase<'_> {
    ghost use Rattle.wac_ast_types.specs.Declarations.{enum_case_of};
    ghost use Rattle.wac_json_forms.specs.Forms.{enum_case_json};

    ghost form = { λ x. enum_case_json (enum_case_of x) };

    #[tactic(auto, using(crate::proofs::Forms::forms), unfolding(wac_json_forms::specs::Forms::enum_case_json))]
    fn to_value(&self, alloc: Global) -> Result<Value, AllocError> {
        Ok(
            Object::new(alloc)
                .with("docs", &self.docs)?
                .with("id", &self.id)?
                .into_value(),
        )
    }
}
