//! Variants.

use crate::ToValue;
use crate::build::Object;
use serde_json::Value;
use std::alloc::{AllocError, Global};
use wac_ast::{VariantCase, VariantDecl};

impl ToValue for VariantDecl<'_> {
    ghost use Rattle.wac_ast_types.specs.Declarations.{variant_decl_of};
    ghost use Rattle.wac_json_forms.specs.Forms.{variant_decl_json};

    ghost form = { λ x. variant_decl_json (variant_decl_of x) };

    #[tactic(auto, using(crate::proofs::Forms::forms), unfolding(wac_json_forms::specs::Forms::variant_decl_json))]
    fn to_value(&self, alloc: Global) -> Result<Value, AllocError> {
        Ok(
            Object::new(alloc)
                .with("docs", &self.docs)?
                .with("id", &self.id)?
                .with("cases", &self.cases)?
                .into_value(),
        )
    }
}

impl ToValue for VariantCase<'_> {
    ghost use Rattle.wac_ast_types.specs.Declarations.{variant_case_of};
    ghost use Rattle.wac_json_forms.specs.Forms.{variant_case_json};

    ghost form = { λ x. variant_case_json (variant_case_of x) };

    #[tactic(auto, using(crate::proofs::Forms::forms), unfolding(wac_json_forms::specs::Forms::variant_case_json))]
    fn to_value(&self, alloc: Global) -> Result<Value, AllocError> {
        Ok(
            Object::new(alloc)
                .with("docs", &self.docs)?
                .with("id", &self.id)?
                .with("ty", &self.ty)?
                .into_value(),
        )
    }
}
