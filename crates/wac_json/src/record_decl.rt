//! Records.

use crate::ToValue;
use crate::build::Object;
use serde_json::Value;
use std::alloc::{AllocError, Global};
use wac_ast::{Field, RecordDecl};

impl ToValue for RecordDecl<'_> {
    ghost use Rattle.wac_ast_types.specs.Declarations.{record_decl_of};
    ghost use Rattle.wac_json_forms.specs.Forms.{record_decl_json};

    ghost form = { λ x. record_decl_json (record_decl_of x) };

    #[tactic(auto, using(crate::proofs::Forms::forms), unfolding(wac_json_forms::specs::Forms::record_decl_json))]
    fn to_value(&self, alloc: Global) -> Result<Value, AllocError> {
        Ok(
            Object::new(alloc)
                .with("docs", &self.docs)?
                .with("id", &self.id)?
                .with("fields", &self.fields)?
                .into_value(),
        )
    }
}

impl ToValue for Field<'_> {
    ghost use Rattle.wac_ast_types.specs.Declarations.{field_of};
    ghost use Rattle.wac_json_forms.specs.Forms.{field_json};

    ghost form = { λ x. field_json (field_of x) };

    #[tactic(auto, using(crate::proofs::Forms::forms), unfolding(wac_json_forms::specs::Forms::field_json))]
    fn to_value(&self, alloc: Global) -> Result<Value, AllocError> {
        Ok(
            Object::new(alloc)
                .with("docs", &self.docs)?
                .with("id", &self.id)?
                .with("ty", &self.ty)?
                .into_value(),
        )
    }
}
