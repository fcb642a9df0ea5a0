//! Flags.

use crate::ToValue;
use crate::build::Object;
use serde_json::Value;
use std::alloc::{AllocError, Global};
use wac_ast::{Flag, FlagsDecl};

impl ToValue for FlagsDecl<'_> {
    ghost use Rattle.wac_ast_types.specs.Declarations.{flags_decl_of};
    ghost use Rattle.wac_json_forms.specs.Forms.{flags_decl_json};

    ghost form = { λ x. flags_decl_json (flags_decl_of x) };

    #[tactic(auto, using(crate::proofs::Forms::forms), unfolding(wac_json_forms::specs::Forms::flags_decl_json))]
    fn to_value(&self, alloc: Global) -> Result<Value, AllocError> {
        Ok(
            Object::new(alloc)
                .with("docs", &self.docs)?
                .with("id", &self.id)?
                .with("flags", &self.flags)?
                .into_value(),
        )
    }
}

impl ToValue for Flag<'_> {
    ghost use Rattle.wac_ast_types.specs.Declarations.{flag_of};
    ghost use Rattle.wac_json_forms.specs.Forms.{flag_json};

    ghost form = { λ x. flag_json (flag_of x) };

    #[tactic(auto, using(crate::proofs::Forms::forms), unfolding(wac_json_forms::specs::Forms::flag_json))]
    fn to_value(&self, alloc: Global) -> Result<Value, AllocError> {
        Ok(
            Object::new(alloc)
                .with("docs", &self.docs)?
                .with("id", &self.id)?
                .into_value(),
        )
    }
}
