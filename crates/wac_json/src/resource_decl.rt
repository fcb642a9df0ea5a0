//! Resources.

use crate::ToValue;
use crate::build::{Object, variant_of};
use serde_json::Value;
use std::alloc::{AllocError, Global};
use wac_ast::{Constructor, Method, ResourceDecl, ResourceMethod};

impl ToValue for ResourceDecl<'_> {
    ghost use Rattle.wac_ast_types.specs.Declarations.{resource_decl_of};
    ghost use Rattle.wac_json_forms.specs.Forms.{resource_decl_json};

    ghost form = { λ x. resource_decl_json (resource_decl_of x) };

    #[tactic(auto, using(crate::proofs::Forms::forms), unfolding(wac_json_forms::specs::Forms::resource_decl_json))]
    fn to_value(&self, alloc: Global) -> Result<Value, AllocError> {
        Ok(
            Object::new(alloc)
                .with("docs", &self.docs)?
                .with("id", &self.id)?
                .with("methods", &self.methods)?
                .into_value(),
        )
    }
}

impl ToValue for ResourceMethod<'_> {
    ghost use Rattle.wac_ast_types.specs.Declarations.{resource_method_of};
    ghost use Rattle.wac_json_forms.specs.Forms.{resource_method_json};

    ghost form = { λ x. resource_method_json (resource_method_of x) };

    #[tactic(auto, unfolding(wac_json_forms::specs::Forms::resource_method_json))]
    fn to_value(&self, alloc: Global) -> Result<Value, AllocError> {
        match self {
            ResourceMethod::Constructor(constructor) => variant_of(
                alloc,
                "constructor",
                constructor,
            ),
            ResourceMethod::Method(method) => variant_of(alloc, "method", method),
        }
    }
}

impl ToValue for Constructor<'_> {
    ghost use Rattle.wac_ast_types.specs.Declarations.{constructor_of};
    ghost use Rattle.wac_json_forms.specs.Forms.{constructor_json};

    ghost form = { λ x. constructor_json (constructor_of x) };

    #[tactic(auto, using(crate::proofs::Forms::forms), unfolding(wac_json_forms::specs::Forms::constructor_json))]
    fn to_value(&self, alloc: Global) -> Result<Value, AllocError> {
        Ok(
            Object::new(alloc)
                .with("docs", &self.docs)?
                .with("span", &self.span)?
                .with("params", &self.params)?
                .into_value(),
        )
    }
}

impl ToValue for Method<'_> {
    ghost use Rattle.wac_ast_types.specs.Declarations.{method_of};
    ghost use Rattle.wac_json_forms.specs.Forms.{method_json};

    ghost form = { λ x. method_json (method_of x) };

    #[tactic(auto, using(crate::proofs::Forms::forms), unfolding(wac_json_forms::specs::Forms::method_json))]
    fn to_value(&self, alloc: Global) -> Result<Value, AllocError> {
        Ok(
            Object::new(alloc)
                .with("docs", &self.docs)?
                .with("id", &self.id)?
                .with("isStatic", &self.is_static)?
                .with("ty", &self.ty)?
                .into_value(),
        )
    }
}
