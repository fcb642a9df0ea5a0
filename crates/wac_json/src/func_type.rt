//! Function types.

use crate::ToValue;
use crate::build::{Object, text, variant_of};
use serde_json::Value;
use std::alloc::{AllocError, Global};
use wac_ast::{FuncType, FuncTypeRef, NamedType, ResultList};

impl ToValue for FuncType<'_> {
    ghost use Rattle.wac_ast_types.specs.Declarations.{func_type_of};
    ghost use Rattle.wac_json_forms.specs.Forms.{func_type_json};

    ghost form = { λ x. func_type_json (func_type_of x) };

    #[tactic(auto, using(crate::proofs::Forms::forms), unfolding(wac_json_forms::specs::Forms::func_type_json))]
    fn to_value(&self, alloc: Global) -> Result<Value, AllocError> {
        Ok(
            Object::new(alloc)
                .with("isAsync", &self.is_async)?
                .with("params", &self.params)?
                .with("results", &self.results)?
                .into_value(),
        )
    }
}

impl ToValue for ResultList<'_> {
    ghost use Rattle.wac_ast_types.specs.Declarations.{result_list_of};
    ghost use Rattle.wac_json_forms.specs.Forms.{result_list_json};

    ghost form = { λ x. result_list_json (result_list_of x) };

    #[tactic(auto, using(crate::proofs::Forms::forms), unfolding(wac_json_forms::specs::Forms::result_list_json))]
    fn to_value(&self, alloc: Global) -> Result<Value, AllocError> {
        match self {
            ResultList::Empty => text(alloc, "empty"),
            ResultList::Scalar(ty) => variant_of(alloc, "scalar", ty),
            ResultList::Named(named) => variant_of(alloc, "named", named),
        }
    }
}

impl ToValue for NamedType<'_> {
    ghost use Rattle.wac_ast_types.specs.Declarations.{named_type_of};
    ghost use Rattle.wac_json_forms.specs.Forms.{named_type_json};

    ghost form = { λ x. named_type_json (named_type_of x) };

    #[tactic(auto, using(crate::proofs::Forms::forms), unfolding(wac_json_forms::specs::Forms::named_type_json))]
    fn to_value(&self, alloc: Global) -> Result<Value, AllocError> {
        Ok(
            Object::new(alloc)
                .with("id", &self.id)?
                .with("ty", &self.ty)?
                .into_value(),
        )
    }
}

impl ToValue for FuncTypeRef<'_> {
    ghost use Rattle.wac_ast_types.specs.Declarations.{func_type_ref_of};
    ghost use Rattle.wac_json_forms.specs.Forms.{func_type_ref_json};

    ghost form = { λ x. func_type_ref_json (func_type_ref_of x) };

    #[tactic(auto, unfolding(wac_json_forms::specs::Forms::func_type_ref_json))]
    fn to_value(&self, alloc: Global) -> Result<Value, AllocError> {
        match self {
            FuncTypeRef::Func(func) => variant_of(alloc, "func", func),
            FuncTypeRef::Ident(id) => variant_of(alloc, "ident", id),
        }
    }
}
