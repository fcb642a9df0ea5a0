//! Type aliases.

use crate::ToValue;
use crate::build::{Object, variant_of};
use serde_json::Value;
use std::alloc::{AllocError, Global};
use wac_ast::{TypeAlias, TypeAliasKind};

impl ToValue for TypeAlias<'_> {
    ghost use Rattle.wac_ast_types.specs.Declarations.{type_alias_of};
    ghost use Rattle.wac_json_forms.specs.Forms.{type_alias_json};

    ghost form = { λ x. type_alias_json (type_alias_of x) };

    #[tactic(auto, using(crate::proofs::Forms::forms), unfolding(wac_json_forms::specs::Forms::type_alias_json))]
    fn to_value(&self, alloc: Global) -> Result<Value, AllocError> {
        Ok(
            Object::new(alloc)
                .with("docs", &self.docs)?
                .with("id", &self.id)?
                .with("kind", &self.kind)?
                .into_value(),
        )
    }
}

impl ToValue for TypeAliasKind<'_> {
    ghost use Rattle.wac_ast_types.specs.Declarations.{type_alias_kind_of};
    ghost use Rattle.wac_json_forms.specs.Forms.{type_alias_kind_json};

    ghost form = { λ x. type_alias_kind_json (type_alias_kind_of x) };

    #[tactic(auto, unfolding(wac_json_forms::specs::Forms::type_alias_kind_json))]
    fn to_value(&self, alloc: Global) -> Result<Value, AllocError> {
        match self {
            TypeAliasKind::Func(func) => variant_of(alloc, "func", func),
            TypeAliasKind::Ty(ty) => variant_of(alloc, "type", ty),
        }
    }
}
