//! Uses.

use crate::ToValue;
use crate::build::{Object, variant_of};
use serde_json::Value;
use std::alloc::{AllocError, Global};
use wac_ast::{Use, UseItem, UsePath};

impl ToValue for Use<'_> {
    ghost use Rattle.wac_ast_uses.specs.Uses.{use_of};
    ghost use Rattle.wac_json_forms.specs.Forms.{use_json};

    ghost form = { λ x. use_json (use_of x) };

    #[tactic(auto, using(crate::proofs::Forms::forms), unfolding(wac_json_forms::specs::Forms::use_json))]
    fn to_value(&self, alloc: Global) -> Result<Value, AllocError> {
        Ok(
            Object::new(alloc)
                .with("docs", &self.docs)?
                .with("path", &self.path)?
                .with("items", &self.items)?
                .into_value(),
        )
    }
}

impl ToValue for UsePath<'_> {
    ghost use Rattle.wac_ast_uses.specs.Uses.{use_path_of};
    ghost use Rattle.wac_json_forms.specs.Forms.{use_path_json};

    ghost form = { λ x. use_path_json (use_path_of x) };

    #[tactic(auto, unfolding(wac_json_forms::specs::Forms::use_path_json))]
    fn to_value(&self, alloc: Global) -> Result<Value, AllocError> {
        match self {
            UsePath::Package(path) => variant_of(alloc, "package", path),
            UsePath::Ident(id) => variant_of(alloc, "ident", id),
        }
    }
}

impl ToValue for UseItem<'_> {
    ghost use Rattle.wac_ast_uses.specs.Uses.{use_item_of};
    ghost use Rattle.wac_json_forms.specs.Forms.{use_item_json};

    ghost form = { λ x. use_item_json (use_item_of x) };

    #[tactic(auto, using(crate::proofs::Forms::forms), unfolding(wac_json_forms::specs::Forms::use_item_json))]
    fn to_value(&self, alloc: Global) -> Result<Value, AllocError> {
        Ok(
            Object::new(alloc)
                .with("id", &self.id)?
                .with("asId", &self.as_id)?
                .into_value(),
        )
    }
}
