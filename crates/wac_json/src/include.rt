//! Includes.

use crate::ToValue;
use crate::build::{Object, variant_of};
use serde_json::Value;
use std::alloc::{AllocError, Global};
use wac_ast::{WorldInclude, WorldIncludeItem, WorldRef};

impl ToValue for WorldInclude<'_> {
    ghost use Rattle.wac_ast_uses.specs.Uses.{world_include_of};
    ghost use Rattle.wac_json_forms.specs.Forms.{world_include_json};

    ghost form = { λ x. world_include_json (world_include_of x) };

    #[tactic(auto, using(crate::proofs::Forms::forms), unfolding(wac_json_forms::specs::Forms::world_include_json))]
    fn to_value(&self, alloc: Global) -> Result<Value, AllocError> {
        Ok(
            Object::new(alloc)
                .with("docs", &self.docs)?
                .with("world", &self.world)?
                .with("with", &self.with)?
                .into_value(),
        )
    }
}

impl ToValue for WorldRef<'_> {
    ghost use Rattle.wac_ast_uses.specs.Uses.{world_ref_of};
    ghost use Rattle.wac_json_forms.specs.Forms.{world_ref_json};

    ghost form = { λ x. world_ref_json (world_ref_of x) };

    #[tactic(auto, unfolding(wac_json_forms::specs::Forms::world_ref_json))]
    fn to_value(&self, alloc: Global) -> Result<Value, AllocError> {
        match self {
            WorldRef::Ident(id) => variant_of(alloc, "ident", id),
            WorldRef::Package(path) => variant_of(alloc, "package", path),
        }
    }
}

impl ToValue for WorldIncludeItem<'_> {
    ghost use Rattle.wac_ast_uses.specs.Uses.{world_include_item_of};
    ghost use Rattle.wac_json_forms.specs.Forms.{world_include_item_json};

    ghost form = { λ x. world_include_item_json (world_include_item_of x) };

    #[tactic(auto, unfolding(wac_json_forms::specs::Forms::world_include_item_json))]
    fn to_value(&self, alloc: Global) -> Result<Value, AllocError> {
        Ok(
            Object::new(alloc)
                .with("from", &self.from)?
                .with("to", &self.to)?
                .into_value(),
        )
    }
}
