//! Interfaces.

use crate::ToValue;
use crate::build::{Object, variant_of};
use serde_json::Value;
use std::alloc::{AllocError, Global};
use wac_ast::{InlineInterface, InterfaceDecl, InterfaceExport, InterfaceItem};

impl ToValue for InterfaceDecl<'_> {
    ghost use Rattle.wac_ast_worlds.specs.Worlds.{interface_decl_of};
    ghost use Rattle.wac_json_forms.specs.Forms.{interface_decl_json};

    ghost form = { λ x. interface_decl_json (interface_decl_of x) };

    #[tactic(auto, using(crate::proofs::Forms::forms), unfolding(wac_json_forms::specs::Forms::interface_decl_json))]
    fn to_value(&self, alloc: Global) -> Result<Value, AllocError> {
        let items = self.items.to_value(alloc)?;
        Ok(
            Object::new(alloc)
                .with("docs", &self.docs)?
                .with("id", &self.id)?
                .with_value("items", items)?
                .into_value(),
        )
    }
}

impl ToValue for InlineInterface<'_> {
    ghost use Rattle.wac_ast_worlds.specs.Worlds.{inline_interface_of};
    ghost use Rattle.wac_json_forms.specs.Forms.{inline_interface_json};

    ghost form = { λ x. inline_interface_json (inline_interface_of x) };

    #[tactic(auto, using(crate::proofs::Forms::forms), unfolding(wac_json_forms::specs::Forms::inline_interface_json))]
    fn to_value(&self, alloc: Global) -> Result<Value, AllocError> {
        Ok(Object::new(alloc).with("items", &self.items)?.into_value())
    }
}

impl ToValue for InterfaceItem<'_> {
    ghost use Rattle.wac_ast_worlds.specs.Worlds.{interface_item_of};
    ghost use Rattle.wac_json_forms.specs.Forms.{interface_item_json};

    ghost form = { λ x. interface_item_json (interface_item_of x) };

    #[tactic(auto, unfolding(wac_json_forms::specs::Forms::interface_item_json))]
    fn to_value(&self, alloc: Global) -> Result<Value, AllocError> {
        match self {
            InterfaceItem::Use(item) => variant_of(alloc, "use", &**item),
            InterfaceItem::Ty(decl) => variant_of(alloc, "type", decl),
            InterfaceItem::Export(export) => variant_of(alloc, "export", export),
        }
    }
}

impl ToValue for InterfaceExport<'_> {
    ghost use Rattle.wac_ast_worlds.specs.Worlds.{interface_export_of};
    ghost use Rattle.wac_json_forms.specs.Forms.{interface_export_json};

    ghost form = { λ x. interface_export_json (interface_export_of x) };

    #[tactic(auto, using(crate::proofs::Forms::forms), unfolding(wac_json_forms::specs::Forms::interface_export_json))]
    fn to_value(&self, alloc: Global) -> Result<Value, AllocError> {
        Ok(
            Object::new(alloc)
                .with("docs", &self.docs)?
                .with("id", &self.id)?
                .with("ty", &self.ty)?
                .into_value(),
        )
    }
}
