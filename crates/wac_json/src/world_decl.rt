//! Worlds.

use crate::ToValue;
use crate::build::{Object, variant_of};
use serde_json::Value;
use std::alloc::{AllocError, Global};
use wac_ast::{
    ExternType, NamedWorldItem, WorldDecl, WorldExport, WorldImport, WorldItem, WorldItemPath,
};

impl ToValue for WorldDecl<'_> {
    ghost use Rattle.wac_ast_worlds.specs.Worlds.{world_decl_of};
    ghost use Rattle.wac_json_forms.specs.Forms.{world_decl_json};

    ghost form = { λ x. world_decl_json (world_decl_of x) };

    #[tactic(auto, using(crate::proofs::Forms::forms), unfolding(wac_json_forms::specs::Forms::world_decl_json))]
    fn to_value(&self, alloc: Global) -> Result<Value, AllocError> {
        let items = self.items.to_value(alloc)?;
        Ok(
            Object::new(alloc)
                .with("docs", &self.docs)?
                .with("id", &self.id)?
                .with_value("items", items)?
                .into_value(),
        )
    }
}

impl ToValue for WorldItem<'_> {
    ghost use Rattle.wac_ast_worlds.specs.Worlds.{world_item_of};
    ghost use Rattle.wac_json_forms.specs.Forms.{world_item_json};

    ghost form = { λ x. world_item_json (world_item_of x) };

    #[tactic(auto, unfolding(wac_json_forms::specs::Forms::world_item_json))]
    fn to_value(&self, alloc: Global) -> Result<Value, AllocError> {
        match self {
            WorldItem::Use(item) => variant_of(alloc, "use", item),
            WorldItem::Ty(decl) => variant_of(alloc, "type", decl),
            WorldItem::Import(import) => variant_of(alloc, "import", import),
            WorldItem::Export(export) => variant_of(alloc, "export", export),
            WorldItem::Include(include) => variant_of(alloc, "include", include),
        }
    }
}

impl ToValue for WorldImport<'_> {
    ghost use Rattle.wac_ast_worlds.specs.Worlds.{world_import_of};
    ghost use Rattle.wac_json_forms.specs.Forms.{world_import_json};

    ghost form = { λ x. world_import_json (world_import_of x) };

    #[tactic(auto, using(crate::proofs::Forms::forms), unfolding(wac_json_forms::specs::Forms::world_import_json))]
    fn to_value(&self, alloc: Global) -> Result<Value, AllocError> {
        Ok(
            Object::new(alloc)
                .with("docs", &self.docs)?
                .with("path", &self.path)?
                .into_value(),
        )
    }
}

impl ToValue for WorldExport<'_> {
    ghost use Rattle.wac_ast_worlds.specs.Worlds.{world_export_of};
    ghost use Rattle.wac_json_forms.specs.Forms.{world_export_json};

    ghost form = { λ x. world_export_json (world_export_of x) };

    #[tactic(auto, using(crate::proofs::Forms::forms), unfolding(wac_json_forms::specs::Forms::world_export_json))]
    fn to_value(&self, alloc: Global) -> Result<Value, AllocError> {
        Ok(
            Object::new(alloc)
                .with("docs", &self.docs)?
                .with("path", &self.path)?
                .into_value(),
        )
    }
}

impl ToValue for WorldItemPath<'_> {
    ghost use Rattle.wac_ast_worlds.specs.Worlds.{world_item_path_of};
    ghost use Rattle.wac_json_forms.specs.Forms.{world_item_path_json};

    ghost form = { λ x. world_item_path_json (world_item_path_of x) };

    #[tactic(auto, unfolding(wac_json_forms::specs::Forms::world_item_path_json))]
    fn to_value(&self, alloc: Global) -> Result<Value, AllocError> {
        match self {
            WorldItemPath::Named(item) => variant_of(alloc, "named", item),
            WorldItemPath::Package(path) => variant_of(alloc, "package", path),
            WorldItemPath::Ident(id) => variant_of(alloc, "ident", id),
        }
    }
}

impl ToValue for NamedWorldItem<'_> {
    ghost use Rattle.wac_ast_worlds.specs.Worlds.{named_world_item_of};
    ghost use Rattle.wac_json_forms.specs.Forms.{named_world_item_json};

    ghost form = { λ x. named_world_item_json (named_world_item_of x) };

    #[tactic(auto, using(crate::proofs::Forms::forms), unfolding(wac_json_forms::specs::Forms::named_world_item_json))]
    fn to_value(&self, alloc: Global) -> Result<Value, AllocError> {
        Ok(
            Object::new(alloc)
                .with("id", &self.id)?
                .with("ty", &self.ty)?
                .into_value(),
        )
    }
}

impl ToValue for ExternType<'_> {
    ghost use Rattle.wac_ast_worlds.specs.Worlds.{extern_type_of};
    ghost use Rattle.wac_json_forms.specs.Forms.{extern_type_json};

    ghost form = { λ x. extern_type_json (extern_type_of x) };

    #[tactic(auto, unfolding(wac_json_forms::specs::Forms::extern_type_json))]
    fn to_value(&self, alloc: Global) -> Result<Value, AllocError> {
        match self {
            ExternType::Ident(id) => variant_of(alloc, "ident", id),
            ExternType::Func(func) => variant_of(alloc, "func", func),
            ExternType::Interface(interface) => variant_of(alloc, "interface", interface),
        }
    }
}
