//! Export statements.

use crate::ToValue;
use crate::build::{Object, text, variant_of};
use serde_json::Value;
use std::alloc::{AllocError, Global};
use wac_ast::{ExportOptions, ExportStatement};

impl ToValue for ExportStatement<'_> {
    ghost use Rattle.wac_ast_statements.specs.Statements.{export_statement_of};
    ghost use Rattle.wac_json_forms.specs.Forms.{export_statement_json};

    ghost form = { λ x. export_statement_json (export_statement_of x) };

    #[tactic(auto, using(crate::proofs::Forms::forms), unfolding(wac_json_forms::specs::Forms::export_statement_json))]
    fn to_value(&self, alloc: Global) -> Result<Value, AllocError> {
        Ok(
            Object::new(alloc)
                .with("docs", &self.docs)?
                .with("expr", &self.expr)?
                .with("options", &self.options)?
                .into_value(),
        )
    }
}

impl ToValue for ExportOptions<'_> {
    ghost use Rattle.wac_ast_statements.specs.Statements.{export_options_of};
    ghost use Rattle.wac_json_forms.specs.Forms.{export_options_json};

    ghost form = { λ x. export_options_json (export_options_of x) };

    #[tactic(auto, unfolding(wac_json_forms::specs::Forms::export_options_json))]
    fn to_value(&self, alloc: Global) -> Result<Value, AllocError> {
        match self {
            ExportOptions::None => text(alloc, "none"),
            ExportOptions::Spread(span) => variant_of(alloc, "spread", span),
            ExportOptions::Rename(name) => variant_of(alloc, "rename", name),
        }
    }
}
