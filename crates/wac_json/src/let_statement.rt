//! Let statements.

use crate::ToValue;
use crate::build::Object;
use serde_json::Value;
use std::alloc::{AllocError, Global};
use wac_ast::LetStatement;

impl ToValue for LetStatement<'_> {
    ghost use Rattle.wac_ast_statements.specs.Statements.{let_statement_of};
    ghost use Rattle.wac_json_forms.specs.Forms.{let_statement_json};

    ghost form = { λ x. let_statement_json (let_statement_of x) };

    #[tactic(auto, using(crate::proofs::Forms::forms), unfolding(wac_json_forms::specs::Forms::let_statement_json))]
    fn to_value(&self, alloc: Global) -> Result<Value, AllocError> {
        Ok(
            Object::new(alloc)
                .with("docs", &self.docs)?
                .with("id", &self.id)?
                .with("expr", &self.expr)?
                .into_value(),
        )
    }
}
