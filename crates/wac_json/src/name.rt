//! Spans, identifiers, strings and docs.

use crate::ToValue;
use crate::build::Object;
use serde_json::Value;
use std::alloc::{AllocError, Global};
use wac_ast::{DocComment, Ident, String};
use wac_lexer::SourceSpan;

impl ToValue for SourceSpan {
    ghost use Rattle.wac_json_forms.specs.Forms.{span_json};

    ghost form = { span_json };

    #[tactic(auto, unfolding(wac_json_forms::specs::Forms::span_json))]
    fn to_value(&self, alloc: Global) -> Result<Value, AllocError> {
        Ok(
            Object::new(alloc)
                .with_value("offset", Value::from(self.offset()))?
                .with_value("length", Value::from(self.len()))?
                .into_value(),
        )
    }
}

impl ToValue for Ident<'_> {
    ghost use Rattle.wac_ast_base.specs.Names.{ident_of};
    ghost use Rattle.wac_json_forms.specs.Forms.{ident_json};

    ghost form = { λ x. ident_json (ident_of x) };

    #[tactic(auto, unfolding(wac_json_forms::specs::Forms::ident_json))]
    fn to_value(&self, alloc: Global) -> Result<Value, AllocError> {
        Ok(
            Object::new(alloc)
                .with("string", &self.string)?
                .with("span", &self.span)?
                .into_value(),
        )
    }
}

impl ToValue for String<'_> {
    ghost use Rattle.wac_ast_base.specs.Names.{string_of};
    ghost use Rattle.wac_json_forms.specs.Forms.{string_json};

    ghost form = { λ x. string_json (string_of x) };

    #[tactic(auto, unfolding(wac_json_forms::specs::Forms::string_json))]
    fn to_value(&self, alloc: Global) -> Result<Value, AllocError> {
        Ok(
            Object::new(alloc)
                .with("value", &self.value)?
                .with("span", &self.span)?
                .into_value(),
        )
    }
}

impl ToValue for DocComment<'_> {
    ghost use Rattle.wac_ast_base.specs.Names.{doc_comment_of};
    ghost use Rattle.wac_json_forms.specs.Forms.{doc_json};

    ghost form = { λ x. doc_json (doc_comment_of x) };

    #[tactic(auto, unfolding(wac_json_forms::specs::Forms::doc_json))]
    fn to_value(&self, alloc: Global) -> Result<Value, AllocError> {
        Ok(
            Object::new(alloc)
                .with("comment", &self.comment)?
                .with("span", &self.span)?
                .into_value(),
        )
    }
}
