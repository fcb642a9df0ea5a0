//! Whole documents.

use crate::ToValue;
use crate::build::{Object, variant_of};
use serde_json::Value;
use std::alloc::{AllocError, Global};
use wac_ast::{Document, PackageDirective, Statement};

impl ToValue for Document<'_> {
    ghost use Rattle.wac_ast.specs.Statements.{document_of};
    ghost use Rattle.wac_json_forms.specs.Forms.{json_of};

    ghost form = { λ x. json_of (document_of x) };

    #[tactic(auto, using(crate::proofs::Forms::forms), unfolding(wac_json_forms::specs::Forms::json_of))]
    fn to_value(&self, alloc: Global) -> Result<Value, AllocError> {
        let statements = self.statements.to_value(alloc)?;
        Ok(
            Object::new(alloc)
                .with("docs", &self.docs)?
                .with("directive", &self.directive)?
                .with_value("statements", statements)?
                .into_value(),
        )
    }
}

/// The one object with a member that may be left out: `targets`.
impl ToValue for PackageDirective<'_> {
    ghost use Rattle.wac_ast_statements.specs.Statements.{directive_of};
    ghost use Rattle.wac_json_forms.specs.Forms.{directive_json};

    ghost form = { λ x. directive_json (directive_of x) };

    #[tactic(auto, unfolding(wac_json_forms::specs::Forms::directive_json))]
    fn to_value(&self, alloc: Global) -> Result<Value, AllocError> {
        let directive = Object::new(alloc).with("package", &self.package)?;
        match &self.targets {
            Some(path) => Ok(directive.with("targets", path)?.into_value()),
            None => Ok(directive.into_value()),
        }
    }
}

/// The one enum whose variants keep their capital letters.
impl ToValue for Statement<'_> {
    ghost use Rattle.wac_ast.specs.Statements.{statement_of};
    ghost use Rattle.wac_json_forms.specs.Forms.{statement_json};

    ghost form = { λ x. statement_json (statement_of x) };

    #[tactic(auto, unfolding(wac_json_forms::specs::Forms::statement_json))]
    fn to_value(&self, alloc: Global) -> Result<Value, AllocError> {
        match self {
            Statement::Import(statement) => variant_of(alloc, "Import", statement),
            Statement::Ty(statement) => variant_of(alloc, "Type", statement),
            Statement::Let(statement) => variant_of(alloc, "Let", statement),
            Statement::Export(statement) => variant_of(alloc, "Export", statement),
        }
    }
}
