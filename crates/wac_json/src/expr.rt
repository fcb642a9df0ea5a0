//! Expressions.

ghost use Rattle.std.specs.Prelude.{◌≡◌, IfOk};
ghost use Rattle.serde_json.specs.View.{view};
ghost use Rattle.wac_json.specs.Floatless.{IsFloatless};
ghost use Rattle.wac_json.specs.Lists.{argument_list};

use crate::ToValue;
use crate::build::{Array, Object, variant, variant_of};
use serde_json::Value;
use std::alloc::{AllocError, Global};
use wac_ast::{
    AccessExpr, Expr, InstantiationArgument, InstantiationArgumentName, NamedAccessExpr,
    NamedInstantiationArgument, NestedExpr, NewExpr, PostfixExpr, PrimaryExpr,
};

impl ToValue for Expr<'_> {
    ghost use Rattle.wac_ast_statements.specs.Expressions.{expr_of};
    ghost use Rattle.wac_json_forms.specs.Forms.{expr_json};

    ghost form = { λ x. expr_json (expr_of x) };

    #[cycle(expressions)]
    #[tactic(auto, using(crate::proofs::Forms::forms), unfolding(wac_json_forms::specs::Forms::expr_json))]
    fn to_value(&self, alloc: Global) -> Result<Value, AllocError> {
        let primary = self.primary.to_value(alloc)?;
        Ok(
            Object::new(alloc)
                .with("span", &self.span)?
                .with_value("primary", primary)?
                .with("postfix", &self.postfix)?
                .into_value(),
        )
    }
}

impl ToValue for PrimaryExpr<'_> {
    ghost use Rattle.wac_ast_statements.specs.Expressions.{primary_expr_of};
    ghost use Rattle.wac_json_forms.specs.Forms.{primary_expr_json};

    ghost form = { λ x. primary_expr_json (primary_expr_of x) };

    #[cycle(expressions)]
    #[tactic(auto, unfolding(wac_json_forms::specs::Forms::primary_expr_json))]
    fn to_value(&self, alloc: Global) -> Result<Value, AllocError> {
        match self {
            PrimaryExpr::New(expr) => variant(alloc, "new", expr.to_value(alloc)?),
            PrimaryExpr::Nested(expr) => variant(alloc, "nested", expr.to_value(alloc)?),
            PrimaryExpr::Ident(id) => variant_of(alloc, "ident", id),
        }
    }
}

impl ToValue for NewExpr<'_> {
    ghost use Rattle.wac_ast_statements.specs.Expressions.{new_expr_of};
    ghost use Rattle.wac_json_forms.specs.Forms.{content, primary_expr_json};

    ghost form = { λ x. content (primary_expr_json (new_expr_of x)) };

    #[cycle(expressions)]
    #[tactic(auto, unfolding(wac_json_forms::specs::Forms::primary_expr_json))]
    fn to_value(&self, alloc: Global) -> Result<Value, AllocError> {
        let arguments = arguments_value(alloc, &self.arguments)?;
        Ok(
            Object::new(alloc)
                .with("span", &self.span)?
                .with("package", &self.package)?
                .with_value("arguments", arguments)?
                .into_value(),
        )
    }
}

/// The arguments of an instantiation.
#[cycle(expressions)]
fn arguments_value(
    alloc: Global,
    arguments: &Vec<InstantiationArgument<'_>>,
) -> Result<Value, AllocError>
    ensures formed { IfOk result (λ value. view value ≡ argument_list arguments.now.items) }
    ensures floatless { IfOk result IsFloatless }
{
    let mut values = Array::new(alloc);
    for argument in arguments {
        values.push(argument.to_value(alloc)?)?;
    }
    Ok(values.into_value())
}

impl ToValue for InstantiationArgument<'_> {
    ghost use Rattle.wac_ast_statements.specs.Expressions.{argument_of};
    ghost use Rattle.wac_json_forms.specs.Forms.{argument_json};

    ghost form = { λ x. argument_json (argument_of x) };

    #[cycle(expressions)]
    #[tactic(auto, unfolding(wac_json_forms::specs::Forms::argument_json))]
    fn to_value(&self, alloc: Global) -> Result<Value, AllocError> {
        match self {
            InstantiationArgument::Inferred(id) => variant_of(alloc, "inferred", id),
            InstantiationArgument::Spread(id) => variant_of(alloc, "spread", id),
            InstantiationArgument::Named(argument) => {
                variant(alloc, "named", argument.to_value(alloc)?)
            }
            InstantiationArgument::Fill(span) => variant_of(alloc, "fill", span),
        }
    }
}

impl ToValue for NamedInstantiationArgument<'_> {
    ghost use Rattle.wac_ast_statements.specs.Expressions.{named_argument_of};
    ghost use Rattle.wac_json_forms.specs.Forms.{named_argument_json};

    ghost form = { λ x. named_argument_json (named_argument_of x) };

    #[cycle(expressions)]
    #[tactic(auto, using(crate::proofs::Forms::forms), unfolding(wac_json_forms::specs::Forms::named_argument_json))]
    fn to_value(&self, alloc: Global) -> Result<Value, AllocError> {
        let expr = self.expr.to_value(alloc)?;
        Ok(
            Object::new(alloc)
                .with("name", &self.name)?
                .with_value("expr", expr)?
                .into_value(),
        )
    }
}

impl ToValue for NestedExpr<'_> {
    ghost use Rattle.wac_ast_statements.specs.Expressions.{nested_expr_of};
    ghost use Rattle.wac_json_forms.specs.Forms.{content, primary_expr_json};

    ghost form = { λ x. content (primary_expr_json (nested_expr_of x)) };

    #[cycle(expressions)]
    #[tactic(auto, unfolding(wac_json_forms::specs::Forms::primary_expr_json))]
    fn to_value(&self, alloc: Global) -> Result<Value, AllocError> {
        let inner = self.inner.to_value(alloc)?;
        Ok(
            Object::new(alloc)
                .with("span", &self.span)?
                .with_value("inner", inner)?
                .into_value(),
        )
    }
}

impl ToValue for InstantiationArgumentName<'_> {
    ghost use Rattle.wac_ast_statements.specs.Expressions.{argument_name_of};
    ghost use Rattle.wac_json_forms.specs.Forms.{argument_name_json};

    ghost form = { λ x. argument_name_json (argument_name_of x) };

    #[tactic(auto, unfolding(wac_json_forms::specs::Forms::argument_name_json))]
    fn to_value(&self, alloc: Global) -> Result<Value, AllocError> {
        match self {
            InstantiationArgumentName::Ident(id) => variant_of(alloc, "ident", id),
            InstantiationArgumentName::String(string) => variant_of(alloc, "string", string),
        }
    }
}

impl ToValue for PostfixExpr<'_> {
    ghost use Rattle.wac_ast_statements.specs.Expressions.{postfix_expr_of};
    ghost use Rattle.wac_json_forms.specs.Forms.{postfix_expr_json};

    ghost form = { λ x. postfix_expr_json (postfix_expr_of x) };

    #[tactic(auto, unfolding(wac_json_forms::specs::Forms::postfix_expr_json))]
    fn to_value(&self, alloc: Global) -> Result<Value, AllocError> {
        match self {
            PostfixExpr::Access(access) => variant_of(alloc, "access", access),
            PostfixExpr::NamedAccess(access) => variant_of(alloc, "namedAccess", access),
        }
    }
}

impl ToValue for AccessExpr<'_> {
    ghost use Rattle.wac_ast_statements.specs.Expressions.{access_expr_of};
    ghost use Rattle.wac_json_forms.specs.Forms.{access_expr_json};

    ghost form = { λ x. access_expr_json (access_expr_of x) };

    #[tactic(auto, unfolding(wac_json_forms::specs::Forms::access_expr_json))]
    fn to_value(&self, alloc: Global) -> Result<Value, AllocError> {
        Ok(
            Object::new(alloc)
                .with("span", &self.span)?
                .with("id", &self.id)?
                .into_value(),
        )
    }
}

impl ToValue for NamedAccessExpr<'_> {
    ghost use Rattle.wac_ast_statements.specs.Expressions.{named_access_expr_of};
    ghost use Rattle.wac_json_forms.specs.Forms.{named_access_expr_json};

    ghost form = { λ x. named_access_expr_json (named_access_expr_of x) };

    #[tactic(auto, unfolding(wac_json_forms::specs::Forms::named_access_expr_json))]
    fn to_value(&self, alloc: Global) -> Result<Value, AllocError> {
        Ok(
            Object::new(alloc)
                .with("span", &self.span)?
                .with("string", &self.string)?
                .into_value(),
        )
    }
}
