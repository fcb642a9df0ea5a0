//! Types of values.

ghost use Rattle.std.specs.Prelude.{◌≡◌, IfOk};
ghost use Rattle.serde_json.specs.View.{members_view, view};
ghost use Rattle.wac_ast_types.specs.Types.{optional_of};
ghost use Rattle.wac_json_forms.specs.Forms.{optional_ty_json, pair, span_json, variant};
ghost use Rattle.wac_json.specs.Built.{placed, result_variant};
ghost use Rattle.wac_json.specs.Floatless.{IsFloatless};
ghost use Rattle.wac_json.specs.Lists.{type_list};

use crate::ToValue;
use crate::build::{Array, Object, pair, variant, variant_of};
use serde_json::Value;
use std::alloc::{AllocError, Global};
use wac_ast::Type;
use wac_lexer::SourceSpan;

impl ToValue for Type<'_> {
    ghost use Rattle.wac_ast_types.specs.Types.{ty_of};
    ghost use Rattle.wac_json_forms.specs.Forms.{ty_json};

    ghost form = { λ x. ty_json (ty_of x) };

    #[cycle(types)]
    #[tactic(auto, unfolding(wac_json_forms::specs::Forms::ty_json, wac_json_forms::specs::Forms::optional_ty_json))]
    fn to_value(&self, alloc: Global) -> Result<Value, AllocError> {
        match self {
            Type::U8(span) => variant_of(alloc, "u8", span),
            Type::S8(span) => variant_of(alloc, "s8", span),
            Type::U16(span) => variant_of(alloc, "u16", span),
            Type::S16(span) => variant_of(alloc, "s16", span),
            Type::U32(span) => variant_of(alloc, "u32", span),
            Type::S32(span) => variant_of(alloc, "s32", span),
            Type::U64(span) => variant_of(alloc, "u64", span),
            Type::S64(span) => variant_of(alloc, "s64", span),
            Type::F32(span) => variant_of(alloc, "f32", span),
            Type::F64(span) => variant_of(alloc, "f64", span),
            Type::Char(span) => variant_of(alloc, "char", span),
            Type::Bool(span) => variant_of(alloc, "bool", span),
            Type::String(span) => variant_of(alloc, "string", span),
            Type::Tuple(types, span) => with_span(alloc, "tuple", types_value(alloc, types)?, span),
            Type::List(ty, span) => with_span(alloc, "list", ty.to_value(alloc)?, span),
            Type::Option(ty, span) => with_span(alloc, "option", ty.to_value(alloc)?, span),
            Type::Result { ok, err, span } => {
                let ok = payload_value(alloc, ok)?;
                let err = payload_value(alloc, err)?;
                result_value(alloc, ok, err, span)
            }
            Type::Borrow(id, span) => with_span(alloc, "borrow", id.to_value(alloc)?, span),
            Type::Stream(ty, span) => with_span(alloc, "stream", payload_value(alloc, ty)?, span),
            Type::Future(ty, span) => with_span(alloc, "future", payload_value(alloc, ty)?, span),
            Type::ErrorContext(span) => variant_of(alloc, "errorContext", span),
            Type::Ident(id) => variant_of(alloc, "ident", id),
        }
    }
}

/// The types of a tuple.
#[cycle(types)]
fn types_value(alloc: Global, types: &Vec<Type<'_>>) -> Result<Value, AllocError>
    ensures formed { IfOk result (λ value. view value ≡ type_list types.now.items) }
    ensures floatless { IfOk result IsFloatless }
{
    let mut values = Array::new(alloc);
    for ty in types {
        values.push(ty.to_value(alloc)?)?;
    }
    Ok(values.into_value())
}

/// A type that may be left out.
#[cycle(types)]
#[tactic(auto, unfolding(wac_json_forms::specs::Forms::optional_ty_json))]
fn payload_value(alloc: Global, payload: &Option<Box<Type<'_>>>) -> Result<Value, AllocError>
    ensures formed { IfOk result (λ value. view value ≡ optional_ty_json (optional_of payload.now)) }
    ensures floatless { IfOk result IsFloatless }
{
    match payload {
        Some(ty) => ty.to_value(alloc),
        None => Ok(Value::Null),
    }
}

/// A variant of two contents, the second its span.
fn with_span(
    alloc: Global,
    name: &str,
    content: Value,
    span: &SourceSpan,
) -> Result<Value, AllocError>
    requires { IsFloatless content }
    ensures formed { IfOk result (λ value. view value ≡ variant name.now (pair (view content) (span_json span.now))) }
    ensures floatless { IfOk result IsFloatless }
{
    let contents = pair(alloc, content, span.to_value(alloc)?)?;
    variant(alloc, name, contents)
}

/// The variant whose contents have names.
fn result_value(
    alloc: Global,
    ok: Value,
    err: Value,
    span: &SourceSpan,
) -> Result<Value, AllocError>
    requires ok { IsFloatless ok }
    requires err { IsFloatless err }
    ensures formed { IfOk result (λ value. view value ≡ result_variant (view ok) (view err) (span_json span.now)) }
    ensures floatless { IfOk result IsFloatless }
{
    let placed = placed_value(alloc, ok, span)?;
    variant(alloc, "result", placed.with_value("err", err)?.into_value())
}

/// The members of a result but its second type.
fn placed_value(alloc: Global, ok: Value, span: &SourceSpan) -> Result<Object, AllocError>
    requires { IsFloatless ok }
    ensures { IfOk result (λ object. members_view object.members.entries ≡ placed (view ok) (span_json span.now)) }
{
    Object::new(alloc).with_value("ok", ok)?.with("span", span)
}
