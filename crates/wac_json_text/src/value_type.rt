//! Types.
ghost use Rattle.std.specs.Prelude.{◌≡◌, ℕ, List, codes, map};
ghost use Rattle.std.specs.List.{flat_map};
ghost use Rattle.wac_ast_grammar.specs.Tree as tree;
ghost use Rattle.wac_ast_base.specs.Names.{ident_of};
ghost use Rattle.wac_ast_types.specs.Types.{optional_of, ty_of};
ghost use Rattle.wac_printer_pieces.specs.Printed.{Prints};
ghost use Rattle.wac_json_text.specs.Contents.{failure_pieces, held_pieces, keyword_pieces, perhaps_held_pieces, result_end_pieces, success_pieces, tuple_json};
ghost use Rattle.wac_json_forms.specs.Forms.{optional_ty_json, ty_json};
ghost use Rattle.wac_json_text.specs.Pieces.{after_comma, joined_pieces, pieces};

use crate::form::{Enclosed, Json};
use crate::parts::enclosed;
use wac_ast::{Ident, Type};
use wac_lexer::{Sink, SourceSpan};
use wac_printer_pieces::{Pieces, PrintResult};

impl Json for Type<'_> {
    ghost form = { λ x. ty_json (ty_of x) };

    fn write<S: Sink>(&self, out: &mut Pieces<'_, S>) -> PrintResult {
        ty(self, out)
    }
}

/// Writes a type that is a keyword: its place.
fn keyword<S: Sink>(opening: &str, span: &SourceSpan, out: &mut Pieces<'_, S>) -> PrintResult
    ensures { Prints out.old result out.new (keyword_pieces opening.now span.now) }
{
    enclosed(opening, span, "}}", out)
}

/// Writes a borrowed resource.
fn borrowed<S: Sink>(id: &Ident<'_>, span: &SourceSpan, out: &mut Pieces<'_, S>) -> PrintResult
    ensures { Prints out.old result out.new (pieces (ty_json (tree.Ty.borrow (ident_of id.now) span.now))) }
{
    out.blank("{\"borrow\":[{\"span\":{\"length\":")
        .and(id.write_inside(out))
        .and(out.blank("\"},{\"length\":"))
        .and(span.write_inside(out))
        .and(out.blank("}]}"))
}

/// Writes a type.
#[cycle(types)]
pub(crate) fn ty<S: Sink>(tree: &Type<'_>, out: &mut Pieces<'_, S>) -> PrintResult
    ensures { Prints out.old result out.new (pieces (ty_json (ty_of tree.now))) }
{
    match tree {
        Type::U8(span) => keyword("{\"u8\":{\"length\":", span, out),
        Type::S8(span) => keyword("{\"s8\":{\"length\":", span, out),
        Type::U16(span) => keyword("{\"u16\":{\"length\":", span, out),
        Type::S16(span) => keyword("{\"s16\":{\"length\":", span, out),
        Type::U32(span) => keyword("{\"u32\":{\"length\":", span, out),
        Type::S32(span) => keyword("{\"s32\":{\"length\":", span, out),
        Type::U64(span) => keyword("{\"u64\":{\"length\":", span, out),
        Type::S64(span) => keyword("{\"s64\":{\"length\":", span, out),
        Type::F32(span) => keyword("{\"f32\":{\"length\":", span, out),
        Type::F64(span) => keyword("{\"f64\":{\"length\":", span, out),
        Type::Char(span) => keyword("{\"char\":{\"length\":", span, out),
        Type::Bool(span) => keyword("{\"bool\":{\"length\":", span, out),
        Type::String(span) => keyword("{\"string\":{\"length\":", span, out),
        Type::Tuple(types, span) => tuple(types, span, out),
        Type::List(held, span) => holding(held, "{\"list\":[", span, out),
        Type::Option(held, span) => holding(held, "{\"option\":[", span, out),
        Type::Result { ok, err, span } => failure(err, out)
            .and(success(ok, out))
            .and(result_end(span, out)),
        Type::Borrow(id, span) => borrowed(id, span, out),
        Type::Stream(held, span) => perhaps_holding(held, "{\"stream\":[", span, out),
        Type::Future(held, span) => perhaps_holding(held, "{\"future\":[", span, out),
        Type::ErrorContext(span) => keyword("{\"errorContext\":{\"length\":", span, out),
        Type::Ident(id) => enclosed("{\"ident\":{\"span\":{\"length\":", id, "\"}}", out),
    }
}

/// Writes a type that holds one.
#[cycle(types)]
fn holding<S: Sink>(
    held: &Type<'_>,
    opening: &str,
    span: &SourceSpan,
    out: &mut Pieces<'_, S>,
) -> PrintResult
    ensures { Prints out.old result out.new (held_pieces opening.now (ty_json (ty_of held.now)) span.now) }
{
    out.blank(opening)
        .and(ty(held, out))
        .and(out.blank(",{\"length\":"))
        .and(span.write_inside(out))
        .and(out.blank("}]}"))
}

/// Writes a type that may hold one.
#[cycle(types)]
fn perhaps_holding<S: Sink>(
    held: &Option<Box<Type<'_>>>,
    opening: &str,
    span: &SourceSpan,
    out: &mut Pieces<'_, S>,
) -> PrintResult
    ensures { Prints out.old result out.new (perhaps_held_pieces opening.now (optional_of held.now) span.now) }
{
    out.blank(opening)
        .and(payload(held, out))
        .and(out.blank(",{\"length\":"))
        .and(span.write_inside(out))
        .and(out.blank("}]}"))
}

/// Writes a type that may be left out.
#[cycle(types)]
fn payload<S: Sink>(held: &Option<Box<Type<'_>>>, out: &mut Pieces<'_, S>) -> PrintResult
    ensures { Prints out.old result out.new (pieces (optional_ty_json (optional_of held.now))) }
{
    match held {
        Some(held) => ty(held, out),
        None => out.blank("null"),
    }
}

/// Writes what comes first of a result: what it gives on failure.
#[cycle(types)]
fn failure<S: Sink>(err: &Option<Box<Type<'_>>>, out: &mut Pieces<'_, S>) -> PrintResult
    ensures { Prints out.old result out.new (failure_pieces (optional_ty_json (optional_of err.now))) }
{
    out.blank("{\"result\":{\"err\":").and(payload(err, out))
}

/// Writes what a result gives on success.
#[cycle(types)]
fn success<S: Sink>(ok: &Option<Box<Type<'_>>>, out: &mut Pieces<'_, S>) -> PrintResult
    ensures { Prints out.old result out.new (success_pieces (optional_ty_json (optional_of ok.now))) }
{
    out.blank(",\"ok\":").and(payload(ok, out))
}

/// Writes the place of a result, which comes last.
fn result_end<S: Sink>(span: &SourceSpan, out: &mut Pieces<'_, S>) -> PrintResult
    ensures { Prints out.old result out.new (result_end_pieces span.now) }
{
    enclosed(",\"span\":{\"length\":", span, "}}}", out)
}

/// Writes a tuple.
#[cycle(types)]
fn tuple<S: Sink>(types: &[Type<'_>], span: &SourceSpan, out: &mut Pieces<'_, S>) -> PrintResult
    ensures { Prints out.old result out.new (pieces (tuple_json (map ty_of types.now) span.now)) }
{
    out.blank("{\"tuple\":[[")
        .and(joined_types(types, out))
        .and(out.blank("],{\"length\":"))
        .and(span.write_inside(out))
        .and(out.blank("}]}"))
}

/// Writes types with a comma between two.
#[cycle(types)]
fn joined_types<S: Sink>(types: &[Type<'_>], out: &mut Pieces<'_, S>) -> PrintResult
    ensures { Prints out.old result out.new (joined_pieces (λ x. pieces (ty_json (ty_of x))) types.now) }
{
    match types.split_first() {
        None => out.ready(),
        Some((first, rest)) => {
            ty(first, out)?;
            further_types(rest, out)
        }
    }
}

/// Writes types, each after a comma.
#[cycle(types)]
fn further_types<S: Sink>(types: &[Type<'_>], out: &mut Pieces<'_, S>) -> PrintResult
    ensures { Prints out.old result out.new (flat_map (λ x. after_comma (pieces (ty_json (ty_of x)))) types.now) }
{
    out.ready()?;
    for held in types {
        further_type(held, out)?;
    }
    Ok(())
}

#[cycle(types)]
fn further_type<S: Sink>(held: &Type<'_>, out: &mut Pieces<'_, S>) -> PrintResult
    ensures { Prints out.old result out.new (after_comma (pieces (ty_json (ty_of held.now)))) }
{
    out.blank(",").and(ty(held, out))
}
