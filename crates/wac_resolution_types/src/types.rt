//! Types of values.
ghost use Rattle.std.specs.Prelude.{IfOk, map};
ghost use Rattle.wac_ast_grammar.specs.Tree.{types_from};
ghost use Rattle.wac_graph_types.specs.Table.{ItemsNamed};
ghost use Rattle.wac_ast_types.specs.Types.{ty_of, optional_of};
ghost use Rattle.wac_graph.specs.Origin.{Numbering};
ghost use Rattle.wac_resolution_rules.specs.BrokenTypes.{TypeBroken, OptionalBroken, TypesBroken};
ghost use Rattle.wac_resolution_rules.specs.Errors.{ErrorSays};
ghost use Rattle.wac_resolution_state.specs.Bindings.{values_of};
ghost use Rattle.wac_resolution_state.specs.Named.{scope_of};
ghost use Rattle.wac_resolution_types.specs.Types.{TypeIs, TypesAre, OptionalIs};

use wac_ast_types::Type;
use wac_graph::{DefinedType, ItemKind, PrimitiveType, ValueType};
use wac_resolution_errors::Error;
use wac_resolution_state::{Names, State, named_resource, named_type};

/// The type of values that a type means.
#[cycle(types)]
pub fn value_type(
    ty: &Type<'_>,
    state: &mut State,
    names: &Names<'_, ItemKind>,
) -> Result<ValueType, Error>
    requires { ItemsNamed state.old.graph.types (values_of names.now) }
    ensures ok { IfOk result (λ v. TypeIs state.old.graph state.new.graph (values_of names.now) (ty_of ty.now) v) }
    ensures err { ErrorSays result (λ e. (numbering : Numbering)
        → TypeBroken (scope_of numbering state.old.graph (values_of names.now)) (ty_of ty.now) e) }
{
    match ty {
        Type::U8(_) => Ok(ValueType::Primitive(PrimitiveType::U8)),
        Type::S8(_) => Ok(ValueType::Primitive(PrimitiveType::S8)),
        Type::U16(_) => Ok(ValueType::Primitive(PrimitiveType::U16)),
        Type::S16(_) => Ok(ValueType::Primitive(PrimitiveType::S16)),
        Type::U32(_) => Ok(ValueType::Primitive(PrimitiveType::U32)),
        Type::S32(_) => Ok(ValueType::Primitive(PrimitiveType::S32)),
        Type::U64(_) => Ok(ValueType::Primitive(PrimitiveType::U64)),
        Type::S64(_) => Ok(ValueType::Primitive(PrimitiveType::S64)),
        Type::F32(_) => Ok(ValueType::Primitive(PrimitiveType::F32)),
        Type::F64(_) => Ok(ValueType::Primitive(PrimitiveType::F64)),
        Type::Char(_) => Ok(ValueType::Primitive(PrimitiveType::Char)),
        Type::Bool(_) => Ok(ValueType::Primitive(PrimitiveType::Bool)),
        Type::String(_) => Ok(ValueType::Primitive(PrimitiveType::String)),
        Type::Tuple(types, _) => {
            let values = value_types(types, state, names)?;
            Ok(state.add_defined(DefinedType::Tuple(values))?)
        }
        Type::List(inner, _) => {
            let value = value_type(inner, state, names)?;
            Ok(state.add_defined(DefinedType::List(value))?)
        }
        Type::Option(inner, _) => {
            let value = value_type(inner, state, names)?;
            Ok(state.add_defined(DefinedType::Option(value))?)
        }
        Type::Result { ok, err, .. } => {
            let ok = optional(ok, state, names)?;
            let err = optional(err, state, names)?;
            Ok(state.add_defined(DefinedType::Result { ok, err })?)
        }
        Type::Borrow(id, _) => Ok(ValueType::Borrow(named_resource(state.alloc, names, id)?)),
        Type::Stream(inner, _) => {
            let value = optional(inner, state, names)?;
            Ok(state.add_defined(DefinedType::Stream(value))?)
        }
        Type::Future(inner, _) => {
            let value = optional(inner, state, names)?;
            Ok(state.add_defined(DefinedType::Future(value))?)
        }
        Type::ErrorContext(_) => Ok(ValueType::Primitive(PrimitiveType::ErrorContext)),
        Type::Ident(id) => named_type(state.alloc, names, id),
    }
}

/// The type that may be left out.
#[cycle(types)]
fn optional(
    ty: &Option<Box<Type<'_>>>,
    state: &mut State,
    names: &Names<'_, ItemKind>,
) -> Result<Option<ValueType>, Error>
    requires { ItemsNamed state.old.graph.types (values_of names.now) }
    ensures ok { IfOk result (λ v. OptionalIs state.old.graph state.new.graph (values_of names.now)
        (optional_of ty.now) v) }
    ensures err { ErrorSays result (λ e. (numbering : Numbering)
        → OptionalBroken (scope_of numbering state.old.graph (values_of names.now)) (optional_of ty.now) e) }
{
    match ty {
        Some(ty) => Ok(Some(value_type(ty, state, names)?)),
        None => Ok(None),
    }
}

/// The types of values that types mean, in order.
#[cycle(types)]
fn value_types(
    types: &[Type<'_>],
    state: &mut State,
    names: &Names<'_, ItemKind>,
) -> Result<Vec<ValueType>, Error>
    requires { ItemsNamed state.old.graph.types (values_of names.now) }
    ensures ok { IfOk result (λ vs. TypesAre state.old.graph state.new.graph (values_of names.now)
        (types_from (map ty_of types.now)) vs.items) }
    ensures err { ErrorSays result (λ e. (numbering : Numbering)
        → TypesBroken (scope_of numbering state.old.graph (values_of names.now)) (types_from (map ty_of types.now)) e) }
{
    let mut values = Vec::new(state.alloc);
    for ty in types {
        let value = value_type(ty, state, names)?;
        values.push(value)?;
    }
    Ok(values)
}
