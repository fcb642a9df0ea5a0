//! Aliases of types.
ghost use Rattle.std.specs.Prelude.{◌≡◌, IfOk, MatchOption, option_map};
ghost use Rattle.wac_graph_types.specs.declared.kind.ItemKind.TheVariants as kinds;
ghost use Rattle.wac_graph_types.specs.declared.kind.«Type».TheVariants as types;
ghost use Rattle.wac_ast_grammar.specs.Tree.{Ty};
ghost use Rattle.wac_graph_types.specs.Meaning.{Meaning};
ghost use Rattle.wac_graph_types.specs.Shape.{alias_type};
ghost use Rattle.wac_graph_types.specs.Table.{ItemsNamed, Names as NamesEntry};
ghost use Rattle.wac_ast_base.specs.Names.{ident_of};
ghost use Rattle.wac_ast_types.specs.Types.{ty_of};
ghost use Rattle.wac_ast_types.specs.Declarations.{type_alias_kind_of};
ghost use Rattle.wac_graph.specs.Means.{declared_count};
ghost use Rattle.wac_graph.specs.Origin.{Numbering};
ghost use Rattle.wac_resolution_rules.specs.Types.{HasType};
ghost use Rattle.wac_resolution_rules.specs.Declarations.{alone, at_root, in_body, IsTypeAlias, IsAlias};
ghost use Rattle.wac_resolution_rules.specs.BrokenTypes.{TypeBroken, IsUndefined};
ghost use Rattle.wac_resolution_rules.specs.BrokenDeclarations.{TypeAliasBroken, AliasBroken};
ghost use Rattle.wac_resolution_rules.specs.Errors.{ErrorSays};
ghost use Rattle.wac_resolution_state.specs.Bindings.{values_of};
ghost use Rattle.wac_resolution_types.specs.Declarations.{aliasing_at, made_at_root, made_in_body, made_at, IsAliased, IsNotAliased, ValueAdded, KindAdded};
ghost use Rattle.wac_resolution_state.specs.Named.{scope_of};

use crate::func::function;
use crate::place::Place;
use crate::types::value_type;
use indexmap::IndexMap;
use std::alloc::AllocError;
use wac_ast_base::Ident;
use wac_ast_types::{Type as TypeTree, TypeAliasKind};
use wac_graph::{DefinedType, FuncKind, ItemKind, Type, ValueType};
use wac_resolution_errors::Error;
use wac_resolution_state::{Names, State, kind_of};

/// The identifier that a type is.
#[tactic(auto, using(crate::proofs::Aliasing::not_alone))]
fn identifier<'x, 'a>(ty: &'x TypeTree<'a>) -> Option<&'x Ident<'a>>
    ensures { option_map (λ id. ident_of id.now) result ≡ alone (ty_of ty.now) }
{
    match ty {
        TypeTree::Ident(id) => Some(id),
        _ => None,
    }
}

/// Makes another name of a kind, if it can be aliased at root.
fn aliased_at_root(state: &mut State, kind: ItemKind) -> Result<Option<ItemKind>, AllocError>
    requires { NamesEntry state.old.graph.types kind }
    ensures { IfOk result (λ o. MatchOption o (IsNotAliased state.old.graph (made_at_root state.old.graph) kind)
        (λ made. IsAliased state.old.graph state.new.graph (made_at_root state.old.graph) kind made)) }
{
    match kind {
        ItemKind::Ty(Type::Value(value)) => {
            let alias = state.add_defined(DefinedType::Alias(value))?;
            Ok(Some(ItemKind::Ty(Type::Value(alias))))
        }
        ItemKind::Ty(Type::Func(func)) => Ok(Some(ItemKind::Ty(Type::Func(func)))),
        ItemKind::Func(func) => Ok(Some(ItemKind::Ty(Type::Func(func)))),
        _ => Ok(None),
    }
}

/// Makes another name of a kind, if it can be aliased in a body.
fn aliased_in_body(
    state: &mut State,
    name: &str,
    kind: ItemKind,
) -> Result<Option<ItemKind>, AllocError>
    requires { NamesEntry state.old.graph.types kind }
    ensures { IfOk result (λ o. MatchOption o
        (IsNotAliased state.old.graph (made_in_body state.old.graph name.now) kind)
        (λ made. IsAliased state.old.graph state.new.graph (made_in_body state.old.graph name.now) kind made)) }
{
    match kind {
        ItemKind::Ty(Type::Resource(resource)) => {
            let alias = state.add_alias(name, resource)?;
            Ok(Some(ItemKind::Ty(Type::Resource(alias))))
        }
        other => aliased_at_root(state, other),
    }
}

/// Makes another name of a kind, if it can be aliased there.
fn aliased(
    state: &mut State,
    place: Place,
    name: &str,
    kind: ItemKind,
) -> Result<Option<ItemKind>, AllocError>
    requires { NamesEntry state.old.graph.types kind }
    ensures { IfOk result (λ o. MatchOption o
        (IsNotAliased state.old.graph (made_at place state.old.graph name.now) kind)
        (λ made. IsAliased state.old.graph state.new.graph (made_at place state.old.graph name.now) kind made)) }
{
    match place {
        Place::Root => aliased_at_root(state, kind),
        Place::Body => aliased_in_body(state, name, kind),
    }
}

/// An alias of what an identifier denotes.
fn alias_of_name(
    state: &mut State,
    names: &Names<'_, ItemKind>,
    place: Place,
    name: &str,
    id: &Ident<'_>,
) -> Result<ItemKind, Error>
    requires { ItemsNamed state.old.graph.types (values_of names.now) }
    ensures ok { IfOk result (λ k. KindAdded state.old.graph state.new.graph
        (λ numbering m after. IsTypeAlias (aliasing_at place numbering)
        (scope_of numbering state.old.graph (values_of names.now)) (declared_count state.old.graph) name.now
        (Some (ident_of id.now)) (Ty.ident (ident_of id.now)) m after) k) }
    ensures err { ErrorSays result (λ e. (numbering : Numbering)
        → TypeAliasBroken (aliasing_at place numbering) (scope_of numbering state.old.graph (values_of names.now))
        (declared_count state.old.graph) name.now (Some (ident_of id.now)) (Ty.ident (ident_of id.now)) e) }
{
    let kind = kind_of(state.alloc, names, id)?;
    match aliased(state, place, name, kind)? {
        Some(made) => Ok(made),
        None => Err(Error::InvalidAliasType {
            name: String::from_str(state.alloc, id.string)?,
            kind: kind.desc(),
            span: id.span,
        }),
    }
}

/// An alias of a type expression.
fn alias_of_expression(
    state: &mut State,
    names: &Names<'_, ItemKind>,
    ty: &TypeTree<'_>,
) -> Result<ValueType, Error>
    requires { ItemsNamed state.old.graph.types (values_of names.now) }
    ensures ok { IfOk result (λ v. ValueAdded state.old.graph state.new.graph
        (λ numbering m. (inner : Meaning)
        × HasType (scope_of numbering state.old.graph (values_of names.now)) (ty_of ty.now) inner
        × (m ≡ alias_type inner)) v) }
    ensures err { ErrorSays result (λ e. (numbering : Numbering)
        → TypeBroken (scope_of numbering state.old.graph (values_of names.now)) (ty_of ty.now) e) }
{
    let value = value_type(ty, state, names)?;
    Ok(state.add_defined(DefinedType::Alias(value))?)
}

/// An alias of a type.
fn alias_of_type(
    state: &mut State,
    names: &Names<'_, ItemKind>,
    place: Place,
    name: &str,
    ty: &TypeTree<'_>,
) -> Result<ItemKind, Error>
    requires { ItemsNamed state.old.graph.types (values_of names.now) }
    ensures ok { IfOk result (λ k. KindAdded state.old.graph state.new.graph
        (λ numbering m after. IsTypeAlias (aliasing_at place numbering)
        (scope_of numbering state.old.graph (values_of names.now)) (declared_count state.old.graph) name.now
        (alone (ty_of ty.now)) (ty_of ty.now) m after) k) }
    ensures err { ErrorSays result (λ e. (numbering : Numbering)
        → TypeAliasBroken (aliasing_at place numbering) (scope_of numbering state.old.graph (values_of names.now))
        (declared_count state.old.graph) name.now (alone (ty_of ty.now)) (ty_of ty.now) e) }
{
    match identifier(ty) {
        Some(id) => Ok(alias_of_name(state, names, place, name, id)?),
        None => {
            let value = alias_of_expression(state, names, ty)?;
            Ok(ItemKind::Ty(Type::Value(value)))
        }
    }
}

/// An alias of this name.
pub fn alias(
    kind: &TypeAliasKind<'_>,
    state: &mut State,
    names: &Names<'_, ItemKind>,
    place: Place,
    name: &str,
) -> Result<ItemKind, Error>
    requires { ItemsNamed state.old.graph.types (values_of names.now) }
    ensures ok { IfOk result (λ k. KindAdded state.old.graph state.new.graph
        (λ numbering m after. IsAlias (aliasing_at place numbering)
        (scope_of numbering state.old.graph (values_of names.now)) (declared_count state.old.graph) name.now
        (type_alias_kind_of kind.now) m after) k) }
    ensures err { ErrorSays result (λ e. (numbering : Numbering)
        → AliasBroken (aliasing_at place numbering) (scope_of numbering state.old.graph (values_of names.now))
        (declared_count state.old.graph) name.now (type_alias_kind_of kind.now) e) }
{
    match kind {
        TypeAliasKind::Func(func) => {
            let first = IndexMap::new(state.alloc);
            let func = function(func, state, names, FuncKind::Free, first)?;
            Ok(ItemKind::Ty(Type::Func(func)))
        }
        TypeAliasKind::Ty(ty) => Ok(alias_of_type(state, names, place, name, ty)?),
    }
}
