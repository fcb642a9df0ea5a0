//! Names in types and function types.
ghost use Rattle.std.specs.Prelude.{[], ◌∷◌, OnOk, flat_map, map};
ghost use Rattle.wac_ast_grammar.specs.Tree.{types_from};
ghost use Rattle.wac_ast_base.specs.Names.{ident_of};
ghost use Rattle.wac_ast_types.specs.Declarations.{func_type_of, func_type_ref_of, named_type_of, result_list_of, type_alias_kind_of};
ghost use Rattle.wac_ast_types.specs.Types.{optional_of, ty_of};
ghost use Rattle.wac_names.specs.Traced.{Takes};
ghost use Rattle.wac_names.specs.Steps.{Step, alias_kind_steps, func_ref_steps, func_steps, named_type_steps, optional_steps, results_steps, type_steps, types_steps};

use crate::finder::Finder;
use crate::names::Kind;
use crate::place::Here;
use std::alloc::AllocError;
use wac_ast_base::Ident;
use wac_ast_types::{FuncType, FuncTypeRef, NamedType, ResultList, Type, TypeAliasKind};

/// Notes the type that an identifier denotes in a scope.
fn named<'a>(finder: &mut Finder<'a>, here: Here, id: &Ident<'a>) -> Result<(), AllocError>
    ensures { OnOk result (Takes finder.old finder.new (Step.looks_up here.level (ident_of id.now) ∷ [])) }
{
    finder.look_up(here, id)?;
    Ok(())
}

/// Notes the names of a type in a scope.
#[cycle(types)]
pub(crate) fn value_type<'a>(
    ty: &Type<'a>,
    finder: &mut Finder<'a>,
    here: Here,
) -> Result<(), AllocError>
    ensures { OnOk result (Takes finder.old finder.new (type_steps here.level (ty_of ty.now))) }
{
    match ty {
        Type::Ident(id) => named(finder, here, id),
        Type::Borrow(id, _) => named(finder, here, id),
        Type::Tuple(types, _) => value_types(types, finder, here),
        Type::List(inner, _) => value_type(inner, finder, here),
        Type::Option(inner, _) => value_type(inner, finder, here),
        Type::Result { ok, err, .. } => {
            optional(ok, finder, here)?;
            optional(err, finder, here)
        }
        Type::Stream(inner, _) => optional(inner, finder, here),
        Type::Future(inner, _) => optional(inner, finder, here),
        _ => Ok(()),
    }
}

/// Notes the names of a type that may be left out.
#[cycle(types)]
fn optional<'a>(
    ty: &Option<Box<Type<'a>>>,
    finder: &mut Finder<'a>,
    here: Here,
) -> Result<(), AllocError>
    ensures { OnOk result (Takes finder.old finder.new (optional_steps here.level (optional_of ty.now))) }
{
    match ty {
        Some(ty) => value_type(ty, finder, here),
        None => Ok(()),
    }
}

/// Notes the names of types.
#[cycle(types)]
fn value_types<'a>(
    types: &[Type<'a>],
    finder: &mut Finder<'a>,
    here: Here,
) -> Result<(), AllocError>
    ensures { OnOk result (Takes finder.old finder.new
        (types_steps here.level (types_from (map ty_of types.now)))) }
{
    for ty in types {
        value_type(ty, finder, here)?;
    }
    Ok(())
}

/// Notes a parameter or a result of a function.
fn named_type<'a>(
    one: &NamedType<'a>,
    finder: &mut Finder<'a>,
    here: Here,
    owner: usize,
    kind: Kind,
) -> Result<(), AllocError>
    ensures { OnOk result (Takes finder.old finder.new (named_type_steps here.level (named_type_of one.now))) }
{
    finder.declare(&one.id, kind, Some(owner))?;
    value_type(&one.ty, finder, here)
}

/// Notes parameters or results of a function.
fn named_types<'a>(
    all: &[NamedType<'a>],
    finder: &mut Finder<'a>,
    here: Here,
    owner: usize,
    kind: Kind,
) -> Result<(), AllocError>
    ensures { OnOk result (Takes finder.old finder.new
        (flat_map (named_type_steps here.level) (map named_type_of all.now))) }
{
    for one in all {
        named_type(one, finder, here, owner, kind)?;
    }
    Ok(())
}

/// Notes parameters, in the declaration of the name of a number.
pub(crate) fn parameters<'a>(
    all: &[NamedType<'a>],
    finder: &mut Finder<'a>,
    here: Here,
    owner: usize,
) -> Result<(), AllocError>
    ensures { OnOk result (Takes finder.old finder.new
        (flat_map (named_type_steps here.level) (map named_type_of all.now))) }
{
    named_types(all, finder, here, owner, Kind::Parameter)
}

/// Notes the results of a function.
fn results<'a>(
    results: &ResultList<'a>,
    finder: &mut Finder<'a>,
    here: Here,
    owner: usize,
) -> Result<(), AllocError>
    ensures { OnOk result (Takes finder.old finder.new (results_steps here.level (result_list_of results.now))) }
{
    match results {
        ResultList::Empty => Ok(()),
        ResultList::Scalar(ty) => value_type(ty, finder, here),
        ResultList::Named(all) => named_types(all, finder, here, owner, Kind::NamedResult),
    }
}

/// Notes the names of a function type, in the declaration of the name of a number.
pub(crate) fn function<'a>(
    func: &FuncType<'a>,
    finder: &mut Finder<'a>,
    here: Here,
    owner: usize,
) -> Result<(), AllocError>
    ensures { OnOk result (Takes finder.old finder.new (func_steps here.level (func_type_of func.now))) }
{
    parameters(&func.params, finder, here, owner)?;
    results(&func.results, finder, here, owner)
}

/// Notes the names of a function type or of a reference to one.
pub(crate) fn function_reference<'a>(
    reference: &FuncTypeRef<'a>,
    finder: &mut Finder<'a>,
    here: Here,
    owner: usize,
) -> Result<(), AllocError>
    ensures { OnOk result (Takes finder.old finder.new
        (func_ref_steps here.level (func_type_ref_of reference.now))) }
{
    match reference {
        FuncTypeRef::Func(func) => function(func, finder, here, owner),
        FuncTypeRef::Ident(id) => named(finder, here, id),
    }
}

/// Notes the names of what an alias is of.
pub(crate) fn aliased<'a>(
    kind: &TypeAliasKind<'a>,
    finder: &mut Finder<'a>,
    here: Here,
    owner: usize,
) -> Result<(), AllocError>
    ensures { OnOk result (Takes finder.old finder.new
        (alias_kind_steps here.level (type_alias_kind_of kind.now))) }
{
    match kind {
        TypeAliasKind::Func(func) => function(func, finder, here, owner),
        TypeAliasKind::Ty(ty) => value_type(ty, finder, here),
    }
}
