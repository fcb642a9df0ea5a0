//! Function types.
ghost use Rattle.std.specs.Prelude.{◌≡◌, [], List, IfOk, OnOk, map};
ghost use Rattle.wac_ast_grammar.specs.Tree.{NamedType as ParamTree};
ghost use Rattle.wac_graph_types.specs.declared.kind.FuncKind.TheVariants as funcs;
ghost use Rattle.wac_graph_types.specs.declared.kind.ItemKind.TheVariants as kinds;
ghost use Rattle.wac_graph_types.specs.declared.kind.«Type».TheVariants as types;
ghost use Rattle.wac_graph_types.specs.Names.{by_name};
ghost use Rattle.wac_graph_types.specs.Scope.{IsFresh};
ghost use Rattle.wac_graph_types.specs.Table.{ItemsNamed, Names as NamesEntry};
ghost use Rattle.wac_ast_base.specs.Names.{ident_of};
ghost use Rattle.wac_ast_types.specs.Declarations.{named_type_of, func_type_of};
ghost use Rattle.wac_graph.specs.Graph.{Parts};
ghost use Rattle.wac_graph.specs.Means.{entry_means};
ghost use Rattle.wac_graph.specs.Origin.{Numbering};
ghost use Rattle.wac_resolution_errors.specs.Error.{duplicate_parameter};
ghost use Rattle.wac_resolution_rules.specs.Types.{first_params, IsFuncWith};
ghost use Rattle.wac_resolution_rules.specs.BrokenTypes.{IsRepeated, ParamBroken, ParamsBroken, FuncBroken};
ghost use Rattle.wac_resolution_rules.specs.BrokenBodies.{method_kind};
ghost use Rattle.wac_resolution_rules.specs.Errors.{ErrorSays};
ghost use Rattle.wac_resolution_state.specs.Bindings.{values_of};
ghost use Rattle.wac_resolution_types.specs.Funcs.{types_named, TypesNamed, ParamStep, ParamSteps, FuncAdded, FuncIs, ConstructorIs, own_params};
ghost use Rattle.wac_resolution_state.specs.Named.{scope_of};

use crate::results::results;
use crate::types::value_type;
use indexmap::IndexMap;
use std::alloc::{AllocError, Global};
use wac_ast_base::Ident;
use wac_ast_types::{FuncType, NamedType};
use wac_graph::names::{find, push};
use wac_graph::{FuncKind, FuncResults, FuncTypeId, ItemKind, ResourceId, ValueType};
use wac_resolution_errors::Error;
use wac_resolution_state::{Names, State};

/// Rejects the name of an earlier parameter.
#[tactic(auto, using(wac_resolution_state::proofs::Scopes::memory_model))]
fn check_param(
    alloc: Global,
    kind: FuncKind,
    all: &IndexMap<String, ValueType>,
    id: &Ident<'_>,
) -> Result<(), Error>
    ensures ok { OnOk result (IsFresh id.now.string.now (by_name all.now.entries)) }
    ensures err { ErrorSays result (λ e. (numbering : Numbering) (g : Parts)
        → IsRepeated (types_named numbering g (by_name all.now.entries)) (ident_of id.now).string
        (duplicate_parameter kind (ident_of id.now).string (ident_of id.now).span) e) }
{
    match find(all, id.string) {
        Some(_) => Err(Error::DuplicateParameter {
            kind,
            name: String::from_str(alloc, id.string)?,
            span: id.span,
        }),
        None => Ok(()),
    }
}

fn kind_of_method(is_static: bool) -> FuncKind
    ensures { result ≡ method_kind is_static }
{
    if is_static {
        FuncKind::Static
    } else {
        FuncKind::Method
    }
}

/// What comes before the parameters of a method: its resource, borrowed; of a static one, nothing.
fn method_params(
    alloc: Global,
    is_static: bool,
    resource: ResourceId,
) -> Result<IndexMap<String, ValueType>, AllocError>
    ensures { IfOk result (λ ps. by_name ps.entries ≡ own_params is_static resource) }
{
    let mut params = IndexMap::new(alloc);
    if !is_static {
        push(alloc, &mut params, "self", ValueType::Borrow(resource))?;
    }
    Ok(params)
}

/// Takes a parameter.
fn take_param(
    param: &NamedType<'_>,
    state: &mut State,
    names: &Names<'_, ItemKind>,
    kind: FuncKind,
    all: &mut IndexMap<String, ValueType>,
) -> Result<(), Error>
    requires scope { ItemsNamed state.old.graph.types (values_of names.now) }
    requires parts { TypesNamed state.old.graph.types (by_name all.old.entries) }
    ensures ok { OnOk result (ParamStep state.old.graph state.new.graph (values_of names.now) (by_name all.old.entries)
        (by_name all.new.entries) (named_type_of param.now)) }
    ensures err { ErrorSays result (λ e. (numbering : Numbering) (before : List ParamTree)
        → ParamBroken kind (scope_of numbering state.old.graph (values_of names.now)) e
        (types_named numbering state.old.graph (by_name all.old.entries)) before (named_type_of param.now)) }
{
    let value = value_type(&param.ty, state, names)?;
    check_param(state.alloc, kind, all, &param.id)?;
    push(state.alloc, all, param.id.string, value)?;
    Ok(())
}

/// Takes parameters in order.
fn take_params(
    params: &[NamedType<'_>],
    state: &mut State,
    names: &Names<'_, ItemKind>,
    kind: FuncKind,
    all: &mut IndexMap<String, ValueType>,
) -> Result<(), Error>
    requires scope { ItemsNamed state.old.graph.types (values_of names.now) }
    requires parts { TypesNamed state.old.graph.types (by_name all.old.entries) }
    ensures ok { OnOk result (ParamSteps state.old.graph state.new.graph (values_of names.now) (by_name all.old.entries)
        (by_name all.new.entries) (map named_type_of params.now)) }
    ensures err { ErrorSays result (λ e. (numbering : Numbering)
        → ParamsBroken kind (scope_of numbering state.old.graph (values_of names.now))
        (types_named numbering state.old.graph (by_name all.old.entries)) (map named_type_of params.now) e) }
{
    for param in params {
        take_param(param, state, names, kind, all)?;
    }
    Ok(())
}

/// Adds a function type, where these parameters come first.
pub fn function(
    func: &FuncType<'_>,
    state: &mut State,
    names: &Names<'_, ItemKind>,
    kind: FuncKind,
    first: IndexMap<String, ValueType>,
) -> Result<FuncTypeId, Error>
    requires scope { ItemsNamed state.old.graph.types (values_of names.now) }
    requires parts { TypesNamed state.old.graph.types (by_name first.entries) }
    ensures ok { IfOk result (λ f. FuncIs state.old.graph state.new.graph (values_of names.now) (by_name first.entries)
        (func_type_of func.now) f) }
    ensures err { ErrorSays result (λ e. (numbering : Numbering)
        → FuncBroken kind (scope_of numbering state.old.graph (values_of names.now))
        (types_named numbering state.old.graph (by_name first.entries)) (func_type_of func.now) e) }
{
    let mut params = first;
    take_params(&func.params, state, names, kind, &mut params)?;
    let results = results(&func.results, state, names, kind)?;
    let is_async = func.is_async;
    Ok(state.add_func(wac_graph::FuncType {
        params,
        results,
        is_async,
    })?)
}

/// Adds the function type of a constructor of a resource.
pub fn constructor(
    params: &[NamedType<'_>],
    state: &mut State,
    names: &Names<'_, ItemKind>,
    resource: ResourceId,
) -> Result<FuncTypeId, Error>
    requires scope { ItemsNamed state.old.graph.types (values_of names.now) }
    requires resource { NamesEntry state.old.graph.types (kinds.Ty (types.Resource resource)) }
    ensures ok { IfOk result (λ f. ConstructorIs state.old.graph state.new.graph (values_of names.now) resource
        (map named_type_of params.now) f) }
    ensures err { ErrorSays result (λ e. (numbering : Numbering)
        → ParamsBroken funcs.Constructor (scope_of numbering state.old.graph (values_of names.now)) []
        (map named_type_of params.now) e) }
{
    let mut all = IndexMap::new(state.alloc);
    take_params(params, state, names, FuncKind::Constructor, &mut all)?;
    Ok(state.add_func(wac_graph::FuncType {
        params: all,
        results: FuncResults::Scalar(ValueType::Own(resource)),
        is_async: false,
    })?)
}

/// Adds the function type of a method of a resource.
pub fn method(
    func: &FuncType<'_>,
    state: &mut State,
    names: &Names<'_, ItemKind>,
    resource: ResourceId,
    is_static: bool,
) -> Result<FuncTypeId, Error>
    requires scope { ItemsNamed state.old.graph.types (values_of names.now) }
    requires resource { NamesEntry state.old.graph.types (kinds.Ty (types.Resource resource)) }
    ensures ok { IfOk result (λ f. FuncAdded state.old.graph state.new.graph (values_of names.now)
        (λ numbering scope entry. IsFuncWith scope
        (first_params is_static (entry_means numbering state.old.graph resource.0)) (func_type_of func.now) entry) f) }
    ensures err { ErrorSays result (λ e. (numbering : Numbering)
        → FuncBroken (method_kind is_static) (scope_of numbering state.old.graph (values_of names.now))
        (first_params is_static (entry_means numbering state.old.graph resource.0)) (func_type_of func.now) e) }
{
    let first = method_params(state.alloc, is_static, resource)?;
    function(func, state, names, kind_of_method(is_static), first)
}
