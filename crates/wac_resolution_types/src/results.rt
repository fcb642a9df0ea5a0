//! The results of functions.
ghost use Rattle.std.specs.Prelude.{◌≡◌, [], List, IfOk, IfErr, OnOk, map, true, false};
ghost use Rattle.wac_ast_grammar.specs.Spans.{ty_span};
ghost use Rattle.wac_ast_grammar.specs.Tree.{NamedType as ResultTree};
ghost use Rattle.wac_graph_types.specs.declared.kind.ItemKind.TheVariants as kinds;
ghost use Rattle.wac_graph_types.specs.Names.{by_name};
ghost use Rattle.wac_graph_types.specs.Scope.{IsFresh};
ghost use Rattle.wac_graph_types.specs.Shape.{contains_borrow as has_borrow};
ghost use Rattle.wac_graph_types.specs.Steps.{Fails};
ghost use Rattle.wac_graph_types.specs.Table.{ItemsNamed, Names as NamesEntry};
ghost use Rattle.wac_ast_base.specs.Names.{ident_of};
ghost use Rattle.wac_ast_types.specs.Types.{ty_of};
ghost use Rattle.wac_ast_types.specs.Declarations.{named_type_of, result_list_of};
ghost use Rattle.wac_graph.specs.Graph.{Parts};
ghost use Rattle.wac_graph.specs.Means.{means};
ghost use Rattle.wac_graph.specs.Origin.{Numbering};
ghost use Rattle.wac_resolution_errors.specs.Error.{borrow_in_result, duplicate_result};
ghost use Rattle.wac_resolution_errors.specs.ErrorModel.{error_model};
ghost use Rattle.wac_resolution_rules.specs.Types.{HasResult};
ghost use Rattle.wac_resolution_rules.specs.BrokenTypes.{IsRepeated, ResultTypeBroken, ResultBroken, ResultsBroken};
ghost use Rattle.wac_resolution_rules.specs.Errors.{ErrorSays};
ghost use Rattle.wac_resolution_state.specs.Bindings.{values_of};
ghost use Rattle.wac_resolution_types.specs.Funcs.{types_named, TypesNamed, ResultTypeIs, ResultStep, ResultSteps, ResultsAre};
ghost use Rattle.wac_resolution_state.specs.Named.{scope_of};

use crate::types::value_type;
use indexmap::IndexMap;
use std::alloc::Global;
use wac_ast_base::Ident;
use wac_ast_types::{NamedType, ResultList, Type};
use wac_graph::names::{find, push};
use wac_graph::{FuncKind, FuncResults, ItemKind, ValueType};
use wac_resolution_errors::Error;
use wac_resolution_state::{Names, State};

/// Rejects the name of an earlier result.
#[tactic(auto, using(wac_resolution_state::proofs::Scopes::memory_model))]
fn check_result_name(
    alloc: Global,
    kind: FuncKind,
    all: &IndexMap<String, ValueType>,
    id: &Ident<'_>,
) -> Result<(), Error>
    ensures ok { OnOk result (IsFresh id.now.string.now (by_name all.now.entries)) }
    ensures err { ErrorSays result (λ e. (numbering : Numbering) (g : Parts)
        → IsRepeated (types_named numbering g (by_name all.now.entries)) (ident_of id.now).string
        (duplicate_result kind (ident_of id.now).string (ident_of id.now).span) e) }
{
    match find(all, id.string) {
        Some(_) => Err(Error::DuplicateResult {
            kind,
            name: String::from_str(alloc, id.string)?,
            span: id.span,
        }),
        None => Ok(()),
    }
}

/// Rejects a result that contains a borrow.
fn check_result(ty: &Type<'_>, state: &State, value: ValueType) -> Result<(), Error>
    requires { NamesEntry state.now.graph.types (kinds.Value value) }
    ensures ok { OnOk result ((numbering : Numbering)
        → has_borrow (means numbering state.now.graph (kinds.Value value)) ≡ false) }
    ensures borrow { IfErr result (λ e. (numbering : Numbering)
        → has_borrow (means numbering state.now.graph (kinds.Value value)) ≡ true) }
    ensures err { IfErr result (λ e. error_model e ≡ borrow_in_result (ty_span (ty_of ty.now))) }
{
    if state.graph.types().contains_borrow(value) {
        return Err(Error::BorrowInResult { span: ty.span() });
    }
    Ok(())
}

/// The type of a result.
fn result_type(
    ty: &Type<'_>,
    state: &mut State,
    names: &Names<'_, ItemKind>,
) -> Result<ValueType, Error>
    requires { ItemsNamed state.old.graph.types (values_of names.now) }
    ensures ok { IfOk result (λ v. ResultTypeIs state.old.graph state.new.graph
        (values_of names.now) (ty_of ty.now) v) }
    ensures err { ErrorSays result (λ e. (numbering : Numbering)
        → ResultTypeBroken (scope_of numbering state.old.graph (values_of names.now)) (ty_of ty.now) e) }
{
    let value = value_type(ty, state, names)?;
    check_result(ty, state, value)?;
    Ok(value)
}

/// Takes a named result.
fn named_result(
    named: &NamedType<'_>,
    state: &mut State,
    names: &Names<'_, ItemKind>,
    kind: FuncKind,
    all: &mut IndexMap<String, ValueType>,
) -> Result<(), Error>
    requires scope { ItemsNamed state.old.graph.types (values_of names.now) }
    requires parts { TypesNamed state.old.graph.types (by_name all.old.entries) }
    ensures ok { OnOk result (ResultStep state.old.graph state.new.graph (values_of names.now) (by_name all.old.entries)
        (by_name all.new.entries) (named_type_of named.now)) }
    ensures err { ErrorSays result (λ e. (numbering : Numbering) (before : List ResultTree)
        → ResultBroken kind (scope_of numbering state.old.graph (values_of names.now)) e
        (types_named numbering state.old.graph (by_name all.old.entries)) before (named_type_of named.now)) }
{
    let value = result_type(&named.ty, state, names)?;
    check_result_name(state.alloc, kind, all, &named.id)?;
    push(state.alloc, all, named.id.string, value)?;
    Ok(())
}

/// Takes named results in order.
fn named_results(
    named: &[NamedType<'_>],
    state: &mut State,
    names: &Names<'_, ItemKind>,
    kind: FuncKind,
) -> Result<IndexMap<String, ValueType>, Error>
    requires { ItemsNamed state.old.graph.types (values_of names.now) }
    ensures ok { IfOk result (λ all. ResultSteps state.old.graph state.new.graph (values_of names.now) []
        (by_name all.entries) (map named_type_of named.now)) }
    ensures err { ErrorSays result (λ e. (numbering : Numbering)
        → let scope = scope_of numbering state.old.graph (values_of names.now) in Fails (HasResult scope)
        (ResultBroken kind scope e) [] (map named_type_of named.now)) }
{
    let mut all = IndexMap::new(state.alloc);
    for result in named {
        named_result(result, state, names, kind, &mut all)?;
    }
    Ok(all)
}

/// The results of a function.
pub(crate) fn results(
    results: &ResultList<'_>,
    state: &mut State,
    names: &Names<'_, ItemKind>,
    kind: FuncKind,
) -> Result<FuncResults, Error>
    requires { ItemsNamed state.old.graph.types (values_of names.now) }
    ensures ok { IfOk result (λ rs. ResultsAre state.old.graph state.new.graph (values_of names.now)
        (result_list_of results.now) rs) }
    ensures err { ErrorSays result (λ e. (numbering : Numbering)
        → ResultsBroken kind (scope_of numbering state.old.graph (values_of names.now))
        (result_list_of results.now) e) }
{
    match results {
        ResultList::Empty => Ok(FuncResults::None),
        ResultList::Scalar(ty) => Ok(FuncResults::Scalar(result_type(ty, state, names)?)),
        ResultList::Named(named) => {
            let all = named_results(named, state, names, kind)?;
            Ok(FuncResults::Named(all))
        }
    }
}
