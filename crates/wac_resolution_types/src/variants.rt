//! Variants.
ghost use Rattle.std.specs.Prelude.{◌≡◌, List, IfOk, OnOk, map, option_map};
ghost use Rattle.wac_ast_grammar.specs.Tree.{VariantCase as CaseTree};
ghost use Rattle.wac_graph_types.specs.Names.{by_name};
ghost use Rattle.wac_graph_types.specs.Scope.{IsFresh};
ghost use Rattle.wac_graph_types.specs.Table.{ItemsNamed};
ghost use Rattle.wac_ast_base.specs.Names.{ident_of};
ghost use Rattle.wac_ast_types.specs.Types.{ty_of};
ghost use Rattle.wac_ast_types.specs.Declarations.{variant_case_of, variant_decl_of};
ghost use Rattle.wac_graph.specs.Graph.{Parts};
ghost use Rattle.wac_graph.specs.Origin.{Numbering};
ghost use Rattle.wac_resolution_errors.specs.Error.{duplicate_variant_case};
ghost use Rattle.wac_resolution_rules.specs.Declarations.{HasCase, IsVariant};
ghost use Rattle.wac_resolution_rules.specs.BrokenDeclarations.{IsRepeatedPart, OptionBroken, CaseBroken, VariantBroken};
ghost use Rattle.wac_resolution_rules.specs.Errors.{ErrorSays};
ghost use Rattle.wac_resolution_state.specs.Bindings.{values_of};
ghost use Rattle.wac_resolution_types.specs.Declarations.{perhaps, cases_named, CaseTypeIs, CaseStep, CaseSteps, ValueAdded};
ghost use Rattle.wac_resolution_state.specs.Named.{scope_of};
ghost use Rattle.wac_resolution_types.specs.NamedParts.{PartsNamed};
ghost use Rattle.wac_graph_types.specs.Steps.{Fails};

use crate::types::value_type;
use indexmap::IndexMap;
use std::alloc::Global;
use wac_ast_base::Ident;
use wac_ast_types::{Type, VariantCase, VariantDecl};
use wac_graph::names::{find, push};
use wac_graph::{DefinedType, ItemKind, ValueType};
use wac_resolution_errors::Error;
use wac_resolution_state::{Names, State};

/// Rejects the name of an earlier case.
#[tactic(auto, using(wac_resolution_state::proofs::Scopes::memory_model))]
fn check_case(
    alloc: Global,
    declared: &Ident<'_>,
    all: &IndexMap<String, Option<ValueType>>,
    id: &Ident<'_>,
) -> Result<(), Error>
    ensures ok { OnOk result (IsFresh id.now.string.now (by_name all.now.entries)) }
    ensures err { ErrorSays result (λ e. (numbering : Numbering) (g : Parts)
        → IsRepeatedPart duplicate_variant_case (ident_of declared.now)
        (cases_named numbering g (by_name all.now.entries)) (ident_of id.now) e) }
{
    match find(all, id.string) {
        Some(_) => Err(Error::DuplicateVariantCase {
            case: String::from_str(alloc, id.string)?,
            name: String::from_str(alloc, declared.string)?,
            span: id.span,
        }),
        None => Ok(()),
    }
}

/// The type of a case, which may have none.
fn case_type(
    ty: &Option<Type<'_>>,
    state: &mut State,
    names: &Names<'_, ItemKind>,
) -> Result<Option<ValueType>, Error>
    requires { ItemsNamed state.old.graph.types (values_of names.now) }
    ensures ok { IfOk result (λ v. CaseTypeIs state.old.graph state.new.graph (values_of names.now)
        (option_map ty_of ty.now) v) }
    ensures err { ErrorSays result (λ e. (numbering : Numbering)
        → OptionBroken (scope_of numbering state.old.graph (values_of names.now)) (option_map ty_of ty.now) e) }
{
    match ty {
        Some(ty) => Ok(Some(value_type(ty, state, names)?)),
        None => Ok(None),
    }
}

/// Takes a case.
fn take_case(
    case: &VariantCase<'_>,
    state: &mut State,
    names: &Names<'_, ItemKind>,
    declared: &Ident<'_>,
    all: &mut IndexMap<String, Option<ValueType>>,
) -> Result<(), Error>
    requires scope { ItemsNamed state.old.graph.types (values_of names.now) }
    requires parts { PartsNamed perhaps state.old.graph.types (by_name all.old.entries) }
    ensures ok { OnOk result (CaseStep state.old.graph state.new.graph (values_of names.now) (by_name all.old.entries)
        (by_name all.new.entries) (variant_case_of case.now)) }
    ensures err { ErrorSays result (λ e. (numbering : Numbering) (before : List CaseTree)
        → CaseBroken (scope_of numbering state.old.graph (values_of names.now)) (ident_of declared.now) e
        (cases_named numbering state.old.graph (by_name all.old.entries)) before (variant_case_of case.now)) }
{
    let value = case_type(&case.ty, state, names)?;
    check_case(state.alloc, declared, all, &case.id)?;
    push(state.alloc, all, case.id.string, value)?;
    Ok(())
}

/// Takes cases in order.
fn take_cases(
    cases: &[VariantCase<'_>],
    state: &mut State,
    names: &Names<'_, ItemKind>,
    declared: &Ident<'_>,
    all: &mut IndexMap<String, Option<ValueType>>,
) -> Result<(), Error>
    requires scope { ItemsNamed state.old.graph.types (values_of names.now) }
    requires parts { PartsNamed perhaps state.old.graph.types (by_name all.old.entries) }
    ensures ok { OnOk result (CaseSteps state.old.graph state.new.graph (values_of names.now) (by_name all.old.entries)
        (by_name all.new.entries) (map variant_case_of cases.now)) }
    ensures err { ErrorSays result (λ e. (numbering : Numbering)
        → Fails (HasCase (scope_of numbering state.old.graph (values_of names.now)))
        (CaseBroken (scope_of numbering state.old.graph (values_of names.now)) (ident_of declared.now) e)
        (cases_named numbering state.old.graph (by_name all.old.entries)) (map variant_case_of cases.now)) }
{
    for case in cases {
        take_case(case, state, names, declared, all)?;
    }
    Ok(())
}

/// Adds a variant.
pub fn variant(
    decl: &VariantDecl<'_>,
    state: &mut State,
    names: &Names<'_, ItemKind>,
) -> Result<ValueType, Error>
    requires { ItemsNamed state.old.graph.types (values_of names.now) }
    ensures ok { IfOk result (λ v. ValueAdded state.old.graph state.new.graph
        (λ numbering m. IsVariant (scope_of numbering state.old.graph (values_of names.now))
        (variant_decl_of decl.now) m) v) }
    ensures err { ErrorSays result (λ e. (numbering : Numbering)
        → VariantBroken (scope_of numbering state.old.graph (values_of names.now)) (variant_decl_of decl.now) e) }
{
    let mut cases = IndexMap::new(state.alloc);
    take_cases(&decl.cases, state, names, &decl.id, &mut cases)?;
    Ok(state.add_defined(DefinedType::Variant { cases })?)
}
