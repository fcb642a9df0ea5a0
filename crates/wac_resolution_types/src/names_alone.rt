//! Flags and enums: types of names alone.
ghost use Rattle.std.specs.Prelude.{◌≡◌, false, IfOk, OnOk, map, string_bytes};
ghost use Rattle.std.specs.List.{list_any};
ghost use Rattle.std.specs.Str.{bytes_eq};
ghost use Rattle.wac_graph_types.specs.Steps.{Steps, Fails};
ghost use Rattle.wac_ast_base.specs.Names.{ident_of};
ghost use Rattle.wac_ast_types.specs.Declarations.{flag_of, flags_decl_of, enum_case_of, enum_decl_of};
ghost use Rattle.wac_resolution_errors.specs.Error.{duplicate_flag, duplicate_enum_case};
ghost use Rattle.wac_resolution_rules.specs.Declarations.{HasFlag, HasEnumCase, IsFlags, IsEnum};
ghost use Rattle.wac_resolution_rules.specs.BrokenDeclarations.{IsRepeatedPart, FlagsBroken, EnumBroken};
ghost use Rattle.wac_resolution_rules.specs.Errors.{ErrorSays};
ghost use Rattle.wac_resolution_types.specs.Declarations.{names_alone, ValueAdded};

use indexmap::IndexSet;
use std::alloc::Global;
use wac_ast_base::Ident;
use wac_ast_types::{EnumCase, EnumDecl, Flag, FlagsDecl};
use wac_graph::names::push_name;
use wac_graph::{DefinedType, ValueType};
use wac_resolution_errors::Error;
use wac_resolution_state::State;

/// Whether a name is one of the names.
fn has_name(all: &IndexSet<String>, name: &str) -> bool
    ensures { result ≡ list_any (bytes_eq name.now) (map string_bytes all.now.keys) }
{
    all.contains(name)
}

/// Rejects the name of an earlier flag.
#[tactic(auto, using(crate::proofs::NamesAlone::names_found))]
fn check_flag(
    alloc: Global,
    declared: &Ident<'_>,
    all: &IndexSet<String>,
    id: &Ident<'_>,
) -> Result<(), Error>
    ensures ok { OnOk result (list_any (bytes_eq id.now.string.now) (map string_bytes all.now.keys) ≡ false) }
    ensures err { ErrorSays result (λ e. IsRepeatedPart duplicate_flag (ident_of declared.now)
        (names_alone all.now.keys) (ident_of id.now) e) }
{
    if has_name(all, id.string) {
        return Err(Error::DuplicateFlag {
            flag: String::from_str(alloc, id.string)?,
            name: String::from_str(alloc, declared.string)?,
            span: id.span,
        });
    }
    Ok(())
}

/// Rejects the name of an earlier case.
#[tactic(auto, using(crate::proofs::NamesAlone::names_found))]
fn check_enum_case(
    alloc: Global,
    declared: &Ident<'_>,
    all: &IndexSet<String>,
    id: &Ident<'_>,
) -> Result<(), Error>
    ensures ok { OnOk result (list_any (bytes_eq id.now.string.now) (map string_bytes all.now.keys) ≡ false) }
    ensures err { ErrorSays result (λ e. IsRepeatedPart duplicate_enum_case (ident_of declared.now)
        (names_alone all.now.keys) (ident_of id.now) e) }
{
    if has_name(all, id.string) {
        return Err(Error::DuplicateEnumCase {
            case: String::from_str(alloc, id.string)?,
            name: String::from_str(alloc, declared.string)?,
            span: id.span,
        });
    }
    Ok(())
}

/// Takes a flag.
#[tactic(auto, using(wac_resolution_state::proofs::Scopes::memory_model))]
fn flag(
    alloc: Global,
    declared: &Ident<'_>,
    all: &mut IndexSet<String>,
    flag: &Flag<'_>,
) -> Result<(), Error>
    ensures ok { OnOk result (HasFlag (names_alone all.old.keys) (flag_of flag.now) (names_alone all.new.keys)) }
    ensures err { ErrorSays result (λ e. IsRepeatedPart duplicate_flag (ident_of declared.now)
        (names_alone all.old.keys) (ident_of flag.now.id) e) }
{
    check_flag(alloc, declared, all, &flag.id)?;
    push_name(alloc, all, flag.id.string)?;
    Ok(())
}

/// Takes a case.
#[tactic(auto, using(wac_resolution_state::proofs::Scopes::memory_model))]
fn enum_case(
    alloc: Global,
    declared: &Ident<'_>,
    all: &mut IndexSet<String>,
    case: &EnumCase<'_>,
) -> Result<(), Error>
    ensures ok { OnOk result (HasEnumCase (names_alone all.old.keys) (enum_case_of case.now)
        (names_alone all.new.keys)) }
    ensures err { ErrorSays result (λ e. IsRepeatedPart duplicate_enum_case (ident_of declared.now)
        (names_alone all.old.keys) (ident_of case.now.id) e) }
{
    check_enum_case(alloc, declared, all, &case.id)?;
    push_name(alloc, all, case.id.string)?;
    Ok(())
}

/// Takes flags in order.
fn each_flag(
    alloc: Global,
    declared: &Ident<'_>,
    all: &mut IndexSet<String>,
    flags: &[Flag<'_>],
) -> Result<(), Error>
    ensures ok { OnOk result (Steps HasFlag (names_alone all.old.keys) (map flag_of flags.now)
        (names_alone all.new.keys)) }
    ensures err { ErrorSays result (λ e. Fails HasFlag
        (λ old before x. IsRepeatedPart duplicate_flag (ident_of declared.now) old x.id e)
        (names_alone all.old.keys) (map flag_of flags.now)) }
{
    for item in flags {
        flag(alloc, declared, all, item)?;
    }
    Ok(())
}

/// Takes cases in order.
fn enum_cases(
    alloc: Global,
    declared: &Ident<'_>,
    all: &mut IndexSet<String>,
    cases: &[EnumCase<'_>],
) -> Result<(), Error>
    ensures ok { OnOk result (Steps HasEnumCase (names_alone all.old.keys) (map enum_case_of cases.now)
        (names_alone all.new.keys)) }
    ensures err { ErrorSays result (λ e. Fails HasEnumCase
        (λ old before x. IsRepeatedPart duplicate_enum_case (ident_of declared.now) old x.id e)
        (names_alone all.old.keys) (map enum_case_of cases.now)) }
{
    for item in cases {
        enum_case(alloc, declared, all, item)?;
    }
    Ok(())
}

/// Adds a type of flags.
pub fn flags(state: &mut State, decl: &FlagsDecl<'_>) -> Result<ValueType, Error>
    ensures ok { IfOk result (λ v. ValueAdded state.old.graph state.new.graph
        (λ numbering m. IsFlags (flags_decl_of decl.now) m) v) }
    ensures err { ErrorSays result (λ e. FlagsBroken (flags_decl_of decl.now) e) }
{
    let mut all = IndexSet::new(state.alloc);
    each_flag(state.alloc, &decl.id, &mut all, &decl.flags)?;
    Ok(state.add_defined(DefinedType::Flags(all))?)
}

/// Adds an enum.
pub fn enumeration(state: &mut State, decl: &EnumDecl<'_>) -> Result<ValueType, Error>
    ensures ok { IfOk result (λ v. ValueAdded state.old.graph state.new.graph
        (λ numbering m. IsEnum (enum_decl_of decl.now) m) v) }
    ensures err { ErrorSays result (λ e. EnumBroken (enum_decl_of decl.now) e) }
{
    let mut all = IndexSet::new(state.alloc);
    enum_cases(state.alloc, &decl.id, &mut all, &decl.cases)?;
    Ok(state.add_defined(DefinedType::Enum(all))?)
}
