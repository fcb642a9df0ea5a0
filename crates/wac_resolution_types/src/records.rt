//! Records.
ghost use Rattle.std.specs.Prelude.{◌≡◌, List, IfOk, OnOk, map};
ghost use Rattle.wac_ast_grammar.specs.Tree.{Field as FieldTree};
ghost use Rattle.wac_graph_types.specs.Names.{by_name};
ghost use Rattle.wac_graph_types.specs.Scope.{IsFresh};
ghost use Rattle.wac_graph_types.specs.Steps.{Fails};
ghost use Rattle.wac_graph_types.specs.Table.{ItemsNamed};
ghost use Rattle.wac_ast_base.specs.Names.{ident_of};
ghost use Rattle.wac_ast_types.specs.Declarations.{field_of, record_decl_of};
ghost use Rattle.wac_graph.specs.Graph.{Parts};
ghost use Rattle.wac_graph.specs.Origin.{Numbering};
ghost use Rattle.wac_resolution_errors.specs.Error.{duplicate_record_field};
ghost use Rattle.wac_resolution_rules.specs.Declarations.{HasField, IsRecord};
ghost use Rattle.wac_resolution_rules.specs.BrokenDeclarations.{IsRepeatedPart, FieldBroken, RecordBroken};
ghost use Rattle.wac_resolution_rules.specs.Errors.{ErrorSays};
ghost use Rattle.wac_resolution_state.specs.Bindings.{values_of};
ghost use Rattle.wac_resolution_types.specs.Declarations.{FieldStep, FieldSteps, ValueAdded};
ghost use Rattle.wac_resolution_types.specs.Funcs.{types_named, TypesNamed};
ghost use Rattle.wac_resolution_state.specs.Named.{scope_of};

use crate::types::value_type;
use indexmap::IndexMap;
use std::alloc::Global;
use wac_ast_base::Ident;
use wac_ast_types::{Field, RecordDecl};
use wac_graph::names::{find, push};
use wac_graph::{DefinedType, ItemKind, ValueType};
use wac_resolution_errors::Error;
use wac_resolution_state::{Names, State};

/// Rejects the name of an earlier field.
#[tactic(auto, using(wac_resolution_state::proofs::Scopes::memory_model))]
fn check_field(
    alloc: Global,
    declared: &Ident<'_>,
    all: &IndexMap<String, ValueType>,
    id: &Ident<'_>,
) -> Result<(), Error>
    ensures ok { OnOk result (IsFresh id.now.string.now (by_name all.now.entries)) }
    ensures err { ErrorSays result (λ e. (numbering : Numbering) (g : Parts)
        → IsRepeatedPart duplicate_record_field (ident_of declared.now)
        (types_named numbering g (by_name all.now.entries)) (ident_of id.now) e) }
{
    match find(all, id.string) {
        Some(_) => Err(Error::DuplicateRecordField {
            field: String::from_str(alloc, id.string)?,
            name: String::from_str(alloc, declared.string)?,
            span: id.span,
        }),
        None => Ok(()),
    }
}

/// Takes a field.
fn take_field(
    field: &Field<'_>,
    state: &mut State,
    names: &Names<'_, ItemKind>,
    declared: &Ident<'_>,
    all: &mut IndexMap<String, ValueType>,
) -> Result<(), Error>
    requires scope { ItemsNamed state.old.graph.types (values_of names.now) }
    requires parts { TypesNamed state.old.graph.types (by_name all.old.entries) }
    ensures ok { OnOk result (FieldStep state.old.graph state.new.graph (values_of names.now) (by_name all.old.entries)
        (by_name all.new.entries) (field_of field.now)) }
    ensures err { ErrorSays result (λ e. (numbering : Numbering) (before : List FieldTree)
        → FieldBroken (scope_of numbering state.old.graph (values_of names.now)) (ident_of declared.now) e
        (types_named numbering state.old.graph (by_name all.old.entries)) before (field_of field.now)) }
{
    let value = value_type(&field.ty, state, names)?;
    check_field(state.alloc, declared, all, &field.id)?;
    push(state.alloc, all, field.id.string, value)?;
    Ok(())
}

/// Takes fields in order.
fn take_fields(
    fields: &[Field<'_>],
    state: &mut State,
    names: &Names<'_, ItemKind>,
    declared: &Ident<'_>,
    all: &mut IndexMap<String, ValueType>,
) -> Result<(), Error>
    requires scope { ItemsNamed state.old.graph.types (values_of names.now) }
    requires parts { TypesNamed state.old.graph.types (by_name all.old.entries) }
    ensures ok { OnOk result (FieldSteps state.old.graph state.new.graph (values_of names.now) (by_name all.old.entries)
        (by_name all.new.entries) (map field_of fields.now)) }
    ensures err { ErrorSays result (λ e. (numbering : Numbering)
        → Fails (HasField (scope_of numbering state.old.graph (values_of names.now)))
        (FieldBroken (scope_of numbering state.old.graph (values_of names.now)) (ident_of declared.now) e)
        (types_named numbering state.old.graph (by_name all.old.entries)) (map field_of fields.now)) }
{
    for field in fields {
        take_field(field, state, names, declared, all)?;
    }
    Ok(())
}

/// Adds a record.
pub fn record(
    decl: &RecordDecl<'_>,
    state: &mut State,
    names: &Names<'_, ItemKind>,
) -> Result<ValueType, Error>
    requires { ItemsNamed state.old.graph.types (values_of names.now) }
    ensures ok { IfOk result (λ v. ValueAdded state.old.graph state.new.graph
        (λ numbering m. IsRecord (scope_of numbering state.old.graph (values_of names.now))
        (record_decl_of decl.now) m) v) }
    ensures err { ErrorSays result (λ e. (numbering : Numbering)
        → RecordBroken (scope_of numbering state.old.graph (values_of names.now)) (record_decl_of decl.now) e) }
{
    let mut fields = IndexMap::new(state.alloc);
    take_fields(&decl.fields, state, names, &decl.id, &mut fields)?;
    Ok(state.add_defined(DefinedType::Record { fields })?)
}
