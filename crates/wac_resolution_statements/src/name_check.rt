//! Tests of the names of imports and exports.
ghost use Rattle.std.specs.Prelude.{◌≡◌, ℕ, None, OnOk, IfSome, option_map};
ghost use Rattle.wac_graph_types.specs.Scope.{Named, IsFresh, StandsFor};
ghost use Rattle.wac_graph.specs.Means.{means};
ghost use Rattle.wac_graph.specs.Origin.{Numbering};
ghost use Rattle.wac_resolution_rules.specs.BrokenStatements.{IsExportConflict, IsExportedAlready, IsInvalidName, ExportAsBroken};
ghost use Rattle.wac_resolution_rules.specs.Errors.{ErrorSays};
ghost use Rattle.wac_resolution_rules.specs.Places.{Places};
ghost use Rattle.wac_resolution_rules.specs.Statements.{definition_bound};
ghost use Rattle.wac_resolution_state.specs.Nodes.{composition_of};
ghost use Rattle.wac_resolution_state.specs.Root.{composed, places, Agrees};
ghost use Rattle.wac_resolution_statements.specs.Externs.{exported_in, help_of, places_in, ArePlaced, Under};
ghost use Rattle.wac_resolution_statements.specs.Exports.{MayExport};

use crate::externs::Externs;
use crate::name::NewName;
use std::alloc::Global;
use wac_graph::names::find;
use wac_graph::{ExternKind, ItemKind, NodeKind, Rules};
use wac_lexer::SourceSpan;
use wac_resolution_errors::Error;
use wac_resolution_state::{Root, Scope, State};

/// The kind of the definition to which a name is bound at root, and where.
fn definition(state: &State, root: &Root<'_>, name: &str) -> Option<(ItemKind, SourceSpan)>
    requires { Agrees state.now.graph root.now }
    ensures kind { (numbering : Numbering)
        → option_map (λ d. means numbering state.now.graph d.0) result
        ≡ definition_bound (composed numbering state.now.graph root.now) name.now }
    ensures place { IfSome result (λ d. StandsFor (places root.now) name.now d.1) }
{
    let node = root.nodes.find(name)?;
    let span = root.nodes.place(name)?;
    match state.graph.node(node) {
        NodeKind::Definition => Some((state.graph.kind(node), span)),
        _ => None,
    }
}

/// Rejects a name that is bound at root to a definition.
#[tactic(auto, using(wac_resolution_state::proofs::Scopes::memory_model))]
fn check_undefined(state: &State, root: &Root<'_>, name: &NewName<'_>) -> Result<(), Error>
    requires { Agrees state.now.graph root.now }
    ensures ok { OnOk result ((numbering : Numbering)
        → definition_bound (composed numbering state.now.graph root.now) name.now.text.now ≡ None) }
    ensures err { ErrorSays result (λ e. (numbering : Numbering) (all : Places) → all.bound ≡ places root.now
        → IsExportConflict (composed numbering state.now.graph root.now) all name.now.text.now name.now.span
        (help_of name.now) e) }
{
    match definition(state, root, name.text) {
        Some((kind, definition)) => Err(Error::ExportConflict {
            name: String::from_str(state.alloc, name.text)?,
            kind: kind.desc(),
            span: name.span,
            definition,
            help: name.help,
        }),
        None => Ok(()),
    }
}

/// Rejects a name that is exported already.
#[tactic(auto, using(wac_resolution_state::proofs::Scopes::memory_model))]
fn check_unexported(state: &State, externs: &Externs, name: &NewName<'_>) -> Result<(), Error>
    requires { ArePlaced state.now.graph externs.now }
    ensures ok { OnOk result (IsFresh name.now.text.now state.now.graph.exports) }
    ensures err { ErrorSays result (λ e. (numbering : Numbering) (declared : Named ℕ) (all : Places)
        → all.exported ≡ exported_in externs.now
        → IsExportedAlready (composition_of numbering state.now.graph declared) all name.now.text.now name.now.span
        (help_of name.now) e) }
{
    match find(&externs.exported, name.text) {
        Some(previous) => Err(Error::DuplicateExternName {
            kind: ExternKind::Export,
            name: String::from_str(state.alloc, name.text)?,
            span: name.span,
            previous,
            help: name.help,
        }),
        None => Ok(()),
    }
}

/// Rejects a name that no import or export may have.
#[tactic(auto, using(wac_resolution_state::proofs::Scopes::memory_model))]
pub fn check_name<R: Rules>(
    alloc: Global,
    rules: &R,
    kind: ExternKind,
    name: &NewName<'_>,
) -> Result<(), Error>
    ensures ok { OnOk result (R.named rules.now name.now.text.now ≡ None) }
    ensures err { ErrorSays result (λ e. Under (R.named rules.now)
        (λ s. IsInvalidName s name.now.text.now kind name.now.span e)) }
{
    match rules.extern_name(name.text) {
        Ok(()) => Ok(()),
        Err(source) => Err(Error::InvalidExternName {
            name: String::from_str(alloc, name.text)?,
            kind,
            source,
            span: name.span,
        }),
    }
}

/// Rejects a name under which nothing may be exported.
pub(crate) fn check_export<R: Rules>(
    state: &State,
    scope: &Scope<'_, '_, R>,
    externs: &Externs,
    name: &NewName<'_>,
) -> Result<(), Error>
    requires agrees { Agrees state.now.graph scope.now.root.now }
    requires placed { ArePlaced state.now.graph externs.now }
    ensures ok { OnOk result (MayExport (R.named scope.now.rules.now) state.now.graph scope.now.root.now
        name.now.text.now) }
    ensures err { ErrorSays result (λ e. (numbering : Numbering)
        → Under (R.named scope.now.rules.now)
        (λ s. ExportAsBroken s (composed numbering state.now.graph scope.now.root.now)
        (places_in scope.now.root.now externs.now) name.now.text.now name.now.span (help_of name.now) e)) }
{
    check_undefined(state, scope.root, name)?;
    check_unexported(state, externs, name)?;
    check_name(state.alloc, scope.rules, ExternKind::Export, name)?;
    Ok(())
}
