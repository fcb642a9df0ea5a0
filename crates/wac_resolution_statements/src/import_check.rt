//! Tests of imports.
ghost use Rattle.std.specs.Prelude.{◌≡◌, ℕ, OnOk};
ghost use Rattle.wac_graph_types.specs.Scope.{Named, IsFresh};
ghost use Rattle.wac_graph.specs.Origin.{Numbering};
ghost use Rattle.wac_resolution_rules.specs.BrokenStatements.{IsImportedAlready};
ghost use Rattle.wac_resolution_rules.specs.Errors.{ErrorSays};
ghost use Rattle.wac_resolution_rules.specs.Places.{Places};
ghost use Rattle.wac_resolution_state.specs.Nodes.{composition_of};
ghost use Rattle.wac_resolution_statements.specs.Externs.{imported_in, help_of, ArePlaced};
ghost use Rattle.wac_resolution_statements.specs.Imports.{IsUnimported};

use crate::{Externs, NewName};
use wac_graph::ExternKind;
use wac_graph::names::find;
use wac_resolution_errors::Error;
use wac_resolution_state::State;

/// Rejects a name that is imported already.
#[tactic(auto, using(wac_resolution_state::proofs::Scopes::memory_model))]
pub(crate) fn check_unimported(
    state: &State,
    externs: &Externs,
    name: &NewName<'_>,
) -> Result<(), Error>
    requires { ArePlaced state.now.graph externs.now }
    ensures ok { OnOk result (IsUnimported state.now.graph name.now.text.now) }
    ensures err { ErrorSays result (λ e. (numbering : Numbering) (declared : Named ℕ) (all : Places)
        → all.imported ≡ imported_in externs.now
        → IsImportedAlready (composition_of numbering state.now.graph declared) all name.now.text.now name.now.span
        (help_of name.now) e) }
{
    // Its contract says that the graph is sound.
    let _nodes = state.graph.nodes();
    match find(&externs.imported, name.text) {
        Some(previous) => Err(Error::DuplicateExternName {
            kind: ExternKind::Import,
            name: String::from_str(state.alloc, name.text)?,
            span: name.span,
            previous,
            help: name.help,
        }),
        None => Ok(()),
    }
}
