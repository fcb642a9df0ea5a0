//! Definitions at root.
ghost use Rattle.std.specs.Prelude.{◌≡◌, ℕ, OnOk};
ghost use Rattle.wac_graph_types.specs.Scope.{Named, IsFresh};
ghost use Rattle.wac_graph_types.specs.Table.{Names as NamesEntry};
ghost use Rattle.wac_ast_base.specs.Names.{ident_of};
ghost use Rattle.wac_graph.specs.Origin.{Numbering};
ghost use Rattle.wac_resolution_rules.specs.BrokenWorlds.{IsExported, DefinitionBroken};
ghost use Rattle.wac_resolution_rules.specs.Errors.{ErrorSays};
ghost use Rattle.wac_resolution_rules.specs.Places.{Places};
ghost use Rattle.wac_resolution_state.specs.Nodes.{composition_of};
ghost use Rattle.wac_resolution_state.specs.Root.{composed, Agrees};
ghost use Rattle.wac_resolution_statements.specs.Externs.{exported_in, places_in, ArePlaced};
ghost use Rattle.wac_resolution_statements.specs.Defined.{IsDefined};

use crate::Externs;
use wac_ast_base::Ident;
use wac_graph::ItemKind;
use wac_graph::names::find;
use wac_resolution_errors::Error;
use wac_resolution_state::{Root, State};

/// Rejects an identifier that is exported already.
#[tactic(auto, using(wac_resolution_state::proofs::Scopes::memory_model))]
fn check_unexported(state: &State, externs: &Externs, id: &Ident<'_>) -> Result<(), Error>
    requires { ArePlaced state.now.graph externs.now }
    ensures ok { OnOk result (IsFresh id.now.string.now state.now.graph.exports) }
    ensures err { ErrorSays result (λ e. (numbering : Numbering) (declared : Named ℕ) (all : Places)
        → all.exported ≡ exported_in externs.now
        → IsExported (composition_of numbering state.now.graph declared) all (ident_of id.now) e) }
{
    match find(&externs.exported, id.string) {
        Some(export) => Err(Error::DeclarationConflict {
            name: String::from_str(state.alloc, id.string)?,
            span: id.span,
            export,
        }),
        None => Ok(()),
    }
}

/// Adds a definition that is exported under an identifier and bound to it.
pub fn define<'a>(
    state: &mut State,
    root: &mut Root<'a>,
    externs: &mut Externs,
    id: &Ident<'a>,
    kind: ItemKind,
) -> Result<(), Error>
    requires agrees { Agrees state.old.graph root.old }
    requires placed { ArePlaced state.old.graph externs.old }
    requires kind { NamesEntry state.old.graph.types kind }
    ensures ok { OnOk result (IsDefined state.old.graph state.new.graph root.old root.new externs.old externs.new
        (ident_of id.now) kind) }
    ensures err { ErrorSays result (λ e. (numbering : Numbering)
        → DefinitionBroken (composed numbering state.old.graph root.old)
        (places_in root.old externs.old) (ident_of id.now) e) }
{
    check_unexported(state, externs, id)?;
    let node = state.graph.add_definition(id.string, kind)?;
    externs.add_export(state.alloc, id.string, id.span)?;
    root.bind(state, id, node)?;
    Ok(())
}
