//! Imports of what is resolved.
ghost use Rattle.std.specs.Prelude.{◌≡◌, OnOk};
ghost use Rattle.wac_graph_types.specs.Scope.{IsFresh};
ghost use Rattle.wac_graph_types.specs.Table.{Names};
ghost use Rattle.wac_ast_base.specs.Names.{ident_of};
ghost use Rattle.wac_ast_worlds.specs.Worlds.{import_statement_of};
ghost use Rattle.wac_graph.specs.Origin.{Numbering};
ghost use Rattle.wac_resolution_rules.specs.BrokenStatements.{ImportNameBroken};
ghost use Rattle.wac_resolution_rules.specs.BrokenWorlds.{IsBound};
ghost use Rattle.wac_resolution_rules.specs.Errors.{ErrorSays};
ghost use Rattle.wac_resolution_rules.specs.Places.{Places};
ghost use Rattle.wac_resolution_state.specs.Root.{composed, places, Agrees};
ghost use Rattle.wac_resolution_statements.specs.Externs.{places_in, ArePlaced, Under};
ghost use Rattle.wac_resolution_statements.specs.Imports.{AddsImport, ImportsAs};

use crate::import_check::check_unimported;
use crate::import_names::new_name;
use crate::{Externs, NewName, check_name};
use wac_ast_worlds::ImportStatement;
use wac_graph::{ExternKind, ItemKind, Rules};
use wac_resolution_errors::Error;
use wac_resolution_state::{Root, State};

/// What an import statement imports.
#[derive(Clone, Copy)]
pub struct NewImport<'x, 'a> {
    /// The statement.
    pub statement: &'x ImportStatement<'a>,
    /// The name of the import.
    pub text: &'x str,
    /// What is imported under it.
    pub kind: ItemKind,
}

/// Adds an import under a new name, and binds the statement's identifier to it.
fn add_import<'a>(
    state: &mut State,
    root: &mut Root<'a>,
    externs: &mut Externs,
    import: &NewImport<'_, 'a>,
    name: &NewName<'_>,
) -> Result<(), Error>
    requires agrees { Agrees state.old.graph root.old }
    requires placed { ArePlaced state.old.graph externs.old }
    requires new { IsFresh name.now.text.now state.old.graph.imports }
    requires kind { Names state.old.graph.types import.now.kind }
    ensures ok { OnOk result (AddsImport state.old.graph state.new.graph root.old root.new externs.old externs.new
        (ident_of import.now.statement.now.id) name.now.text.now name.now.span import.now.kind) }
    ensures err { ErrorSays result (λ e. (numbering : Numbering) (all : Places)
        → all.bound ≡ places root.old
        → IsBound (composed numbering state.old.graph root.old) all (ident_of import.now.statement.now.id) e) }
{
    let node = state.graph.add_import(name.text, import.kind)?;
    // Its contract says that the graph is sound.
    let _nodes = state.graph.nodes();
    root.bind(state, &import.statement.id, node)?;
    externs.add_import(state.alloc, name.text, name.span)?;
    Ok(())
}

/// Imports what has this kind under a name, after tests of the name and of the statement's identifier.
pub fn import_as<'a, R: Rules>(
    state: &mut State,
    rules: &R,
    root: &mut Root<'a>,
    externs: &mut Externs,
    import: &NewImport<'_, 'a>,
) -> Result<(), Error>
    requires agrees { Agrees state.old.graph root.old }
    requires placed { ArePlaced state.old.graph externs.old }
    requires kind { Names state.old.graph.types import.now.kind }
    ensures ok { OnOk result (ImportsAs (R.named rules.now) state.old.graph state.new.graph root.old root.new
        externs.old externs.new (import_statement_of import.now.statement.now) import.now.text.now import.now.kind) }
    ensures err { ErrorSays result (λ e. (numbering : Numbering)
        → Under (R.named rules.now)
        (λ s. ImportNameBroken s (composed numbering state.old.graph root.old) (places_in root.old externs.old) e
        (import_statement_of import.now.statement.now) import.now.text.now)) }
{
    let name = new_name(import.statement, import.text);
    check_unimported(state, externs, &name)?;
    check_name(state.alloc, rules, ExternKind::Import, &name)?;
    add_import(state, root, externs, import, &name)?;
    Ok(())
}
