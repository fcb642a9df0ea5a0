//! Exports.
ghost use Rattle.std.specs.Prelude.{◌≡◌, ◌<◌, [], ◌∷◌, OnOk, IfSome, IsSome, length};
ghost use Rattle.wac_graph.specs.Graph.{export_kind};
ghost use Rattle.wac_graph.specs.Means.{means};
ghost use Rattle.wac_graph.specs.Origin.{Numbering};
ghost use Rattle.wac_resolution_rules.specs.BrokenStatements.{ExportAsBroken};
ghost use Rattle.wac_resolution_rules.specs.Errors.{ErrorSays};
ghost use Rattle.wac_resolution_rules.specs.Expressions.{at, alias_at};
ghost use Rattle.wac_resolution_rules.specs.Statements.{ExportsAs, ExportsOne};
ghost use Rattle.wac_resolution_state.specs.Root.{composed, Agrees};
ghost use Rattle.wac_resolution_statements.specs.Externs.{help_of, places_in, ArePlaced, Under};
ghost use Rattle.wac_resolution_statements.specs.Exports.{ExportSteps};

use crate::externs::Externs;
use crate::name::NewName;
use crate::name_check::check_export;
use wac_graph::{NodeId, Rules};
use wac_resolution_errors::Error;
use wac_resolution_state::{Scope, State, alias};

/// Exports a node under a name.
pub fn export_as<R: Rules>(
    state: &mut State,
    scope: &Scope<'_, '_, R>,
    externs: &mut Externs,
    name: &NewName<'_>,
    node: NodeId,
) -> Result<(), Error>
    requires agrees { Agrees state.old.graph scope.now.root.now }
    requires placed { ArePlaced state.old.graph externs.old }
    requires there { node.0 < length state.old.graph.nodes }
    ensures ok { OnOk result (ExportSteps name.now.span state.old.graph state.new.graph scope.now.root.now externs.old
        externs.new (name.now.text.now ∷ [])
        (λ numbering c d. Under (R.named scope.now.rules.now) (λ s. ExportsAs s c name.now.text.now node.0 d))) }
    ensures err { ErrorSays result (λ e. (numbering : Numbering)
        → Under (R.named scope.now.rules.now)
        (λ s. ExportAsBroken s (composed numbering state.old.graph scope.now.root.now)
        (places_in scope.now.root.now externs.old) name.now.text.now name.now.span (help_of name.now) e)) }
{
    check_export(state, scope, externs, name)?;
    state.graph.add_export(name.text, node)?;
    externs.add_export(state.alloc, name.text, name.span)?;
    Ok(())
}

/// Exports the alias of an export of an instance under a name.
pub fn export_alias<R: Rules>(
    state: &mut State,
    scope: &Scope<'_, '_, R>,
    externs: &mut Externs,
    name: &NewName<'_>,
    node: NodeId,
) -> Result<(), Error>
    requires agrees { Agrees state.old.graph scope.now.root.now }
    requires placed { ArePlaced state.old.graph externs.old }
    requires exported { IsSome (export_kind state.old.graph node.0 name.now.text.now) }
    ensures ok { OnOk result (IfSome (export_kind state.old.graph node.0 name.now.text.now)
        (λ k. ExportSteps name.now.span state.old.graph state.new.graph scope.now.root.now externs.old externs.new
        (name.now.text.now ∷ [])
        (λ numbering c d. Under (R.named scope.now.rules.now)
        (λ s. ExportsOne s node.0 c (name.now.text.now, means numbering state.old.graph k) d)))) }
    ensures err { ErrorSays result (λ e. IfSome (export_kind state.old.graph node.0 name.now.text.now)
        (λ k. (numbering : Numbering) → Under (R.named scope.now.rules.now)
        (λ s. ExportAsBroken s (alias_at (at (composed numbering state.old.graph scope.now.root.now) node.0)
        name.now.text.now (means numbering state.old.graph k)).composition (places_in scope.now.root.now externs.old)
        name.now.text.now name.now.span (help_of name.now) e))) }
{
    let alias = alias(state, node, name.text)?;
    export_as(state, scope, externs, name, alias)?;
    Ok(())
}
