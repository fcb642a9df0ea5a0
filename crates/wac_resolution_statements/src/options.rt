//! The names under which nodes are exported.
ghost use Rattle.std.specs.Prelude.{◌≡◌, ◌<◌, ℕ, Some, OnOk, IfOk, length, option_map, option_and_then, string_bytes};
ghost use Rattle.wac_ast_grammar.specs.Tree.{Expr, ExportOptions as Options};
ghost use Rattle.wac_graph_types.specs.Scope.{Named};
ghost use Rattle.wac_ast_base.specs.Names.{extern_name_of};
ghost use Rattle.wac_ast_grammar.specs.Spans.{extern_name_span};
ghost use Rattle.wac_graph.specs.Origin.{Numbering};
ghost use Rattle.wac_resolution_rules.specs.BrokenStatements.{IsUnnamed, ExportOptionsBroken};
ghost use Rattle.wac_resolution_rules.specs.Errors.{ErrorSays};
ghost use Rattle.wac_resolution_rules.specs.Expressions.{at};
ghost use Rattle.wac_resolution_rules.specs.Nodes.{node_at};
ghost use Rattle.wac_resolution_rules.specs.Spans.{expr_span};
ghost use Rattle.wac_resolution_rules.specs.Statements.{ExportsBy, unnamed_export};
ghost use Rattle.wac_resolution_state.specs.Nodes.{composition_of};
ghost use Rattle.wac_resolution_state.specs.Root.{composed, Agrees};
ghost use Rattle.wac_resolution_statements.specs.Externs.{places_in, ArePlaced, Under};
ghost use Rattle.wac_resolution_statements.specs.Exports.{Exported};

use crate::export::export_as;
use crate::externs::Externs;
use crate::name::NewName;
use wac_ast_base::ExternName;
use wac_graph::{NodeId, Rules};
use wac_lexer::SourceSpan;
use wac_resolution_errors::Error;
use wac_resolution_state::{Scope, State, instance_id, own_name};

/// The name under which a node is exported without `as`: the id of its instance, else its own name.
fn unnamed(state: &State, node: NodeId) -> Option<&str>
    requires { node.0 < length state.now.graph.nodes }
    ensures { (numbering : Numbering) (declared : Named ℕ)
        → option_and_then unnamed_export (node_at (composition_of numbering state.now.graph declared) node.0)
        ≡ option_map (λ s. s.now) result }
{
    match instance_id(state, node) {
        Some(id) => Some(id),
        None => own_name(state, node),
    }
}

/// The name under which a node is exported without `as`, copied.
#[tactic(auto, using(wac_resolution_state::proofs::Scopes::memory_model))]
fn unnamed_name(state: &State, node: NodeId, span: SourceSpan) -> Result<String, Error>
    requires { node.0 < length state.now.graph.nodes }
    ensures ok { IfOk result (λ s. (numbering : Numbering) (declared : Named ℕ)
        → option_and_then unnamed_export (node_at (composition_of numbering state.now.graph declared) node.0)
        ≡ Some (string_bytes s)) }
    ensures err { ErrorSays result (λ e. (numbering : Numbering) (declared : Named ℕ)
        → IsUnnamed (at (composition_of numbering state.now.graph declared) node.0) span e) }
{
    match unnamed(state, node) {
        Some(name) => Ok(String::from_str(state.alloc, name)?),
        None => Err(Error::ExportRequiresAs { span }),
    }
}

/// Exports a node without `as`. The span is that of the expression that denotes it.
pub fn export_unnamed<R: Rules>(
    state: &mut State,
    scope: &Scope<'_, '_, R>,
    externs: &mut Externs,
    node: NodeId,
    span: SourceSpan,
) -> Result<(), Error>
    requires agrees { Agrees state.old.graph scope.now.root.now }
    requires placed { ArePlaced state.old.graph externs.old }
    requires there { node.0 < length state.old.graph.nodes }
    ensures ok { OnOk result (Exported span state.old.graph state.new.graph scope.now.root.now externs.old externs.new
        (λ numbering c d. Under (R.named scope.now.rules.now) (λ s. ExportsBy s (at c node.0) Options.none d))) }
    ensures err { ErrorSays result (λ e. (numbering : Numbering) (x : Expr) → expr_span x ≡ span
        → Under (R.named scope.now.rules.now)
        (λ s. ExportOptionsBroken s (at (composed numbering state.old.graph scope.now.root.now) node.0)
        (places_in scope.now.root.now externs.old) e x Options.none)) }
{
    let text = unnamed_name(state, node, span)?;
    let name = NewName {
        text: text.as_str(),
        span,
        help: Some("consider using an `as` clause to use a different name"),
    };
    export_as(state, scope, externs, &name, node)?;
    Ok(())
}

/// Exports a node under the name after `as`.
pub fn export_renamed<R: Rules>(
    state: &mut State,
    scope: &Scope<'_, '_, R>,
    externs: &mut Externs,
    node: NodeId,
    name: &ExternName<'_>,
) -> Result<(), Error>
    requires agrees { Agrees state.old.graph scope.now.root.now }
    requires placed { ArePlaced state.old.graph externs.old }
    requires there { node.0 < length state.old.graph.nodes }
    ensures ok { OnOk result (Exported (extern_name_span (extern_name_of name.now)) state.old.graph state.new.graph
        scope.now.root.now externs.old externs.new
        (λ numbering c d. Under (R.named scope.now.rules.now)
        (λ s. ExportsBy s (at c node.0) (Options.rename (extern_name_of name.now)) d))) }
    ensures err { ErrorSays result (λ e. (numbering : Numbering) (x : Expr)
        → Under (R.named scope.now.rules.now)
        (λ s. ExportOptionsBroken s (at (composed numbering state.old.graph scope.now.root.now) node.0)
        (places_in scope.now.root.now externs.old) e x (Options.rename (extern_name_of name.now)))) }
{
    let new_name = NewName {
        text: name.as_str(),
        span: name.span(),
        help: None,
    };
    export_as(state, scope, externs, &new_name, node)?;
    Ok(())
}
