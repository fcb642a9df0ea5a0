//! Export statements.
ghost use Rattle.std.specs.Prelude.{◌≡◌, ◌<◌, OnOk, length};
ghost use Rattle.wac_ast_grammar.specs.Tree.{Expr};
ghost use Rattle.wac_ast_statements.specs.Statements.{export_options_of};
ghost use Rattle.wac_graph.specs.Origin.{Numbering};
ghost use Rattle.wac_resolution_rules.specs.BrokenStatements.{ExportOptionsBroken};
ghost use Rattle.wac_resolution_rules.specs.Errors.{ErrorSays};
ghost use Rattle.wac_resolution_rules.specs.Expressions.{at};
ghost use Rattle.wac_resolution_rules.specs.Spans.{expr_span, options_span};
ghost use Rattle.wac_resolution_rules.specs.Statements.{ExportsBy};
ghost use Rattle.wac_resolution_state.specs.Root.{composed, Agrees};
ghost use Rattle.wac_resolution_statements.specs.Externs.{places_in, ArePlaced, Under};
ghost use Rattle.wac_resolution_statements.specs.Exports.{Exported};

use crate::externs::Externs;
use crate::node::ExportedNode;
use crate::options::{export_renamed, export_unnamed};
use crate::spread::export_spread;
use wac_ast_statements::ExportOptions;
use wac_graph::Rules;
use wac_resolution_errors::Error;
use wac_resolution_state::{Scope, State};

/// Exports what a statement says of a node.
pub fn export_node<R: Rules>(
    state: &mut State,
    scope: &Scope<'_, '_, R>,
    externs: &mut Externs,
    exported: &ExportedNode,
    options: &ExportOptions<'_>,
) -> Result<(), Error>
    requires agrees { Agrees state.old.graph scope.now.root.now }
    requires placed { ArePlaced state.old.graph externs.old }
    requires there { exported.now.node.0 < length state.old.graph.nodes }
    ensures ok { OnOk result ((x : Expr) → expr_span x ≡ exported.now.span
        → Exported (options_span x (export_options_of options.now)) state.old.graph state.new.graph scope.now.root.now
        externs.old externs.new (λ numbering c d. Under (R.named scope.now.rules.now)
        (λ s. ExportsBy s (at c exported.now.node.0) (export_options_of options.now) d))) }
    ensures err { ErrorSays result (λ e. (numbering : Numbering) (x : Expr) → expr_span x ≡ exported.now.span
        → Under (R.named scope.now.rules.now)
        (λ s. ExportOptionsBroken s (at (composed numbering state.old.graph scope.now.root.now) exported.now.node.0)
        (places_in scope.now.root.now externs.old) e x (export_options_of options.now))) }
{
    match options {
        ExportOptions::None => export_unnamed(state, scope, externs, exported.node, exported.span),
        ExportOptions::Spread(dots) => export_spread(state, scope, externs, exported, *dots),
        ExportOptions::Rename(name) => export_renamed(state, scope, externs, exported.node, name),
    }
}
