//! Export statements.
ghost use Rattle.std.specs.Prelude.{OnOk};
ghost use Rattle.wac_ast_statements.specs.Statements.{export_statement_of};
ghost use Rattle.wac_ast_grammar.specs.Tree.{Statement};
ghost use Rattle.wac_resolution_rules.specs.Errors.{ErrorSays};
ghost use Rattle.wac_resolution_rules.specs.Given.{rules_of};
ghost use Rattle.wac_resolution_statements.specs.Statements.{Stand, StatementRun, Breaks};

use crate::{ExportedNode, Externs, export_node};
use wac_ast_statements::ExportStatement;
use wac_graph::Rules;
use wac_resolution_errors::Error;
use wac_resolution_expressions::expression;
use wac_resolution_state::{Scope, State};

/// Exports what an export statement says of the node of an expression.
pub fn export_statement<R: Rules>(
    statement: &ExportStatement<'_>,
    state: &mut State,
    scope: &Scope<'_, '_, R>,
    externs: &mut Externs,
) -> Result<(), Error>
    requires { Stand scope.now.context.now state.old.graph scope.now.root.now externs.old }
    ensures ok { OnOk result (StatementRun scope.now.context.now (rules_of R.Rules scope.now.rules.now) state.old.graph
        state.new.graph scope.now.root.now scope.now.root.now externs.old externs.new
        (Statement.export_statement (export_statement_of statement.now))) }
    ensures err { ErrorSays result (λ e. Breaks scope.now.context.now (rules_of R.Rules scope.now.rules.now)
        state.old.graph scope.now.root.now externs.old
        (Statement.export_statement (export_statement_of statement.now)) e) }
{
    // Its contract says that the graph is sound.
    let _before = state.graph.nodes();
    let node = expression(&statement.expr, state, scope)?;
    let exported = ExportedNode {
        node,
        span: statement.expr.span,
    };
    export_node(state, scope, externs, &exported, &statement.options)?;
    // It still is.
    let _after = state.graph.nodes();
    Ok(())
}
