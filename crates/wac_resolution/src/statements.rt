//! Statements, in order.
ghost use Rattle.std.specs.Prelude.{OnOk, map};
ghost use Rattle.wac_ast.specs.Statements.{statement_of};
ghost use Rattle.wac_resolution_rules.specs.Errors.{ErrorSays};
ghost use Rattle.wac_resolution_rules.specs.Given.{rules_of};
ghost use Rattle.wac_resolution_statements.specs.Statements.{Stand, StatementRun, Breaks};
ghost use Rattle.wac_resolution.specs.Sequences.{StatementsRun, OneBreaks};

use crate::definitions::type_statement;
use crate::imports::import_statement;
use wac_ast::Statement;
use wac_graph::Rules;
use wac_resolution_errors::Error;
use wac_resolution_state::{Given, Root, Scope, State};
use wac_resolution_statements::{Externs, export_statement, let_statement};

/// Executes a statement.
fn statement<'a, R: Rules>(
    statement: &Statement<'a>,
    state: &mut State,
    given: &Given<'_, R>,
    root: &mut Root<'a>,
    externs: &mut Externs,
) -> Result<(), Error>
    requires { Stand given.now.context.now state.old.graph root.old externs.old }
    ensures ok { OnOk result (StatementRun given.now.context.now (rules_of R.Rules given.now.rules.now) state.old.graph
        state.new.graph root.old root.new externs.old externs.new (statement_of statement.now)) }
    ensures err { ErrorSays result (λ e. Breaks given.now.context.now (rules_of R.Rules given.now.rules.now)
        state.old.graph root.old externs.old (statement_of statement.now) e) }
{
    match statement {
        Statement::Import(import) => import_statement(import, state, given, root, externs),
        Statement::Ty(declaration) => {
            type_statement(declaration, state, given.context, root, externs)
        }
        Statement::Let(binding) => let_statement(binding, state, given, root),
        Statement::Export(export) => {
            let scope = Scope {
                context: given.context,
                rules: given.rules,
                root,
            };
            export_statement(export, state, &scope, externs)
        }
    }
}

/// Executes statements in order, up to the first that breaks a rule.
pub(crate) fn compose<'a, R: Rules>(
    statements: &[Statement<'a>],
    state: &mut State,
    given: &Given<'_, R>,
    root: &mut Root<'a>,
    externs: &mut Externs,
) -> Result<(), Error>
    requires { Stand given.now.context.now state.old.graph root.old externs.old }
    ensures ok { OnOk result (StatementsRun given.now.context.now (rules_of R.Rules given.now.rules.now)
        state.old.graph state.new.graph root.old root.new externs.old externs.new (map statement_of statements.now)) }
    ensures err { ErrorSays result (λ e. OneBreaks given.now.context.now (rules_of R.Rules given.now.rules.now)
        state.old.graph root.old externs.old (map statement_of statements.now) e) }
{
    for next in statements {
        statement(next, state, given, root, externs)?;
    }
    Ok(())
}
