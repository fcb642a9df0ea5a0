//! `let` statements.
ghost use Rattle.std.specs.Prelude.{OnOk};
ghost use Rattle.wac_ast_statements.specs.Statements.{let_statement_of};
ghost use Rattle.wac_ast_grammar.specs.Tree.{Statement};
ghost use Rattle.wac_resolution_rules.specs.Errors.{ErrorSays};
ghost use Rattle.wac_resolution_rules.specs.Given.{rules_of};
ghost use Rattle.wac_resolution_state.specs.Root.{Agrees};
ghost use Rattle.wac_resolution_state.specs.Expands.{AllSupplied};
ghost use Rattle.wac_resolution_state.specs.Context.{packages_in};
ghost use Rattle.wac_resolution_statements.specs.declared.externs.Externs.{Externs};
ghost use Rattle.wac_resolution_statements.specs.Externs.{ArePlaced};
ghost use Rattle.wac_resolution_statements.specs.Statements.{StatementRun, Breaks};

use wac_ast_statements::LetStatement;
use wac_graph::Rules;
use wac_resolution_errors::Error;
use wac_resolution_expressions::expression;
use wac_resolution_state::{Given, Root, Scope, State};

/// Binds the identifier of a `let` to the node of its expression. Nothing is imported or exported, so it needs no
/// places of imports and exports; its contract says that they stay those of the graph.
pub fn let_statement<'a, R: Rules>(
    statement: &LetStatement<'a>,
    state: &mut State,
    given: &Given<'_, R>,
    root: &mut Root<'a>,
) -> Result<(), Error>
    requires agrees { Agrees state.old.graph root.old }
    requires supplied { AllSupplied (packages_in given.now.context.now) state.old.graph }
    ensures ok { OnOk result ((x : Externs) → ArePlaced state.old.graph x
        → StatementRun given.now.context.now (rules_of R.Rules given.now.rules.now) state.old.graph state.new.graph
        root.old root.new x x (Statement.let_statement (let_statement_of statement.now))) }
    ensures err { ErrorSays result (λ e. (x : Externs)
        → Breaks given.now.context.now (rules_of R.Rules given.now.rules.now) state.old.graph root.old x
        (Statement.let_statement (let_statement_of statement.now)) e) }
{
    // Its contract says that the graph is sound.
    let _before = state.graph.nodes();
    let scope = Scope {
        context: given.context,
        rules: given.rules,
        root: &*root,
    };
    let node = expression(&statement.expr, state, &scope)?;
    root.bind(state, &statement.id, node)?;
    // It still is.
    let _after = state.graph.nodes();
    Ok(())
}
