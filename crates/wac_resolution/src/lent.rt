//! Borrowed statements.
ghost use Rattle.std.specs.Prelude.{OnOk, map};
ghost use Rattle.wac_ast.specs.Statements.{statement_of};
ghost use Rattle.wac_resolution_rules.specs.Errors.{ErrorSays};
ghost use Rattle.wac_resolution_rules.specs.Given.{rules_of};
ghost use Rattle.wac_resolution.specs.Sequences.{StatementsRun, OneBreaks};
ghost use Rattle.wac_resolution_statements.specs.Statements.{Stand};

use crate::statements::compose;
use wac_ast::internals::Statements;
use wac_graph::Rules;
use wac_resolution_errors::Error;
use wac_resolution_state::{Given, Root, State};
use wac_resolution_statements::Externs;

/// Executes borrowed statements in order.
pub(crate) fn carry_out<'a, R: Rules>(
    statements: Statements<'_, 'a>,
    state: &mut State,
    given: &Given<'_, R>,
    root: &mut Root<'a>,
    externs: &mut Externs,
) -> Result<(), Error>
    requires { Stand given.now.context.now state.old.graph root.old externs.old }
    ensures ok { OnOk result (StatementsRun given.now.context.now (rules_of R.Rules given.now.rules.now)
        state.old.graph state.new.graph root.old root.new externs.old externs.new
        (map statement_of statements.entry)) }
    ensures err { ErrorSays result (λ e. OneBreaks given.now.context.now (rules_of R.Rules given.now.rules.now)
        state.old.graph root.old externs.old (map statement_of statements.entry) e) }
{
    let all = statements.all;
    compose(all, state, given, root, externs)
}
