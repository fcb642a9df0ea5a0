//! Import statements.
ghost use Rattle.std.specs.Prelude.{OnOk};
ghost use Rattle.wac_ast_grammar.specs.Tree.{Statement as StatementTree};
ghost use Rattle.wac_ast_worlds.specs.Worlds.{import_statement_of};
ghost use Rattle.wac_resolution_rules.specs.Errors.{ErrorSays};
ghost use Rattle.wac_resolution_rules.specs.Given.{rules_of};
ghost use Rattle.wac_resolution_statements.specs.Statements.{Stand, StatementRun, Breaks};

use crate::import_kind::import_kind;
use wac_ast_worlds::ImportStatement;
use wac_graph::Rules;
use wac_resolution_errors::Error;
use wac_resolution_state::{Given, Root, State};
use wac_resolution_statements::{Externs, NewImport, import_as, import_name};

/// Executes an import statement.
pub(crate) fn import_statement<'a, R: Rules>(
    statement: &ImportStatement<'a>,
    state: &mut State,
    given: &Given<'_, R>,
    root: &mut Root<'a>,
    externs: &mut Externs,
) -> Result<(), Error>
    requires { Stand given.now.context.now state.old.graph root.old externs.old }
    ensures ok { OnOk result (StatementRun given.now.context.now (rules_of R.Rules given.now.rules.now) state.old.graph
        state.new.graph root.old root.new externs.old externs.new
        (StatementTree.import_statement (import_statement_of statement.now))) }
    ensures err { ErrorSays result (λ e. Breaks given.now.context.now (rules_of R.Rules given.now.rules.now)
        state.old.graph root.old externs.old (StatementTree.import_statement (import_statement_of statement.now)) e) }
{
    let kind = import_kind(&statement.ty, state, given.context, root)?;
    let item = kind.promote();
    let text = import_name(statement, state, kind)?;
    let import = NewImport {
        statement,
        text: text.as_str(),
        kind: item,
    };
    import_as(state, given.rules, root, externs, &import)
}
