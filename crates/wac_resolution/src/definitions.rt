//! Type statements.
ghost use Rattle.std.specs.Prelude.{◌≡◌, OnOk, IfOk};
ghost use Rattle.wac_ast_grammar.specs.Tree.{Statement};
ghost use Rattle.wac_ast_base.specs.Names.{ident_of};
ghost use Rattle.wac_ast.specs.Statements.{type_statement_of};
ghost use Rattle.wac_graph.specs.Origin.{Numbering};
ghost use Rattle.wac_resolution_rules.specs.BrokenWorlds.{KindBroken};
ghost use Rattle.wac_resolution_rules.specs.Errors.{ErrorSays};
ghost use Rattle.wac_resolution_rules.specs.Given.{Rules};
ghost use Rattle.wac_resolution_rules.specs.TypeStatements.{identifier_of};
ghost use Rattle.wac_resolution_state.specs.Root.{composed, Agrees};
ghost use Rattle.wac_resolution_state.specs.Expands.{AllSupplied};
ghost use Rattle.wac_resolution_state.specs.Context.{packages_in, context_of};
ghost use Rattle.wac_resolution.specs.Definitions.{KindDeclared};
ghost use Rattle.wac_resolution_statements.specs.Statements.{Stand, StatementRun, Breaks};

use wac_ast::TypeStatement;
use wac_ast_base::Ident;
use wac_graph::ItemKind;
use wac_resolution_errors::Error;
use wac_resolution_state::{Context, Root, State};
use wac_resolution_statements::{Externs, define};
use wac_resolution_worlds::{OuterScope, interface_decl, world_decl};

/// The identifier that a type statement declares.
fn identifier<'x, 'a>(statement: &'x TypeStatement<'a>) -> &'x Ident<'a>
    ensures { ident_of result.now ≡ identifier_of (type_statement_of statement.now) }
{
    match statement {
        TypeStatement::Interface(decl) => &decl.id,
        TypeStatement::World(decl) => &decl.id,
        TypeStatement::Ty(decl) => decl.id(),
    }
}

/// The kind that a type statement declares.
fn declared_kind(
    statement: &TypeStatement<'_>,
    state: &mut State,
    context: &Context<'_>,
    root: &Root<'_>,
) -> Result<ItemKind, Error>
    requires agrees { Agrees state.old.graph root.now }
    requires supplied { AllSupplied (packages_in context.now) state.old.graph }
    ensures ok { IfOk result (λ k. KindDeclared context.now state.old.graph state.new.graph root.now
        (type_statement_of statement.now) k) }
    ensures err { ErrorSays result (λ e. (numbering : Numbering)
        → KindBroken (context_of numbering context.now) (composed numbering state.old.graph root.now)
        (type_statement_of statement.now) e) }
{
    let outer = OuterScope {
        context,
        root: &root.kinds,
    };
    match statement {
        TypeStatement::Interface(decl) => interface_decl(decl, state, &outer),
        TypeStatement::World(decl) => world_decl(decl, state, &outer),
        TypeStatement::Ty(decl) => wac_resolution_types::type_decl(decl, state, &root.kinds),
    }
}

/// Executes a type statement: a definition of the kind that it declares.
pub(crate) fn type_statement<'a>(
    statement: &TypeStatement<'a>,
    state: &mut State,
    context: &Context<'_>,
    root: &mut Root<'a>,
    externs: &mut Externs,
) -> Result<(), Error>
    requires { Stand context.now state.old.graph root.old externs.old }
    ensures ok { OnOk result ((rules : Rules)
        → StatementRun context.now rules state.old.graph state.new.graph root.old root.new externs.old externs.new
        (Statement.type_statement (type_statement_of statement.now))) }
    ensures err { ErrorSays result (λ e. (rules : Rules)
        → Breaks context.now rules state.old.graph root.old externs.old
        (Statement.type_statement (type_statement_of statement.now)) e) }
{
    let kind = declared_kind(statement, state, context, root)?;
    define(state, root, externs, identifier(statement), kind)?;
    Ok(())
}
