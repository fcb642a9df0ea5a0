//! What statements mention.
ghost use Rattle.std.specs.Prelude.{OnOk, map, flat_map, option_map};
ghost use Rattle.wac_ast.specs.Statements.{statement_of, type_statement_of};
ghost use Rattle.wac_ast_base.specs.Names.{package_path_of};
ghost use Rattle.wac_ast_worlds.specs.Worlds.{import_type_of};
ghost use Rattle.wac_resolution_rules.specs.Mentions.{import_type_mentions, statement_mentions, target_mentions, type_mentions};
ghost use Rattle.wac_resolution.specs.Noted.{Notes};

use crate::mentions::Mentions;
use crate::mentions_in_expressions::expression;
use crate::mentions_in_interfaces::interface_items;
use crate::mentions_in_worlds::world;
use std::alloc::AllocError;
use wac_ast::internals::Statements;
use wac_ast::{Statement, TypeStatement};
use wac_ast_base::PackagePath;
use wac_ast_worlds::ImportType;

/// Notes what the target mentions, if there is one.
pub(crate) fn target(
    mentions: &mut Mentions<'_>,
    targets: &Option<PackagePath<'_>>,
) -> Result<(), AllocError>
    ensures { OnOk result (Notes mentions.old mentions.new
        (target_mentions mentions.old.own (option_map package_path_of targets.now))) }
{
    match targets {
        Some(path) => mentions.path(path),
        None => Ok(()),
    }
}

/// Notes what the type of an import mentions.
fn import_type(ty: &ImportType<'_>, mentions: &mut Mentions<'_>) -> Result<(), AllocError>
    ensures { OnOk result (Notes mentions.old mentions.new
        (import_type_mentions mentions.old.own (import_type_of ty.now))) }
{
    match ty {
        ImportType::Package(path) => mentions.path(path),
        ImportType::Interface(interface) => interface_items(&interface.items, mentions),
        ImportType::Func(_) | ImportType::Ident(_) => Ok(()),
    }
}

/// Notes what a declaration mentions.
fn type_statement(
    declaration: &TypeStatement<'_>,
    mentions: &mut Mentions<'_>,
) -> Result<(), AllocError>
    ensures { OnOk result (Notes mentions.old mentions.new
        (type_mentions mentions.old.own (type_statement_of declaration.now))) }
{
    match declaration {
        TypeStatement::Interface(interface) => interface_items(&interface.items, mentions),
        TypeStatement::World(declared) => world(declared, mentions),
        TypeStatement::Ty(_) => Ok(()),
    }
}

/// Notes what a statement mentions.
fn statement(statement: &Statement<'_>, mentions: &mut Mentions<'_>) -> Result<(), AllocError>
    ensures { OnOk result (Notes mentions.old mentions.new
        (statement_mentions mentions.old.own (statement_of statement.now))) }
{
    match statement {
        Statement::Import(import) => import_type(&import.ty, mentions),
        Statement::Ty(declaration) => type_statement(declaration, mentions),
        Statement::Let(binding) => expression(&binding.expr, mentions),
        Statement::Export(export) => expression(&export.expr, mentions),
    }
}

/// Notes what statements mention.
fn statements(statements: &[Statement<'_>], mentions: &mut Mentions<'_>) -> Result<(), AllocError>
    ensures { OnOk result (Notes mentions.old mentions.new
        (flat_map (statement_mentions mentions.old.own) (map statement_of statements.now))) }
{
    for next in statements {
        statement(next, mentions)?;
    }
    Ok(())
}

/// Notes what lent statements mention.
pub(crate) fn all_statements(
    all: Statements<'_, '_>,
    mentions: &mut Mentions<'_>,
) -> Result<(), AllocError>
    ensures { OnOk result (Notes mentions.old mentions.new
        (flat_map (statement_mentions mentions.old.own) (map statement_of all.entry))) }
{
    let all = all.all;
    statements(all, mentions)
}
