//! Names of documents.
ghost use Rattle.std.specs.Prelude.{◌++◌, [], ◌∷◌, IfOk, OnOk, flat_map, map, option_map};
ghost use Rattle.wac_ast.specs.Statements.{statement_of, type_statement_of};
ghost use Rattle.wac_ast_base.specs.Names.{package_path_of};
ghost use Rattle.wac_ast_statements.specs.Statements.{directive_of, let_statement_of};
ghost use Rattle.wac_ast_worlds.specs.Worlds.{import_statement_of, import_type_of};
ghost use Rattle.wac_ast_grammar.specs.Tree.{Statement as Tree};
ghost use Rattle.wac_names.specs.LookedUp.{AreLookedUp};
ghost use Rattle.wac_names.specs.LookUps.{look_ups};
ghost use Rattle.wac_names.specs.Places.{AreTied};
ghost use Rattle.wac_names.specs.Steps.{import_type_steps, statement_steps, steps_of, target_steps, type_statement_steps};
ghost use Rattle.wac_names.specs.Traced.{Takes};

use crate::declarations::type_decl;
use crate::expressions::expression;
use crate::finder::Finder;
use crate::interfaces::{interface, interface_decl};
use crate::names::{Kind, Names};
use crate::paths::{at_root, path};
use crate::place::{Denoted, Here};
use crate::standing::standing_names;
use crate::steps::Level;
use crate::types::function;
use crate::worlds::world_decl;
use std::alloc::{AllocError, Global};
use wac_ast::internals::Statements;
use wac_ast::{PackageDirective, Statement, TypeStatement};
use wac_ast_base::PackagePath;
use wac_ast_statements::LetStatement;
use wac_ast_worlds::{ImportStatement, ImportType};

/// Notes the names of what is imported under the name of a number, and returns the scope after it.
fn import_type<'a>(
    ty: &ImportType<'a>,
    finder: &mut Finder<'a>,
    owner: usize,
) -> Result<Option<usize>, AllocError>
    ensures { OnOk result (Takes finder.old finder.new (import_type_steps (import_type_of ty.now))) }
{
    match ty {
        ImportType::Package(from) => path(finder, from),
        ImportType::Func(func) => {
            function(func, finder, Here::root(), owner)?;
            Ok(None)
        }
        ImportType::Interface(inline) => {
            let inner = interface(&inline.items, finder, Level::Body, owner)?;
            Ok(Some(inner))
        }
        ImportType::Ident(id) => at_root(finder, id),
    }
}

/// Notes the names of an import. The name after `as` is one of the world outside.
fn import<'a>(import: &ImportStatement<'a>, finder: &mut Finder<'a>) -> Result<(), AllocError>
    ensures { OnOk result (Takes finder.old finder.new
        (statement_steps (Tree.import_statement (import_statement_of import.now)))) }
{
    let binding = finder.declare(&import.id, Kind::Import, None)?;
    let scope = import_type(&import.ty, finder, binding)?;
    finder.bind_at_root(&import.id, Denoted::new(binding, scope))
}

/// Notes the names of a `let`. Its own is bound after the expression, which can't name it.
fn let_statement<'a>(
    statement: &LetStatement<'a>,
    finder: &mut Finder<'a>,
) -> Result<(), AllocError>
    ensures { OnOk result (Takes finder.old finder.new
        (statement_steps (Tree.let_statement (let_statement_of statement.now)))) }
{
    let binding = finder.declare(&statement.id, Kind::Let, None)?;
    let scope = expression(&statement.expr, finder)?;
    finder.bind_at_root(&statement.id, Denoted::new(binding, scope))
}

/// Notes the names of a declaration.
fn type_statement<'a>(
    statement: &TypeStatement<'a>,
    finder: &mut Finder<'a>,
) -> Result<(), AllocError>
    ensures { OnOk result (Takes finder.old finder.new (type_statement_steps (type_statement_of statement.now))) }
{
    match statement {
        TypeStatement::Interface(decl) => interface_decl(decl, finder),
        TypeStatement::World(decl) => world_decl(decl, finder),
        TypeStatement::Ty(decl) => type_decl(decl, finder),
    }
}

/// Notes the names of a statement. An export's name after `as` is one of the world outside.
fn statement<'a>(statement: &Statement<'a>, finder: &mut Finder<'a>) -> Result<(), AllocError>
    ensures { OnOk result (Takes finder.old finder.new (statement_steps (statement_of statement.now))) }
{
    match statement {
        Statement::Import(part) => import(part, finder),
        Statement::Ty(part) => type_statement(part, finder),
        Statement::Let(part) => let_statement(part, finder),
        Statement::Export(part) => {
            expression(&part.expr, finder)?;
            Ok(())
        }
    }
}

/// Notes the names of statements.
fn statements<'a>(statements: &[Statement<'a>], finder: &mut Finder<'a>) -> Result<(), AllocError>
    ensures { OnOk result (Takes finder.old finder.new
        (flat_map statement_steps (map statement_of statements.now))) }
{
    for next in statements {
        statement(next, finder)?;
    }
    Ok(())
}

/// Notes the names of lent statements.
fn all_statements<'a>(all: Statements<'_, 'a>, finder: &mut Finder<'a>) -> Result<(), AllocError>
    ensures { OnOk result (Takes finder.old finder.new (flat_map statement_steps (map statement_of all.entry))) }
{
    let all = all.all;
    statements(all, finder)
}

/// Notes the names of the target, if there is one: what its first segment denotes after all statements.
fn target<'a>(finder: &mut Finder<'a>, targets: &Option<PackagePath<'a>>) -> Result<(), AllocError>
    ensures { OnOk result (Takes finder.old finder.new (target_steps (option_map package_path_of targets.now))) }
{
    match targets {
        Some(target) => {
            path(finder, target)?;
            Ok(())
        }
        None => Ok(()),
    }
}

/// Notes all names.
fn all_names<'a>(
    statements: Statements<'_, 'a>,
    finder: &mut Finder<'a>,
    directive: &PackageDirective<'a>,
) -> Result<(), AllocError>
    ensures { OnOk result (Takes finder.old finder.new
        (steps_of (directive_of directive.now) (map statement_of statements.entry))) }
{
    finder.open_root()?;
    all_statements(statements, finder)?;
    target(finder, &directive.targets)
}

impl Names {
    /// The names of the document of a text, which has this directive and these statements.
    ///
    /// What a name stands for is what resolving looks up there (docs/RESOLVING.md); a name that denotes nothing, or
    /// something of another package, is no mention. Where a name is bound twice in a scope, others denote the first.
    /// The error is that memory ran out.
    pub fn of<'a>(
        statements: Statements<'_, 'a>,
        alloc: Global,
        source: &str,
        directive: &PackageDirective<'a>,
    ) -> Result<Names, AllocError>
        // Each mention stands for one of the names, and is spelled like it.
        ensures tied { IfOk result (AreTied source.now) }
        // The identifiers that are looked up in scopes are mentions exactly where they find a name, and each stands for it.
        ensures looked_up { IfOk result (AreLookedUp source.now (look_ups (directive_of directive.now).package_name.name
            (steps_of (directive_of directive.now) (map statement_of statements.entry)))) }
    {
        let own = directive.package.name;
        let mut finder = Finder::new(alloc, own);
        all_names(statements, &mut finder, directive)?;
        let (found, steps) = finder.into_parts();
        standing_names(alloc, source, own, found, &steps)
    }
}
