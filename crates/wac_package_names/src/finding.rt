//! Finding the instantiations and the accesses of a document.

use crate::instantiations::{Access, Instantiation, Instantiations};
use std::alloc::{AllocError, Global};
use wac_ast::Statement;
use wac_ast::internals::Statements;
use wac_ast_base::PackageName;
use wac_ast_statements::{Expr, InstantiationArgument, NewExpr, PostfixExpr, PrimaryExpr};
use wac_lexer::SourceSpan;
use wac_resolution_state::package_key;

/// What was found so far.
#[derive(Drop)]
struct Found {
    alloc: Global,
    all: Vec<Instantiation>,
    accesses: Vec<Access>,
}

impl Found {
    fn new(alloc: Global) -> Self {
        Found {
            alloc,
            all: Vec::new(alloc),
            accesses: Vec::new(alloc),
        }
    }

    /// Notes an instantiation of the package of a name.
    #[inline(never)]
    fn instantiation(
        &mut self,
        package: &PackageName<'_>,
        whole: SourceSpan,
    ) -> Result<(), AllocError> {
        let key = package_key(self.alloc, package.name, package.string)?;
        let place = package.span;
        self.all.push(Instantiation { key, place, whole })?;
        Ok(())
    }

    /// Notes an access of an expression that begins at an offset.
    fn access(&mut self, start: usize, place: SourceSpan) -> Result<(), AllocError> {
        self.accesses.push(Access { start, place })?;
        Ok(())
    }

    fn into_instantiations(self) -> Instantiations {
        let Found {
            alloc: _,
            all,
            accesses,
        } = self;
        Instantiations { all, accesses }
    }

    /// What was found, unless memory ran out.
    fn after(self, noted: Result<(), AllocError>) -> Result<Instantiations, AllocError> {
        match noted {
            Ok(()) => Ok(self.into_instantiations()),
            Err(refused) => Err(refused),
        }
    }
}

/// The instantiations and the accesses of statements. The error is that memory ran out.
pub fn find_instantiations(
    alloc: Global,
    statements: Statements<'_, '_>,
) -> Result<Instantiations, AllocError> {
    let mut found = Found::new(alloc);
    let noted = all_statements(statements, &mut found);
    found.after(noted)
}

/// Notes what lent statements have.
fn all_statements(all: Statements<'_, '_>, found: &mut Found) -> Result<(), AllocError> {
    let all = all.all;
    statements(all, found)
}

/// Notes what statements have.
fn statements(statements: &[Statement<'_>], found: &mut Found) -> Result<(), AllocError> {
    for next in statements {
        statement(next, found)?;
    }
    Ok(())
}

/// Notes what a statement has.
fn statement(statement: &Statement<'_>, found: &mut Found) -> Result<(), AllocError> {
    match statement {
        Statement::Let(binding) => expression(&binding.expr, found),
        Statement::Export(export) => expression(&export.expr, found),
        Statement::Import(_) | Statement::Ty(_) => Ok(()),
    }
}

/// Notes what an expression has.
#[cycle(expression)]
fn expression(expr: &Expr<'_>, found: &mut Found) -> Result<(), AllocError> {
    accesses(&expr.postfix, found, expr.span.offset())?;
    primary(&expr.primary, found)
}

/// Notes what the beginning of an expression has.
#[cycle(expression)]
fn primary(expr: &PrimaryExpr<'_>, found: &mut Found) -> Result<(), AllocError> {
    match expr {
        PrimaryExpr::New(new) => instantiation(new, found),
        PrimaryExpr::Nested(nested) => expression(&nested.inner, found),
        PrimaryExpr::Ident(_) => Ok(()),
    }
}

/// Notes an instantiation, and what its arguments have.
#[cycle(expression)]
fn instantiation(new: &NewExpr<'_>, found: &mut Found) -> Result<(), AllocError> {
    found.instantiation(&new.package, new.span)?;
    arguments(&new.arguments, found)
}

/// Notes what arguments have.
#[cycle(expression)]
fn arguments(arguments: &[InstantiationArgument<'_>], found: &mut Found) -> Result<(), AllocError> {
    for one in arguments {
        argument(one, found)?;
    }
    Ok(())
}

/// Notes what an argument has.
#[cycle(expression)]
fn argument(argument: &InstantiationArgument<'_>, found: &mut Found) -> Result<(), AllocError> {
    match argument {
        InstantiationArgument::Named(named) => expression(&named.expr, found),
        InstantiationArgument::Inferred(_)
        | InstantiationArgument::Spread(_)
        | InstantiationArgument::Fill(_) => Ok(()),
    }
}

/// The place of an access.
fn place_of(postfix: &PostfixExpr<'_>) -> SourceSpan {
    match postfix {
        PostfixExpr::Access(access) => access.span,
        PostfixExpr::NamedAccess(access) => access.span,
    }
}

/// Notes accesses of an expression that begins at an offset.
#[inline(never)]
fn accesses(
    postfixes: &[PostfixExpr<'_>],
    found: &mut Found,
    start: usize,
) -> Result<(), AllocError> {
    for postfix in postfixes {
        found.access(start, place_of(postfix))?;
    }
    Ok(())
}
