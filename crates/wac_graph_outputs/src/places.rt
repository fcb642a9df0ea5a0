//! Where the names of a document are bound.

use indexmap::IndexMap;
use std::alloc::{AllocError, Global};
use wac_ast::internals::Statements;
use wac_ast::{Ident, Statement, TypeStatement};
use wac_lexer::SourceSpan;

/// The identifier that a type statement binds.
fn type_id<'t, 'a>(statement: &'t TypeStatement<'a>) -> &'t Ident<'a> {
    match statement {
        TypeStatement::Interface(interface) => &interface.id,
        TypeStatement::World(world) => &world.id,
        TypeStatement::Ty(declaration) => declaration.id(),
    }
}

/// The identifier that a statement binds, if it binds one.
fn bound_id<'t, 'a>(statement: &'t Statement<'a>) -> Option<&'t Ident<'a>> {
    match statement {
        Statement::Import(import) => Some(&import.id),
        Statement::Let(binding) => Some(&binding.id),
        Statement::Ty(declaration) => Some(type_id(declaration)),
        Statement::Export(_) => None,
    }
}

/// The names that statements bind, each with its place.
pub fn bound_places(
    alloc: Global,
    statements: Statements<'_, '_>,
) -> Result<IndexMap<String, SourceSpan>, AllocError> {
    let mut places = IndexMap::new(alloc);
    for statement in statements.all {
        if let Some(id) = bound_id(statement) {
            places.insert(String::from_str(alloc, id.string)?, id.span)?;
        }
    }
    Ok(places)
}
