//! The statements of a document.

ghost use Rattle.std.specs.Prelude.{◌<◌};
ghost use Rattle.wac_ast_grammar.specs.Grammar as symbols;
ghost use Rattle.wac_ast.specs.Statements.{statement_of};

use crate::type_statement::TypeStatement;
use std::alloc::Global;
use std::fmt;
use wac_ast_base::{Lookahead, Parse, ParseResult, Peek, write_variant};
use wac_ast_statements::{ExportStatement, LetStatement};
use wac_ast_worlds::ImportStatement;
use wac_lexer::Lexer;

/// A statement of a document.
#[derive(Drop)]
pub enum Statement<'a> {
    /// An import.
    Import(ImportStatement<'a>),
    /// The declaration of an interface, a world or a type.
    Ty(TypeStatement<'a>),
    /// A binding.
    Let(LetStatement<'a>),
    /// An export.
    Export(ExportStatement<'a>),
}

impl fmt::Debug for Statement<'_> {
    fn fmt<W: fmt::Write>(&self, f: &mut fmt::Formatter<W>) -> fmt::Result {
        match self {
            Statement::Import(part) => write_variant(f, "Import", part),
            Statement::Ty(part) => write_variant(f, "Ty", part),
            Statement::Let(part) => write_variant(f, "Let", part),
            Statement::Export(part) => write_variant(f, "Export", part),
        }
    }
}

impl<'a> Parse<'a> for Statement<'a> {
    ghost symbol = { symbols.statement };

    ghost tree = { statement_of };

    fn parse(alloc: Global, lexer: &mut Lexer<'a>) -> ParseResult<Self> {
        let mut lookahead = Lookahead::new(lexer);
        if ImportStatement::peek(&mut lookahead) {
            Ok(Statement::Import(Parse::parse(alloc, lexer)?))
        } else if LetStatement::peek(&mut lookahead) {
            Ok(Statement::Let(Parse::parse(alloc, lexer)?))
        } else if ExportStatement::peek(&mut lookahead) {
            Ok(Statement::Export(Parse::parse(alloc, lexer)?))
        } else if TypeStatement::peek(&mut lookahead) {
            Ok(Statement::Ty(Parse::parse(alloc, lexer)?))
        } else {
            Err(lookahead.error())
        }
    }
}
