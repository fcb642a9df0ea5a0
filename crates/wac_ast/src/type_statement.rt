//! Statements that declare an interface, a world or a type.

ghost use Rattle.wac_ast_grammar.specs.Grammar as symbols;
ghost use Rattle.wac_ast_grammar.specs.Reading.{begins};
ghost use Rattle.wac_ast_base.specs.Lookahead.{Peeks};
ghost use Rattle.wac_ast.specs.Statements.{type_statement_of};

use std::alloc::Global;
use std::fmt;
use wac_ast_base::{Lookahead, Parse, ParseResult, Peek, write_variant};
use wac_ast_types::TypeDecl;
use wac_ast_worlds::{InterfaceDecl, WorldDecl};
use wac_lexer::Lexer;

/// A statement that declares something.
#[derive(Drop)]
pub enum TypeStatement<'a> {
    /// An interface.
    Interface(InterfaceDecl<'a>),
    /// A world.
    World(WorldDecl<'a>),
    /// A type.
    Ty(TypeDecl<'a>),
}

impl fmt::Debug for TypeStatement<'_> {
    fn fmt<W: fmt::Write>(&self, f: &mut fmt::Formatter<W>) -> fmt::Result {
        match self {
            TypeStatement::Interface(part) => write_variant(f, "Interface", part),
            TypeStatement::World(part) => write_variant(f, "World", part),
            TypeStatement::Ty(part) => write_variant(f, "Ty", part),
        }
    }
}

impl<'a> Parse<'a> for TypeStatement<'a> {
    ghost symbol = { symbols.type_statement };

    ghost tree = { type_statement_of };

    fn parse(alloc: Global, lexer: &mut Lexer<'a>) -> ParseResult<Self> {
        let mut lookahead = Lookahead::new(lexer);
        if InterfaceDecl::peek(&mut lookahead) {
            Ok(TypeStatement::Interface(Parse::parse(alloc, lexer)?))
        } else if WorldDecl::peek(&mut lookahead) {
            Ok(TypeStatement::World(Parse::parse(alloc, lexer)?))
        } else if TypeDecl::peek(&mut lookahead) {
            Ok(TypeStatement::Ty(Parse::parse(alloc, lexer)?))
        } else {
            Err(lookahead.error())
        }
    }
}

impl<'a> Peek for TypeStatement<'a> {
    ghost firsts = { begins symbols.type_statement };

    fn peek(lookahead: &mut Lookahead) -> bool
        ensures { Peeks (begins symbols.type_statement) result lookahead.old lookahead.new }
    {
        InterfaceDecl::peek(lookahead) || WorldDecl::peek(lookahead) || TypeDecl::peek(lookahead)
    }
}
