//! Enums.

ghost use Rattle.wac_ast_grammar.specs.Grammar as symbols;
ghost use Rattle.wac_ast_grammar.specs.Reading.{begins};
ghost use Rattle.wac_ast_base.specs.Lookahead.{Peeks};
ghost use Rattle.wac_ast_types.specs.Declarations.{enum_case_of, enum_decl_of};

use std::alloc::Global;
use wac_ast_base::{
    BodyKind, DocComment, Error, Ident, Lookahead, Parse, ParseResult, Peek, parse_docs,
    parse_filled, take_token,
};
use wac_lexer::{Lexer, Token};

/// A type of names.
#[derive(Debug, Drop)]
pub struct EnumDecl<'a> {
    /// The documentation before it.
    pub docs: Vec<DocComment<'a>>,
    /// The name.
    pub id: Ident<'a>,
    /// The names, at least one.
    pub cases: Vec<EnumCase<'a>>,
}

impl<'a> Parse<'a> for EnumDecl<'a> {
    ghost symbol = { symbols.enum_decl };

    ghost tree = { enum_decl_of };

    fn parse(alloc: Global, lexer: &mut Lexer<'a>) -> ParseResult<Self> {
        let docs = parse_docs(alloc, lexer)?;
        take_token(lexer, Token::EnumKeyword)?;
        let id = Parse::parse(alloc, lexer)?;
        let cases = parse_filled::<EnumCase, Error>(alloc, lexer, BodyKind::Enum)?;
        Ok(EnumDecl { docs, id, cases })
    }
}

impl<'a> Peek for EnumDecl<'a> {
    ghost firsts = { begins symbols.enum_decl };

    fn peek(lookahead: &mut Lookahead) -> bool
        ensures { Peeks (begins symbols.enum_decl) result lookahead.old lookahead.new }
    {
        lookahead.peek(Token::EnumKeyword)
    }
}

/// A name of an enum.
#[derive(Debug, Drop)]
pub struct EnumCase<'a> {
    /// The documentation before it.
    pub docs: Vec<DocComment<'a>>,
    /// The name.
    pub id: Ident<'a>,
}

impl<'a> Parse<'a> for EnumCase<'a> {
    ghost symbol = { symbols.enum_case };

    ghost tree = { enum_case_of };

    fn parse(alloc: Global, lexer: &mut Lexer<'a>) -> ParseResult<Self> {
        let docs = parse_docs(alloc, lexer)?;
        let id = Parse::parse(alloc, lexer)?;
        Ok(EnumCase { docs, id })
    }
}

impl<'a> Peek for EnumCase<'a> {
    ghost firsts = { begins symbols.enum_case };

    fn peek(lookahead: &mut Lookahead) -> bool
        ensures { Peeks (begins symbols.enum_case) result lookahead.old lookahead.new }
    {
        Ident::peek(lookahead)
    }
}
