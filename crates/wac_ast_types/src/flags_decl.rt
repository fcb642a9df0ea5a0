//! Flags.

ghost use Rattle.wac_ast_grammar.specs.Grammar as symbols;
ghost use Rattle.wac_ast_grammar.specs.Reading.{begins};
ghost use Rattle.wac_ast_base.specs.Lookahead.{Peeks};
ghost use Rattle.wac_ast_types.specs.Declarations.{flag_of, flags_decl_of};

use crate::head::parse_head;
use std::alloc::Global;
use wac_ast_base::{
    BodyKind, DocComment, Error, Ident, Lookahead, Parse, ParseResult, Peek, parse_docs,
    parse_filled,
};
use wac_lexer::{Lexer, Token};

/// A type of flags.
#[derive(Debug, Drop)]
pub struct FlagsDecl<'a> {
    /// The documentation before it.
    pub docs: Vec<DocComment<'a>>,
    /// The name.
    pub id: Ident<'a>,
    /// The flags, at least one.
    pub flags: Vec<Flag<'a>>,
}

impl<'a> Parse<'a> for FlagsDecl<'a> {
    ghost symbol = { symbols.flags_decl };

    ghost tree = { flags_decl_of };

    fn parse(alloc: Global, lexer: &mut Lexer<'a>) -> ParseResult<Self> {
        let (docs, id) = parse_head(alloc, lexer, Token::FlagsKeyword)?;
        let flags = parse_filled::<Flag, Error>(alloc, lexer, BodyKind::Flags)?;
        Ok(FlagsDecl { docs, id, flags })
    }
}

impl<'a> Peek for FlagsDecl<'a> {
    ghost firsts = { begins symbols.flags_decl };

    fn peek(lookahead: &mut Lookahead) -> bool
        ensures { Peeks (begins symbols.flags_decl) result lookahead.old lookahead.new }
    {
        lookahead.peek(Token::FlagsKeyword)
    }
}

/// A flag.
#[derive(Debug, Drop)]
pub struct Flag<'a> {
    /// The documentation before it.
    pub docs: Vec<DocComment<'a>>,
    /// The name.
    pub id: Ident<'a>,
}

impl<'a> Parse<'a> for Flag<'a> {
    ghost symbol = { symbols.flag };

    ghost tree = { flag_of };

    fn parse(alloc: Global, lexer: &mut Lexer<'a>) -> ParseResult<Self> {
        let docs = parse_docs(alloc, lexer)?;
        let id = Parse::parse(alloc, lexer)?;
        Ok(Flag { docs, id })
    }
}

impl<'a> Peek for Flag<'a> {
    ghost firsts = { begins symbols.flag };

    fn peek(lookahead: &mut Lookahead) -> bool
        ensures { Peeks (begins symbols.flag) result lookahead.old lookahead.new }
    {
        Ident::peek(lookahead)
    }
}
