//! Bindings.

ghost use Rattle.wac_ast_grammar.specs.Grammar as symbols;
ghost use Rattle.wac_ast_grammar.specs.Reading.{begins};
ghost use Rattle.wac_ast_base.specs.Lookahead.{Peeks};
ghost use Rattle.wac_ast_statements.specs.Statements.{let_statement_of};

use crate::Expr;
use std::alloc::Global;
use std::fmt;
use wac_ast_base::{
    DocComment, Error, Ident, Lookahead, Parse, ParseResult, Peek, parse_before, parse_docs,
    take_token,
};
use wac_lexer::{Lexer, Token};

/// A binding of a name to an expression.
#[derive(Drop)]
pub struct LetStatement<'a> {
    /// The documentation before it.
    pub docs: Vec<DocComment<'a>>,
    /// The name.
    pub id: Ident<'a>,
    /// What it is bound to.
    pub expr: Expr<'a>,
}

impl fmt::Debug for LetStatement<'_> {
    fn fmt<W: fmt::Write>(&self, f: &mut fmt::Formatter<W>) -> fmt::Result {
        let LetStatement { docs, id, expr } = self;
        write!(
            f,
            "LetStatement {{ docs: {docs:?}, id: {id:?}, expr: {expr:?} }}"
        )
    }
}

impl<'a> Parse<'a> for LetStatement<'a> {
    ghost symbol = { symbols.let_statement };

    ghost tree = { let_statement_of };

    fn parse(alloc: Global, lexer: &mut Lexer<'a>) -> ParseResult<Self> {
        let docs = parse_docs(alloc, lexer)?;
        take_token(lexer, Token::LetKeyword)?;
        let id = Parse::parse(alloc, lexer)?;
        take_token(lexer, Token::Equals)?;
        let expr = parse_before::<Expr, Error>(alloc, lexer, Token::Semicolon)?;
        Ok(LetStatement { docs, id, expr })
    }
}

impl<'a> Peek for LetStatement<'a> {
    ghost firsts = { begins symbols.let_statement };

    fn peek(lookahead: &mut Lookahead) -> bool
        ensures { Peeks (begins symbols.let_statement) result lookahead.old lookahead.new }
    {
        lookahead.peek(Token::LetKeyword)
    }
}
