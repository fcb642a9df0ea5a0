//! Exports.

ghost use Rattle.wac_ast_grammar.specs.Grammar as symbols;
ghost use Rattle.wac_ast_grammar.specs.Reading.{begins};
ghost use Rattle.wac_ast_base.specs.Lookahead.{Peeks};
ghost use Rattle.wac_ast_statements.specs.Statements.{export_statement_of, export_options_of};

use crate::Expr;
use std::alloc::Global;
use std::fmt;
use wac_ast_base::{
    DocComment, Error, ExternName, Lookahead, Parse, ParseResult, Peek, at, parse_before,
    parse_docs, take_token, write_variant,
};
use wac_lexer::{Lexer, SourceSpan, Token};

/// An export.
#[derive(Drop)]
pub struct ExportStatement<'a> {
    /// The documentation before it.
    pub docs: Vec<DocComment<'a>>,
    /// What is exported.
    pub expr: Expr<'a>,
    /// How it is exported.
    pub options: ExportOptions<'a>,
}

impl fmt::Debug for ExportStatement<'_> {
    fn fmt<W: fmt::Write>(&self, f: &mut fmt::Formatter<W>) -> fmt::Result {
        let ExportStatement {
            docs,
            expr,
            options,
        } = self;
        write!(
            f,
            "ExportStatement {{ docs: {docs:?}, expr: {expr:?}, options: {options:?} }}"
        )
    }
}

impl<'a> Parse<'a> for ExportStatement<'a> {
    ghost symbol = { symbols.export_statement };

    ghost tree = { export_statement_of };

    fn parse(alloc: Global, lexer: &mut Lexer<'a>) -> ParseResult<Self> {
        let docs = parse_docs(alloc, lexer)?;
        take_token(lexer, Token::ExportKeyword)?;
        let expr = Parse::parse(alloc, lexer)?;
        let options = parse_before::<ExportOptions, Error>(alloc, lexer, Token::Semicolon)?;
        Ok(ExportStatement {
            docs,
            expr,
            options,
        })
    }
}

impl<'a> Peek for ExportStatement<'a> {
    ghost firsts = { begins symbols.export_statement };

    fn peek(lookahead: &mut Lookahead) -> bool
        ensures { Peeks (begins symbols.export_statement) result lookahead.old lookahead.new }
    {
        lookahead.peek(Token::ExportKeyword)
    }
}

/// What follows the expression of an export.
#[derive(Drop)]
pub enum ExportOptions<'a> {
    /// Nothing: the name is found from the expression.
    None,
    /// `...`: each export of the instance. It holds the span of the three dots.
    Spread(SourceSpan),
    /// `as x`: under another name.
    Rename(ExternName<'a>),
}

impl fmt::Debug for ExportOptions<'_> {
    fn fmt<W: fmt::Write>(&self, f: &mut fmt::Formatter<W>) -> fmt::Result {
        match self {
            ExportOptions::None => f.write_str("None"),
            ExportOptions::Spread(part) => write_variant(f, "Spread", part),
            ExportOptions::Rename(part) => write_variant(f, "Rename", part),
        }
    }
}

impl<'a> Parse<'a> for ExportOptions<'a> {
    ghost symbol = { symbols.export_options };

    ghost tree = { export_options_of };

    fn parse(alloc: Global, lexer: &mut Lexer<'a>) -> ParseResult<Self> {
        if at(lexer, Token::Ellipsis) {
            return Ok(ExportOptions::Spread(take_token(lexer, Token::Ellipsis)?));
        }
        if at(lexer, Token::AsKeyword) {
            take_token(lexer, Token::AsKeyword)?;
            return Ok(ExportOptions::Rename(Parse::parse(alloc, lexer)?));
        }
        Ok(ExportOptions::None)
    }
}
