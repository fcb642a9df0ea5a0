//! Records.

ghost use Rattle.wac_ast_grammar.specs.Grammar as symbols;
ghost use Rattle.wac_ast_grammar.specs.Reading.{begins};
ghost use Rattle.wac_ast_base.specs.Lookahead.{Peeks};
ghost use Rattle.wac_ast_types.specs.Declarations.{field_of, record_decl_of};

use crate::func_type::NamedType;
use crate::head::parse_head;
use crate::types::Type;
use std::alloc::Global;
use std::fmt;
use wac_ast_base::{
    BodyKind, DocComment, Error, Ident, Lookahead, Parse, ParseResult, Peek, parse_docs,
    parse_filled,
};
use wac_lexer::{Lexer, Token};

/// A type of values with named parts.
#[derive(Drop)]
pub struct RecordDecl<'a> {
    /// The documentation before it.
    pub docs: Vec<DocComment<'a>>,
    /// The name.
    pub id: Ident<'a>,
    /// The parts, at least one.
    pub fields: Vec<Field<'a>>,
}

impl fmt::Debug for RecordDecl<'_> {
    fn fmt<W: fmt::Write>(&self, f: &mut fmt::Formatter<W>) -> fmt::Result {
        let RecordDecl { docs, id, fields } = self;
        write!(
            f,
            "RecordDecl {{ docs: {docs:?}, id: {id:?}, fields: {fields:?} }}"
        )
    }
}

impl<'a> Parse<'a> for RecordDecl<'a> {
    ghost symbol = { symbols.record_decl };

    ghost tree = { record_decl_of };

    fn parse(alloc: Global, lexer: &mut Lexer<'a>) -> ParseResult<Self> {
        let (docs, id) = parse_head(alloc, lexer, Token::RecordKeyword)?;
        let fields = parse_filled::<Field, Error>(alloc, lexer, BodyKind::Record)?;
        Ok(RecordDecl { docs, id, fields })
    }
}

impl<'a> Peek for RecordDecl<'a> {
    ghost firsts = { begins symbols.record_decl };

    fn peek(lookahead: &mut Lookahead) -> bool
        ensures { Peeks (begins symbols.record_decl) result lookahead.old lookahead.new }
    {
        lookahead.peek(Token::RecordKeyword)
    }
}

/// A part of a record.
#[derive(Drop)]
pub struct Field<'a> {
    /// The documentation before it.
    pub docs: Vec<DocComment<'a>>,
    /// The name.
    pub id: Ident<'a>,
    /// What it holds.
    pub ty: Type<'a>,
}

impl fmt::Debug for Field<'_> {
    fn fmt<W: fmt::Write>(&self, f: &mut fmt::Formatter<W>) -> fmt::Result {
        let Field { docs, id, ty } = self;
        write!(f, "Field {{ docs: {docs:?}, id: {id:?}, ty: {ty:?} }}")
    }
}

impl<'a> Parse<'a> for Field<'a> {
    ghost symbol = { symbols.field };

    ghost tree = { field_of };

    fn parse(alloc: Global, lexer: &mut Lexer<'a>) -> ParseResult<Self> {
        let docs = parse_docs(alloc, lexer)?;
        let named: NamedType = Parse::parse(alloc, lexer)?;
        Ok(Field {
            docs,
            id: named.id,
            ty: named.ty,
        })
    }
}

impl<'a> Peek for Field<'a> {
    ghost firsts = { begins symbols.field };

    fn peek(lookahead: &mut Lookahead) -> bool
        ensures { Peeks (begins symbols.field) result lookahead.old lookahead.new }
    {
        NamedType::peek(lookahead)
    }
}
