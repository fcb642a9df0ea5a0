//! Imports.

ghost use Rattle.wac_ast_grammar.specs.Grammar as symbols;
ghost use Rattle.wac_ast_grammar.specs.Reading.{begins};
ghost use Rattle.wac_ast_base.specs.Lookahead.{Peeks};
ghost use Rattle.wac_ast_worlds.specs.Worlds.{import_type_of, import_statement_of};

use crate::interface::InlineInterface;
use std::alloc::Global;
use std::fmt;
use wac_ast_base::{
    DocComment, Error, ExternName, Ident, Lookahead, PackagePath, Parse, ParseResult, Peek,
    parse_after, parse_before, parse_docs, take_token, write_variant,
};
use wac_ast_types::FuncType;
use wac_lexer::{Lexer, Token};

/// An import.
#[derive(Drop)]
pub struct ImportStatement<'a> {
    /// The documentation before it.
    pub docs: Vec<DocComment<'a>>,
    /// The name that is bound to it.
    pub id: Ident<'a>,
    /// The name of the import, where it is given.
    pub name: Option<ExternName<'a>>,
    /// What is imported.
    pub ty: ImportType<'a>,
}

impl fmt::Debug for ImportStatement<'_> {
    fn fmt<W: fmt::Write>(&self, f: &mut fmt::Formatter<W>) -> fmt::Result {
        let ImportStatement { docs, id, name, ty } = self;
        write!(
            f,
            "ImportStatement {{ docs: {docs:?}, id: {id:?}, name: {name:?}, ty: {ty:?} }}"
        )
    }
}

impl<'a> Parse<'a> for ImportStatement<'a> {
    ghost symbol = { symbols.import_statement };

    ghost tree = { import_statement_of };

    fn parse(alloc: Global, lexer: &mut Lexer<'a>) -> ParseResult<Self> {
        let docs = parse_docs(alloc, lexer)?;
        take_token(lexer, Token::ImportKeyword)?;
        let id = Parse::parse(alloc, lexer)?;
        let name = parse_after::<ExternName, Error>(alloc, lexer, Token::AsKeyword)?;
        take_token(lexer, Token::Colon)?;
        let ty = parse_before::<ImportType, Error>(alloc, lexer, Token::Semicolon)?;
        Ok(ImportStatement { docs, id, name, ty })
    }
}

impl<'a> Peek for ImportStatement<'a> {
    ghost firsts = { begins symbols.import_statement };

    fn peek(lookahead: &mut Lookahead) -> bool
        ensures { Peeks (begins symbols.import_statement) result lookahead.old lookahead.new }
    {
        lookahead.peek(Token::ImportKeyword)
    }
}

/// What is imported.
#[derive(Drop)]
pub enum ImportType<'a> {
    /// A path to an item of a package.
    Package(PackagePath<'a>),
    /// A function type.
    Func(FuncType<'a>),
    /// An interface without a name.
    Interface(InlineInterface<'a>),
    /// A name.
    Ident(Ident<'a>),
}

impl fmt::Debug for ImportType<'_> {
    fn fmt<W: fmt::Write>(&self, f: &mut fmt::Formatter<W>) -> fmt::Result {
        match self {
            ImportType::Package(part) => write_variant(f, "Package", part),
            ImportType::Func(part) => write_variant(f, "Func", part),
            ImportType::Interface(part) => write_variant(f, "Interface", part),
            ImportType::Ident(part) => write_variant(f, "Ident", part),
        }
    }
}

impl<'a> Parse<'a> for ImportType<'a> {
    ghost symbol = { symbols.import_type };

    ghost tree = { import_type_of };

    fn parse(alloc: Global, lexer: &mut Lexer<'a>) -> ParseResult<Self> {
        let mut lookahead = Lookahead::new(lexer);
        if FuncType::peek(&mut lookahead) {
            Ok(ImportType::Func(Parse::parse(alloc, lexer)?))
        } else if InlineInterface::peek(&mut lookahead) {
            Ok(ImportType::Interface(Parse::parse(alloc, lexer)?))
        } else if PackagePath::peek(&mut lookahead) {
            Ok(ImportType::Package(Parse::parse(alloc, lexer)?))
        } else if Ident::peek(&mut lookahead) {
            Ok(ImportType::Ident(Parse::parse(alloc, lexer)?))
        } else {
            Err(lookahead.error())
        }
    }
}
