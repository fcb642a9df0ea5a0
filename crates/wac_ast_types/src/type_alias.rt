//! Names of types.

ghost use Rattle.wac_ast_grammar.specs.Grammar as symbols;
ghost use Rattle.wac_ast_grammar.specs.Reading.{begins};
ghost use Rattle.wac_ast_base.specs.Lookahead.{Peeks};
ghost use Rattle.wac_ast_types.specs.Declarations.{type_alias_of, type_alias_kind_of};

use crate::func_type::FuncType;
use crate::head::parse_head;
use crate::types::Type;
use std::alloc::Global;
use std::fmt;
use wac_ast_base::{
    DocComment, Error, Ident, Lookahead, Parse, ParseResult, Peek, parse_before, take_token,
    write_variant,
};
use wac_lexer::{Lexer, Token};

/// A name that is given to a type.
#[derive(Drop)]
pub struct TypeAlias<'a> {
    /// The documentation before it.
    pub docs: Vec<DocComment<'a>>,
    /// The name.
    pub id: Ident<'a>,
    /// What it denotes.
    pub kind: TypeAliasKind<'a>,
}

impl fmt::Debug for TypeAlias<'_> {
    fn fmt<W: fmt::Write>(&self, f: &mut fmt::Formatter<W>) -> fmt::Result {
        let TypeAlias { docs, id, kind } = self;
        write!(
            f,
            "TypeAlias {{ docs: {docs:?}, id: {id:?}, kind: {kind:?} }}"
        )
    }
}

impl<'a> Parse<'a> for TypeAlias<'a> {
    ghost symbol = { symbols.type_alias };

    ghost tree = { type_alias_of };

    fn parse(alloc: Global, lexer: &mut Lexer<'a>) -> ParseResult<Self> {
        let (docs, id) = parse_head(alloc, lexer, Token::TypeKeyword)?;
        take_token(lexer, Token::Equals)?;
        let kind = parse_before::<TypeAliasKind, Error>(alloc, lexer, Token::Semicolon)?;
        Ok(TypeAlias { docs, id, kind })
    }
}

impl<'a> Peek for TypeAlias<'a> {
    ghost firsts = { begins symbols.type_alias };

    fn peek(lookahead: &mut Lookahead) -> bool
        ensures { Peeks (begins symbols.type_alias) result lookahead.old lookahead.new }
    {
        lookahead.peek(Token::TypeKeyword)
    }
}

/// What a name of a type denotes.
#[derive(Drop)]
pub enum TypeAliasKind<'a> {
    /// A function type.
    Func(FuncType<'a>),
    /// Another type.
    Ty(Type<'a>),
}

impl fmt::Debug for TypeAliasKind<'_> {
    fn fmt<W: fmt::Write>(&self, f: &mut fmt::Formatter<W>) -> fmt::Result {
        match self {
            TypeAliasKind::Func(part) => write_variant(f, "Func", part),
            TypeAliasKind::Ty(part) => write_variant(f, "Ty", part),
        }
    }
}

impl<'a> Parse<'a> for TypeAliasKind<'a> {
    ghost symbol = { symbols.type_alias_kind };

    ghost tree = { type_alias_kind_of };

    fn parse(alloc: Global, lexer: &mut Lexer<'a>) -> ParseResult<Self> {
        let mut lookahead = Lookahead::new(lexer);
        if FuncType::peek(&mut lookahead) {
            Ok(TypeAliasKind::Func(Parse::parse(alloc, lexer)?))
        } else if Type::peek(&mut lookahead) {
            Ok(TypeAliasKind::Ty(Parse::parse(alloc, lexer)?))
        } else {
            Err(lookahead.error())
        }
    }
}
