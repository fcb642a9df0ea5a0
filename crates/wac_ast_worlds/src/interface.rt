//! Interfaces.

ghost use Rattle.wac_ast_grammar.specs.Grammar as symbols;
ghost use Rattle.wac_ast_grammar.specs.Reading.{begins};
ghost use Rattle.wac_ast_base.specs.Lookahead.{Peeks};
ghost use Rattle.wac_ast_worlds.specs.Worlds.{interface_export_of, interface_item_of, interface_decl_of, inline_interface_of};

use std::alloc::Global;
use std::fmt;
use wac_ast_base::{
    DocComment, Error, Ident, Lookahead, Parse, ParseResult, Peek, boxed, parse_before, parse_body,
    parse_docs, take_token, write_variant,
};
use wac_ast_types::{FuncTypeRef, ItemTypeDecl};
use wac_ast_uses::Use;
use wac_lexer::{Lexer, Token};

/// An interface.
#[derive(Drop)]
pub struct InterfaceDecl<'a> {
    /// The documentation before it.
    pub docs: Vec<DocComment<'a>>,
    /// The name.
    pub id: Ident<'a>,
    /// The items, in order.
    pub items: Vec<InterfaceItem<'a>>,
}

impl fmt::Debug for InterfaceDecl<'_> {
    fn fmt<W: fmt::Write>(&self, f: &mut fmt::Formatter<W>) -> fmt::Result {
        let InterfaceDecl { docs, id, items } = self;
        write!(
            f,
            "InterfaceDecl {{ docs: {docs:?}, id: {id:?}, items: {items:?} }}"
        )
    }
}

impl<'a> Parse<'a> for InterfaceDecl<'a> {
    ghost symbol = { symbols.interface_decl };

    ghost tree = { interface_decl_of };

    fn parse(alloc: Global, lexer: &mut Lexer<'a>) -> ParseResult<Self> {
        let docs = parse_docs(alloc, lexer)?;
        take_token(lexer, Token::InterfaceKeyword)?;
        let id = Parse::parse(alloc, lexer)?;
        take_token(lexer, Token::OpenBrace)?;
        let (items, _) = parse_body::<InterfaceItem, Error>(alloc, lexer)?;
        Ok(InterfaceDecl { docs, id, items })
    }
}

impl<'a> Peek for InterfaceDecl<'a> {
    ghost firsts = { begins symbols.interface_decl };

    fn peek(lookahead: &mut Lookahead) -> bool
        ensures { Peeks (begins symbols.interface_decl) result lookahead.old lookahead.new }
    {
        lookahead.peek(Token::InterfaceKeyword)
    }
}

/// An interface without a name, in the place of a type.
#[derive(Drop)]
pub struct InlineInterface<'a> {
    /// The items, in order.
    pub items: Vec<InterfaceItem<'a>>,
}

impl fmt::Debug for InlineInterface<'_> {
    fn fmt<W: fmt::Write>(&self, f: &mut fmt::Formatter<W>) -> fmt::Result {
        let InlineInterface { items } = self;
        write!(f, "InlineInterface {{ items: {items:?} }}")
    }
}

impl<'a> Parse<'a> for InlineInterface<'a> {
    ghost symbol = { symbols.inline_interface };

    ghost tree = { inline_interface_of };

    fn parse(alloc: Global, lexer: &mut Lexer<'a>) -> ParseResult<Self> {
        take_token(lexer, Token::InterfaceKeyword)?;
        take_token(lexer, Token::OpenBrace)?;
        let (items, _) = parse_body::<InterfaceItem, Error>(alloc, lexer)?;
        Ok(InlineInterface { items })
    }
}

impl<'a> Peek for InlineInterface<'a> {
    ghost firsts = { begins symbols.inline_interface };

    fn peek(lookahead: &mut Lookahead) -> bool
        ensures { Peeks (begins symbols.inline_interface) result lookahead.old lookahead.new }
    {
        lookahead.peek(Token::InterfaceKeyword)
    }
}

/// An item of an interface.
#[derive(Drop)]
pub enum InterfaceItem<'a> {
    /// A use of types of an interface.
    Use(Box<Use<'a>>),
    /// A function.
    Export(InterfaceExport<'a>),
    /// A type.
    Ty(ItemTypeDecl<'a>),
}

impl fmt::Debug for InterfaceItem<'_> {
    fn fmt<W: fmt::Write>(&self, f: &mut fmt::Formatter<W>) -> fmt::Result {
        match self {
            InterfaceItem::Use(part) => write_variant(f, "Use", part),
            InterfaceItem::Export(part) => write_variant(f, "Export", part),
            InterfaceItem::Ty(part) => write_variant(f, "Ty", part),
        }
    }
}

impl<'a> Parse<'a> for InterfaceItem<'a> {
    ghost symbol = { symbols.interface_item };

    ghost tree = { interface_item_of };

    fn parse(alloc: Global, lexer: &mut Lexer<'a>) -> ParseResult<Self> {
        let mut lookahead = Lookahead::new(lexer);
        if Use::peek(&mut lookahead) {
            let item = Parse::parse(alloc, lexer)?;
            Ok(InterfaceItem::Use(boxed(alloc, item)?))
        } else if InterfaceExport::peek(&mut lookahead) {
            Ok(InterfaceItem::Export(Parse::parse(alloc, lexer)?))
        } else if ItemTypeDecl::peek(&mut lookahead) {
            Ok(InterfaceItem::Ty(Parse::parse(alloc, lexer)?))
        } else {
            Err(lookahead.error())
        }
    }
}

impl<'a> Peek for InterfaceItem<'a> {
    ghost firsts = { begins symbols.interface_item };

    fn peek(lookahead: &mut Lookahead) -> bool
        ensures { Peeks (begins symbols.interface_item) result lookahead.old lookahead.new }
    {
        Use::peek(lookahead) || InterfaceExport::peek(lookahead) || ItemTypeDecl::peek(lookahead)
    }
}

/// A function that an interface exports.
#[derive(Drop)]
pub struct InterfaceExport<'a> {
    /// The documentation before it.
    pub docs: Vec<DocComment<'a>>,
    /// The name.
    pub id: Ident<'a>,
    /// The type.
    pub ty: FuncTypeRef<'a>,
}

impl fmt::Debug for InterfaceExport<'_> {
    fn fmt<W: fmt::Write>(&self, f: &mut fmt::Formatter<W>) -> fmt::Result {
        let InterfaceExport { docs, id, ty } = self;
        write!(
            f,
            "InterfaceExport {{ docs: {docs:?}, id: {id:?}, ty: {ty:?} }}"
        )
    }
}

impl<'a> Parse<'a> for InterfaceExport<'a> {
    ghost symbol = { symbols.interface_export };

    ghost tree = { interface_export_of };

    fn parse(alloc: Global, lexer: &mut Lexer<'a>) -> ParseResult<Self> {
        let docs = parse_docs(alloc, lexer)?;
        let id = Parse::parse(alloc, lexer)?;
        take_token(lexer, Token::Colon)?;
        let ty = parse_before::<FuncTypeRef, Error>(alloc, lexer, Token::Semicolon)?;
        Ok(InterfaceExport { docs, id, ty })
    }
}

impl<'a> Peek for InterfaceExport<'a> {
    ghost firsts = { begins symbols.interface_export };

    fn peek(lookahead: &mut Lookahead) -> bool
        ensures { Peeks (begins symbols.interface_export) result lookahead.old lookahead.new }
    {
        Ident::peek(lookahead)
    }
}
