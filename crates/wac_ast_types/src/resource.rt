//! Resources.

ghost use Rattle.std.specs.Prelude.{◌≡◌, ◌≤◌};
ghost use Rattle.wac_ast_grammar.specs.Grammar as symbols;
ghost use Rattle.wac_ast_grammar.specs.Reading.{begins};
ghost use Rattle.wac_ast_base.specs.Lookahead.{Peeks};
ghost use Rattle.wac_ast_base.specs.Lists.{each};
ghost use Rattle.wac_ast_base.specs.Pieces.{GivesPart, Same};
ghost use Rattle.wac_ast_types.specs.Declarations.{constructor_of, method_of, resource_method_of, resource_decl_of};
ghost use Rattle.wac_ast_types.specs.Tails.{resource_tail, tail_methods};

use crate::func_type::{FuncType, NamedType};
use crate::head::parse_head;
use std::alloc::Global;
use std::fmt;
use wac_ast_base::{
    DocComment, Error, Ident, Lookahead, Parse, ParseResult, Peek, parse_before, parse_body,
    parse_docs, parse_list, take_token, take_word, write_variant,
};
use wac_lexer::{Lexer, SourceSpan, Token};

/// A resource type.
#[derive(Drop)]
pub struct ResourceDecl<'a> {
    /// The documentation before it.
    pub docs: Vec<DocComment<'a>>,
    /// The name.
    pub id: Ident<'a>,
    /// The constructors and methods, in order.
    pub methods: Vec<ResourceMethod<'a>>,
}

impl fmt::Debug for ResourceDecl<'_> {
    fn fmt<W: fmt::Write>(&self, f: &mut fmt::Formatter<W>) -> fmt::Result {
        let ResourceDecl { docs, id, methods } = self;
        write!(
            f,
            "ResourceDecl {{ docs: {docs:?}, id: {id:?}, methods: {methods:?} }}"
        )
    }
}

impl<'a> Parse<'a> for ResourceDecl<'a> {
    ghost symbol = { symbols.resource_decl };

    ghost tree = { resource_decl_of };

    fn parse(alloc: Global, lexer: &mut Lexer<'a>) -> ParseResult<Self> {
        let (docs, id) = parse_head(alloc, lexer, Token::ResourceKeyword)?;
        let methods = parse_methods(alloc, lexer)?;
        Ok(ResourceDecl { docs, id, methods })
    }
}

/// The methods of a resource in braces, or a semicolon, where it has none.
fn parse_methods<'a>(alloc: Global, lexer: &mut Lexer<'a>) -> ParseResult<Vec<ResourceMethod<'a>>>
    ensures gives { GivesPart resource_tail tail_methods Same (each resource_method_of) result lexer.old lexer.new }
    ensures source { lexer.new.source ≡ lexer.old.source }
    ensures moves { lexer.old.place ≤ lexer.new.place }
{
    let mut lookahead = Lookahead::new(lexer);
    if lookahead.peek(Token::Semicolon) {
        take_token(lexer, Token::Semicolon)?;
        return Ok(Vec::new(alloc));
    }
    if !lookahead.peek(Token::OpenBrace) {
        return Err(lookahead.error());
    }
    take_token(lexer, Token::OpenBrace)?;
    let (methods, _) = parse_body::<ResourceMethod, Error>(alloc, lexer)?;
    Ok(methods)
}

impl<'a> Peek for ResourceDecl<'a> {
    ghost firsts = { begins symbols.resource_decl };

    fn peek(lookahead: &mut Lookahead) -> bool
        ensures { Peeks (begins symbols.resource_decl) result lookahead.old lookahead.new }
    {
        lookahead.peek(Token::ResourceKeyword)
    }
}

/// What the body of a resource has.
#[derive(Drop)]
pub enum ResourceMethod<'a> {
    /// A constructor.
    Constructor(Constructor<'a>),
    /// A method.
    Method(Method<'a>),
}

impl fmt::Debug for ResourceMethod<'_> {
    fn fmt<W: fmt::Write>(&self, f: &mut fmt::Formatter<W>) -> fmt::Result {
        match self {
            ResourceMethod::Constructor(part) => write_variant(f, "Constructor", part),
            ResourceMethod::Method(part) => write_variant(f, "Method", part),
        }
    }
}

impl<'a> Parse<'a> for ResourceMethod<'a> {
    ghost symbol = { symbols.resource_method };

    ghost tree = { resource_method_of };

    fn parse(alloc: Global, lexer: &mut Lexer<'a>) -> ParseResult<Self> {
        let mut lookahead = Lookahead::new(lexer);
        if Constructor::peek(&mut lookahead) {
            Ok(ResourceMethod::Constructor(Parse::parse(alloc, lexer)?))
        } else if Method::peek(&mut lookahead) {
            Ok(ResourceMethod::Method(Parse::parse(alloc, lexer)?))
        } else {
            Err(lookahead.error())
        }
    }
}

impl<'a> Peek for ResourceMethod<'a> {
    ghost firsts = { begins symbols.resource_method };

    fn peek(lookahead: &mut Lookahead) -> bool
        ensures { Peeks (begins symbols.resource_method) result lookahead.old lookahead.new }
    {
        Constructor::peek(lookahead) || Method::peek(lookahead)
    }
}

/// A constructor of a resource.
#[derive(Drop)]
pub struct Constructor<'a> {
    /// The documentation before it.
    pub docs: Vec<DocComment<'a>>,
    /// The span of the keyword.
    pub span: SourceSpan,
    /// The parameters.
    pub params: Vec<NamedType<'a>>,
}

impl fmt::Debug for Constructor<'_> {
    fn fmt<W: fmt::Write>(&self, f: &mut fmt::Formatter<W>) -> fmt::Result {
        let Constructor { docs, span, params } = self;
        write!(
            f,
            "Constructor {{ docs: {docs:?}, span: {span:?}, params: {params:?} }}"
        )
    }
}

impl<'a> Parse<'a> for Constructor<'a> {
    ghost symbol = { symbols.constructor };

    ghost tree = { constructor_of };

    fn parse(alloc: Global, lexer: &mut Lexer<'a>) -> ParseResult<Self> {
        let docs = parse_docs(alloc, lexer)?;
        let span = take_token(lexer, Token::ConstructorKeyword)?;
        take_token(lexer, Token::OpenParen)?;
        let (params, _) = parse_list::<NamedType, Error>(alloc, lexer, Token::CloseParen)?;
        take_token(lexer, Token::Semicolon)?;
        Ok(Constructor { docs, span, params })
    }
}

impl<'a> Peek for Constructor<'a> {
    ghost firsts = { begins symbols.constructor };

    fn peek(lookahead: &mut Lookahead) -> bool
        ensures { Peeks (begins symbols.constructor) result lookahead.old lookahead.new }
    {
        lookahead.peek(Token::ConstructorKeyword)
    }
}

/// A method of a resource.
#[derive(Drop)]
pub struct Method<'a> {
    /// The documentation before it.
    pub docs: Vec<DocComment<'a>>,
    /// The name.
    pub id: Ident<'a>,
    /// Whether it is called without a resource.
    pub is_static: bool,
    /// The type.
    pub ty: FuncType<'a>,
}

impl fmt::Debug for Method<'_> {
    fn fmt<W: fmt::Write>(&self, f: &mut fmt::Formatter<W>) -> fmt::Result {
        let Method {
            docs,
            id,
            is_static,
            ty,
        } = self;
        write!(
            f,
            "Method {{ docs: {docs:?}, id: {id:?}, is_static: {is_static:?}, ty: {ty:?} }}"
        )
    }
}

impl<'a> Parse<'a> for Method<'a> {
    ghost symbol = { symbols.method };

    ghost tree = { method_of };

    fn parse(alloc: Global, lexer: &mut Lexer<'a>) -> ParseResult<Self> {
        let docs = parse_docs(alloc, lexer)?;
        let id = Parse::parse(alloc, lexer)?;
        take_token(lexer, Token::Colon)?;
        let is_static = take_word(lexer, Token::StaticKeyword)?;
        let ty = parse_before::<FuncType, Error>(alloc, lexer, Token::Semicolon)?;
        Ok(Method {
            docs,
            id,
            is_static,
            ty,
        })
    }
}

impl<'a> Peek for Method<'a> {
    ghost firsts = { begins symbols.method };

    fn peek(lookahead: &mut Lookahead) -> bool
        ensures { Peeks (begins symbols.method) result lookahead.old lookahead.new }
    {
        Ident::peek(lookahead)
    }
}
