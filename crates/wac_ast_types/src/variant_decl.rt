//! Variants.

ghost use Rattle.std.specs.Prelude.{◌≡◌, ◌≤◌};
ghost use Rattle.std.specs.Option.{option_map};
ghost use Rattle.wac_ast_grammar.specs.Grammar as symbols;
ghost use Rattle.wac_ast_grammar.specs.Reading.{begins};
ghost use Rattle.wac_ast_base.specs.Lookahead.{Peeks};
ghost use Rattle.wac_ast_base.specs.Pieces.{GivesPart, Same};
ghost use Rattle.wac_ast_types.specs.Types.{ty_of};
ghost use Rattle.wac_ast_types.specs.Declarations.{variant_case_of, variant_decl_of};
ghost use Rattle.wac_ast_types.specs.Tails.{case_tail, held_type};

use crate::head::parse_head;
use crate::types::Type;
use std::alloc::Global;
use std::fmt;
use wac_ast_base::{
    BodyKind, DocComment, Error, Ident, Lookahead, Parse, ParseResult, Peek, parse_before,
    parse_docs, parse_filled, take_optional,
};
use wac_lexer::{Lexer, Token};

/// A type of values of several cases.
#[derive(Drop)]
pub struct VariantDecl<'a> {
    /// The documentation before it.
    pub docs: Vec<DocComment<'a>>,
    /// The name.
    pub id: Ident<'a>,
    /// The cases, at least one.
    pub cases: Vec<VariantCase<'a>>,
}

impl fmt::Debug for VariantDecl<'_> {
    fn fmt<W: fmt::Write>(&self, f: &mut fmt::Formatter<W>) -> fmt::Result {
        let VariantDecl { docs, id, cases } = self;
        write!(
            f,
            "VariantDecl {{ docs: {docs:?}, id: {id:?}, cases: {cases:?} }}"
        )
    }
}

impl<'a> Parse<'a> for VariantDecl<'a> {
    ghost symbol = { symbols.variant_decl };

    ghost tree = { variant_decl_of };

    fn parse(alloc: Global, lexer: &mut Lexer<'a>) -> ParseResult<Self> {
        let (docs, id) = parse_head(alloc, lexer, Token::VariantKeyword)?;
        let cases = parse_filled::<VariantCase, Error>(alloc, lexer, BodyKind::Variant)?;
        Ok(VariantDecl { docs, id, cases })
    }
}

impl<'a> Peek for VariantDecl<'a> {
    ghost firsts = { begins symbols.variant_decl };

    fn peek(lookahead: &mut Lookahead) -> bool
        ensures { Peeks (begins symbols.variant_decl) result lookahead.old lookahead.new }
    {
        lookahead.peek(Token::VariantKeyword)
    }
}

/// A case of a variant.
#[derive(Drop)]
pub struct VariantCase<'a> {
    /// The documentation before it.
    pub docs: Vec<DocComment<'a>>,
    /// The name.
    pub id: Ident<'a>,
    /// What it holds.
    pub ty: Option<Type<'a>>,
}

impl fmt::Debug for VariantCase<'_> {
    fn fmt<W: fmt::Write>(&self, f: &mut fmt::Formatter<W>) -> fmt::Result {
        let VariantCase { docs, id, ty } = self;
        write!(
            f,
            "VariantCase {{ docs: {docs:?}, id: {id:?}, ty: {ty:?} }}"
        )
    }
}

impl<'a> Parse<'a> for VariantCase<'a> {
    ghost symbol = { symbols.variant_case };

    ghost tree = { variant_case_of };

    fn parse(alloc: Global, lexer: &mut Lexer<'a>) -> ParseResult<Self> {
        let docs = parse_docs(alloc, lexer)?;
        let id = Parse::parse(alloc, lexer)?;
        let ty = parse_held(alloc, lexer)?;
        Ok(VariantCase { docs, id, ty })
    }
}

/// What a case holds, in parentheses.
fn parse_held<'a>(alloc: Global, lexer: &mut Lexer<'a>) -> ParseResult<Option<Type<'a>>>
    ensures gives { GivesPart case_tail held_type Same (option_map ty_of) result lexer.old lexer.new }
    ensures source { lexer.new.source ≡ lexer.old.source }
    ensures moves { lexer.old.place ≤ lexer.new.place }
{
    if take_optional(lexer, Token::OpenParen)? {
        let ty = parse_before::<Type, Error>(alloc, lexer, Token::CloseParen)?;
        return Ok(Some(ty));
    }
    Ok(None)
}

impl<'a> Peek for VariantCase<'a> {
    ghost firsts = { begins symbols.variant_case };

    fn peek(lookahead: &mut Lookahead) -> bool
        ensures { Peeks (begins symbols.variant_case) result lookahead.old lookahead.new }
    {
        Ident::peek(lookahead)
    }
}
