//! Function types.

ghost use Rattle.std.specs.Prelude.{◌≡◌, ◌≤◌, true, OnOk, IfErr};
ghost use Rattle.wac_lexer.specs.Reading.{left};
ghost use Rattle.wac_lexer.specs.declared.token.Token.TheVariants as tokens;
ghost use Rattle.wac_ast_grammar.specs.Grammar as symbols;
ghost use Rattle.wac_ast_grammar.specs.Grammar.{results_of};
ghost use Rattle.wac_ast_grammar.specs.Reading.{begins};
ghost use Rattle.wac_ast_grammar.specs.Tokens.{at};
ghost use Rattle.wac_ast_base.specs.Answer.{FailsToTake};
ghost use Rattle.wac_ast_base.specs.Lookahead.{Peeks};
ghost use Rattle.wac_ast_base.specs.Lists.{each};
ghost use Rattle.wac_ast_base.specs.Pieces.{GivesPart, Same};
ghost use Rattle.wac_ast_types.specs.Declarations.{named_type_of, result_list_of, func_type_of, func_type_ref_of, results_rule, named_rule, named_results};

use crate::types::Type;
use std::alloc::Global;
use std::fmt;
use wac_ast_base::{
    Error, Ident, Lookahead, Parse, ParseResult, Peek, at, begins, parse_list, take_optional,
    take_token, write_variant,
};
use wac_lexer::{Lexer, Token};

/// A function type.
#[derive(Drop)]
pub struct FuncType<'a> {
    /// Whether `async` precedes it.
    pub is_async: bool,
    /// The parameters, in order.
    pub params: Vec<NamedType<'a>>,
    /// What the function returns.
    pub results: ResultList<'a>,
}

impl fmt::Debug for FuncType<'_> {
    fn fmt<W: fmt::Write>(&self, f: &mut fmt::Formatter<W>) -> fmt::Result {
        let FuncType {
            is_async,
            params,
            results,
        } = self;
        write!(
            f,
            "FuncType {{ is_async: {is_async:?}, params: {params:?}, results: {results:?} }}"
        )
    }
}

impl<'a> Parse<'a> for FuncType<'a> {
    ghost symbol = { symbols.func_type };

    ghost tree = { func_type_of };

    fn parse(alloc: Global, lexer: &mut Lexer<'a>) -> ParseResult<Self> {
        let is_async = take_optional(lexer, Token::AsyncKeyword)?;
        take_token(lexer, Token::FuncKeyword)?;
        take_token(lexer, Token::OpenParen)?;
        let (params, _) = parse_list::<NamedType, Error>(alloc, lexer, Token::CloseParen)?;
        let results = parse_results(alloc, lexer)?;
        Ok(FuncType {
            is_async,
            params,
            results,
        })
    }
}

impl<'a> Peek for FuncType<'a> {
    ghost firsts = { begins symbols.func_type };

    fn peek(lookahead: &mut Lookahead) -> bool
        ensures { Peeks (begins symbols.func_type) result lookahead.old lookahead.new }
    {
        lookahead.peek(Token::AsyncKeyword) || lookahead.peek(Token::FuncKeyword)
    }
}

/// What a function returns, after an arrow.
fn parse_results<'a>(alloc: Global, lexer: &mut Lexer<'a>) -> ParseResult<ResultList<'a>>
    ensures gives { GivesPart results_rule results_of Same result_list_of result lexer.old lexer.new }
    ensures source { lexer.new.source ≡ lexer.old.source }
    ensures moves { lexer.old.place ≤ lexer.new.place }
{
    if take_optional(lexer, Token::Arrow)? {
        return Parse::parse(alloc, lexer);
    }
    Ok(ResultList::Empty)
}

/// What a function returns.
#[derive(Drop)]
pub enum ResultList<'a> {
    /// Nothing.
    Empty,
    /// A value of a type.
    Scalar(Type<'a>),
    /// Values with names, in order. Where it was parsed there is at least one.
    Named(Vec<NamedType<'a>>),
}

impl fmt::Debug for ResultList<'_> {
    fn fmt<W: fmt::Write>(&self, f: &mut fmt::Formatter<W>) -> fmt::Result {
        match self {
            ResultList::Empty => f.write_str("Empty"),
            ResultList::Scalar(part) => write_variant(f, "Scalar", part),
            ResultList::Named(part) => write_variant(f, "Named", part),
        }
    }
}

impl<'a> Parse<'a> for ResultList<'a> {
    ghost symbol = { symbols.result_list };

    ghost tree = { result_list_of };

    fn parse(alloc: Global, lexer: &mut Lexer<'a>) -> ParseResult<Self> {
        if at(lexer, Token::OpenParen) {
            return Ok(ResultList::Named(parse_named(alloc, lexer)?));
        }
        if begins::<Type>(lexer) {
            return Ok(ResultList::Scalar(Parse::parse(alloc, lexer)?));
        }
        Ok(ResultList::Empty)
    }
}

/// Results with names, in parentheses: at least one.
fn parse_named<'a>(alloc: Global, lexer: &mut Lexer<'a>) -> ParseResult<Vec<NamedType<'a>>>
    ensures gives { GivesPart named_rule named_results Same (each named_type_of) result lexer.old lexer.new }
    ensures source { lexer.new.source ≡ lexer.old.source }
    ensures moves { lexer.old.place ≤ lexer.new.place }
{
    take_token(lexer, Token::OpenParen)?;
    test_name(lexer)?;
    let (named, _) = parse_list::<NamedType, Error>(alloc, lexer, Token::CloseParen)?;
    Ok(named)
}

/// Rejects anything but an identifier in the next item's place, as where one is expected in a sequence.
fn test_name(lexer: &mut Lexer) -> ParseResult<()>
    ensures ok { OnOk result ((lexer.new ≡ lexer.old) × (at tokens.Ident (left lexer.old) ≡ true)) }
    ensures refused { IfErr result (FailsToTake tokens.Ident lexer.old) }
    ensures source { lexer.new.source ≡ lexer.old.source }
    ensures moves { lexer.old.place ≤ lexer.new.place }
{
    if at(lexer, Token::Ident) {
        return Ok(());
    }
    take_token(lexer, Token::Ident)?;
    Ok(())
}

/// A name and its type.
#[derive(Drop)]
pub struct NamedType<'a> {
    /// The name.
    pub id: Ident<'a>,
    /// The type.
    pub ty: Type<'a>,
}

impl fmt::Debug for NamedType<'_> {
    fn fmt<W: fmt::Write>(&self, f: &mut fmt::Formatter<W>) -> fmt::Result {
        let NamedType { id, ty } = self;
        write!(f, "NamedType {{ id: {id:?}, ty: {ty:?} }}")
    }
}

impl<'a> Parse<'a> for NamedType<'a> {
    ghost symbol = { symbols.named_type };

    ghost tree = { named_type_of };

    fn parse(alloc: Global, lexer: &mut Lexer<'a>) -> ParseResult<Self> {
        let id = Parse::parse(alloc, lexer)?;
        take_token(lexer, Token::Colon)?;
        let ty = Parse::parse(alloc, lexer)?;
        Ok(NamedType { id, ty })
    }
}

impl<'a> Peek for NamedType<'a> {
    ghost firsts = { begins symbols.named_type };

    fn peek(lookahead: &mut Lookahead) -> bool
        ensures { Peeks (begins symbols.named_type) result lookahead.old lookahead.new }
    {
        Ident::peek(lookahead)
    }
}

/// A function type, or the name of one.
#[derive(Drop)]
pub enum FuncTypeRef<'a> {
    /// A function type.
    Func(FuncType<'a>),
    /// The name of a declared one.
    Ident(Ident<'a>),
}

impl fmt::Debug for FuncTypeRef<'_> {
    fn fmt<W: fmt::Write>(&self, f: &mut fmt::Formatter<W>) -> fmt::Result {
        match self {
            FuncTypeRef::Func(part) => write_variant(f, "Func", part),
            FuncTypeRef::Ident(part) => write_variant(f, "Ident", part),
        }
    }
}

impl<'a> Parse<'a> for FuncTypeRef<'a> {
    ghost symbol = { symbols.func_type_ref };

    ghost tree = { func_type_ref_of };

    fn parse(alloc: Global, lexer: &mut Lexer<'a>) -> ParseResult<Self> {
        let mut lookahead = Lookahead::new(lexer);
        if FuncType::peek(&mut lookahead) {
            Ok(FuncTypeRef::Func(Parse::parse(alloc, lexer)?))
        } else if Ident::peek(&mut lookahead) {
            Ok(FuncTypeRef::Ident(Parse::parse(alloc, lexer)?))
        } else {
            Err(lookahead.error())
        }
    }
}
