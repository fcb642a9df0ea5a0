//! Uses of types of an interface.

ghost use Rattle.std.specs.Prelude.{◌≡◌, ◌≤◌};
ghost use Rattle.wac_ast_grammar.specs.Grammar as symbols;
ghost use Rattle.wac_ast_grammar.specs.Reading.{begins};
ghost use Rattle.wac_ast_base.specs.Lookahead.{Peeks};
ghost use Rattle.wac_ast_base.specs.Lists.{each};
ghost use Rattle.wac_ast_base.specs.Pieces.{GivesPart, Same};
ghost use Rattle.wac_ast_uses.specs.Tails.{use_tail, tail_items};
ghost use Rattle.wac_ast_uses.specs.Uses.{use_item_of, use_path_of, use_of};

use std::alloc::Global;
use wac_ast_base::{
    DocComment, Error, Ident, Lookahead, PackagePath, Parse, ParseResult, Peek, parse_after,
    parse_docs, parse_list, take_token,
};
use wac_lexer::{Lexer, Token};

/// A use of types of an interface.
#[derive(Debug, Drop)]
pub struct Use<'a> {
    /// The documentation before it.
    pub docs: Vec<DocComment<'a>>,
    /// The interface.
    pub path: UsePath<'a>,
    /// The types.
    pub items: Vec<UseItem<'a>>,
}

impl<'a> Parse<'a> for Use<'a> {
    ghost symbol = { symbols.use_statement };

    ghost tree = { use_of };

    fn parse(alloc: Global, lexer: &mut Lexer<'a>) -> ParseResult<Self> {
        let docs = parse_docs(alloc, lexer)?;
        take_token(lexer, Token::UseKeyword)?;
        let path = Parse::parse(alloc, lexer)?;
        take_token(lexer, Token::Dot)?;
        let items = parse_use_items(alloc, lexer)?;
        Ok(Use { docs, path, items })
    }
}

/// The items of a `use`, from the opening brace to the semicolon.
fn parse_use_items<'a>(alloc: Global, lexer: &mut Lexer<'a>) -> ParseResult<Vec<UseItem<'a>>>
    ensures gives { GivesPart use_tail tail_items Same (each use_item_of) result lexer.old lexer.new }
    ensures source { lexer.new.source ≡ lexer.old.source }
    ensures moves { lexer.old.place ≤ lexer.new.place }
{
    take_token(lexer, Token::OpenBrace)?;
    let (items, _) = parse_list::<UseItem, Error>(alloc, lexer, Token::CloseBrace)?;
    take_token(lexer, Token::Semicolon)?;
    Ok(items)
}

impl<'a> Peek for Use<'a> {
    ghost firsts = { begins symbols.use_statement };

    fn peek(lookahead: &mut Lookahead) -> bool
        ensures { Peeks (begins symbols.use_statement) result lookahead.old lookahead.new }
    {
        lookahead.peek(Token::UseKeyword)
    }
}

/// Where a used interface is found.
#[derive(Debug, Drop)]
pub enum UsePath<'a> {
    /// A path to an item of a package.
    Package(PackagePath<'a>),
    /// A name.
    Ident(Ident<'a>),
}

impl<'a> Parse<'a> for UsePath<'a> {
    ghost symbol = { symbols.use_path };

    ghost tree = { use_path_of };

    fn parse(alloc: Global, lexer: &mut Lexer<'a>) -> ParseResult<Self> {
        let mut lookahead = Lookahead::new(lexer);
        if PackagePath::peek(&mut lookahead) {
            Ok(UsePath::Package(Parse::parse(alloc, lexer)?))
        } else if Ident::peek(&mut lookahead) {
            Ok(UsePath::Ident(Parse::parse(alloc, lexer)?))
        } else {
            Err(lookahead.error())
        }
    }
}

/// A type that is used from an interface.
#[derive(Clone, Copy, Debug)]
pub struct UseItem<'a> {
    /// The name in the interface.
    pub id: Ident<'a>,
    /// The name that it is given.
    pub as_id: Option<Ident<'a>>,
}

impl<'a> Parse<'a> for UseItem<'a> {
    ghost symbol = { symbols.use_item };

    ghost tree = { use_item_of };

    fn parse(alloc: Global, lexer: &mut Lexer<'a>) -> ParseResult<Self> {
        let id = Parse::parse(alloc, lexer)?;
        let as_id = parse_after::<Ident, Error>(alloc, lexer, Token::AsKeyword)?;
        Ok(UseItem { id, as_id })
    }
}

impl<'a> Peek for UseItem<'a> {
    ghost firsts = { begins symbols.use_item };

    fn peek(lookahead: &mut Lookahead) -> bool
        ensures { Peeks (begins symbols.use_item) result lookahead.old lookahead.new }
    {
        Ident::peek(lookahead)
    }
}
