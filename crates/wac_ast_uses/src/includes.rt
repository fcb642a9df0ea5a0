//! Inclusions of worlds.

ghost use Rattle.std.specs.Prelude.{◌≡◌, ◌≤◌};
ghost use Rattle.wac_ast_grammar.specs.Grammar as symbols;
ghost use Rattle.wac_ast_grammar.specs.Reading.{begins};
ghost use Rattle.wac_ast_grammar.specs.Spans.{world_ref_name, world_ref_span};
ghost use Rattle.wac_ast_base.specs.Lookahead.{Peeks};
ghost use Rattle.wac_ast_base.specs.Lists.{each};
ghost use Rattle.wac_ast_base.specs.Pieces.{GivesPart, Same};
ghost use Rattle.wac_ast_uses.specs.Tails.{with_part, with_items};
ghost use Rattle.wac_ast_uses.specs.Uses.{world_ref_of, world_include_item_of, world_include_of};

use std::alloc::Global;
use std::fmt;
use wac_ast_base::{
    DocComment, Error, Ident, Lookahead, PackagePath, Parse, ParseResult, Peek, parse_docs,
    parse_list, take_optional, take_token,
};
use wac_lexer::{Lexer, SourceSpan, Token};

/// Where an included world is found.
#[derive(Debug, Drop)]
pub enum WorldRef<'a> {
    /// A path to an item of a package.
    Package(PackagePath<'a>),
    /// A name.
    Ident(Ident<'a>),
}

impl<'a> WorldRef<'a> {
    /// The name, or the whole path with its version.
    pub fn name(&self) -> &'a str
        ensures { result.now ≡ world_ref_name (world_ref_of self.now) }
    {
        match self {
            WorldRef::Package(path) => path.string,
            WorldRef::Ident(ident) => ident.string,
        }
    }

    /// The span of the reference.
    pub fn span(&self) -> SourceSpan
        ensures { result ≡ world_ref_span (world_ref_of self.now) }
    {
        match self {
            WorldRef::Package(path) => path.span,
            WorldRef::Ident(ident) => ident.span,
        }
    }
}

impl<'a> Parse<'a> for WorldRef<'a> {
    ghost symbol = { symbols.world_ref };

    ghost tree = { world_ref_of };

    fn parse(alloc: Global, lexer: &mut Lexer<'a>) -> ParseResult<Self> {
        let mut lookahead = Lookahead::new(lexer);
        if PackagePath::peek(&mut lookahead) {
            Ok(WorldRef::Package(Parse::parse(alloc, lexer)?))
        } else if Ident::peek(&mut lookahead) {
            Ok(WorldRef::Ident(Parse::parse(alloc, lexer)?))
        } else {
            Err(lookahead.error())
        }
    }
}

/// A new name for an item of an included world.
#[derive(Clone, Copy, Debug)]
pub struct WorldIncludeItem<'a> {
    /// The name in the included world.
    pub from: Ident<'a>,
    /// The name that it is given.
    pub to: Ident<'a>,
}

impl<'a> Parse<'a> for WorldIncludeItem<'a> {
    ghost symbol = { symbols.include_item };

    ghost tree = { world_include_item_of };

    fn parse(alloc: Global, lexer: &mut Lexer<'a>) -> ParseResult<Self> {
        let from = Parse::parse(alloc, lexer)?;
        take_token(lexer, Token::AsKeyword)?;
        let to = Parse::parse(alloc, lexer)?;
        Ok(WorldIncludeItem { from, to })
    }
}

impl<'a> Peek for WorldIncludeItem<'a> {
    ghost firsts = { begins symbols.include_item };

    fn peek(lookahead: &mut Lookahead) -> bool
        ensures { Peeks (begins symbols.include_item) result lookahead.old lookahead.new }
    {
        Ident::peek(lookahead)
    }
}

/// An inclusion of a world in another.
#[derive(Drop)]
pub struct WorldInclude<'a> {
    /// The documentation before it.
    pub docs: Vec<DocComment<'a>>,
    /// The world that is included.
    pub world: WorldRef<'a>,
    /// The new names for its items.
    pub with: Vec<WorldIncludeItem<'a>>,
}

impl fmt::Debug for WorldInclude<'_> {
    fn fmt<W: fmt::Write>(&self, f: &mut fmt::Formatter<W>) -> fmt::Result {
        let WorldInclude { docs, world, with } = self;
        write!(
            f,
            "WorldInclude {{ docs: {docs:?}, world: {world:?}, with: {with:?} }}"
        )
    }
}

impl<'a> Parse<'a> for WorldInclude<'a> {
    ghost symbol = { symbols.world_include };

    ghost tree = { world_include_of };

    fn parse(alloc: Global, lexer: &mut Lexer<'a>) -> ParseResult<Self> {
        let docs = parse_docs(alloc, lexer)?;
        take_token(lexer, Token::IncludeKeyword)?;
        let world = Parse::parse(alloc, lexer)?;
        let with = parse_with(alloc, lexer)?;
        take_token(lexer, Token::Semicolon)?;
        Ok(WorldInclude { docs, world, with })
    }
}

/// The new names after `with`, where it is next.
fn parse_with<'a>(alloc: Global, lexer: &mut Lexer<'a>) -> ParseResult<Vec<WorldIncludeItem<'a>>>
    ensures gives { GivesPart with_part with_items Same (each world_include_item_of) result lexer.old lexer.new }
    ensures source { lexer.new.source ≡ lexer.old.source }
    ensures moves { lexer.old.place ≤ lexer.new.place }
{
    if !take_optional(lexer, Token::WithKeyword)? {
        return Ok(Vec::new(alloc));
    }
    take_token(lexer, Token::OpenBrace)?;
    let (with, _) = parse_list::<WorldIncludeItem, Error>(alloc, lexer, Token::CloseBrace)?;
    Ok(with)
}

impl<'a> Peek for WorldInclude<'a> {
    ghost firsts = { begins symbols.world_include };

    fn peek(lookahead: &mut Lookahead) -> bool
        ensures { Peeks (begins symbols.world_include) result lookahead.old lookahead.new }
    {
        lookahead.peek(Token::IncludeKeyword)
    }
}
