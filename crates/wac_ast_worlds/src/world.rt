//! Worlds.

ghost use Rattle.wac_ast_grammar.specs.Grammar as symbols;
ghost use Rattle.wac_ast_grammar.specs.Reading.{begins};
ghost use Rattle.wac_ast_base.specs.Lookahead.{Peeks};
ghost use Rattle.wac_ast_worlds.specs.Worlds.{extern_type_of, named_world_item_of, world_item_path_of, world_import_of, world_export_of, world_item_of, world_decl_of};

use crate::interface::InlineInterface;
use std::alloc::Global;
use std::fmt;
use wac_ast_base::{
    DocComment, Error, Ident, Lookahead, PackagePath, Parse, ParseResult, Peek, at_second,
    parse_before, parse_body, parse_docs, take_token, write_variant,
};
use wac_ast_types::{FuncType, ItemTypeDecl};
use wac_ast_uses::{Use, WorldInclude};
use wac_lexer::{Lexer, Token};

/// A world.
#[derive(Drop)]
pub struct WorldDecl<'a> {
    /// The documentation before it.
    pub docs: Vec<DocComment<'a>>,
    /// The name.
    pub id: Ident<'a>,
    /// The items, in order.
    pub items: Vec<WorldItem<'a>>,
}

impl fmt::Debug for WorldDecl<'_> {
    fn fmt<W: fmt::Write>(&self, f: &mut fmt::Formatter<W>) -> fmt::Result {
        let WorldDecl { docs, id, items } = self;
        write!(
            f,
            "WorldDecl {{ docs: {docs:?}, id: {id:?}, items: {items:?} }}"
        )
    }
}

impl<'a> Parse<'a> for WorldDecl<'a> {
    ghost symbol = { symbols.world_decl };

    ghost tree = { world_decl_of };

    fn parse(alloc: Global, lexer: &mut Lexer<'a>) -> ParseResult<Self> {
        let docs = parse_docs(alloc, lexer)?;
        take_token(lexer, Token::WorldKeyword)?;
        let id = Parse::parse(alloc, lexer)?;
        take_token(lexer, Token::OpenBrace)?;
        let (items, _) = parse_body::<WorldItem, Error>(alloc, lexer)?;
        Ok(WorldDecl { docs, id, items })
    }
}

impl<'a> Peek for WorldDecl<'a> {
    ghost firsts = { begins symbols.world_decl };

    fn peek(lookahead: &mut Lookahead) -> bool
        ensures { Peeks (begins symbols.world_decl) result lookahead.old lookahead.new }
    {
        lookahead.peek(Token::WorldKeyword)
    }
}

/// An item of a world.
#[derive(Drop)]
pub enum WorldItem<'a> {
    /// A use of types of an interface.
    Use(Use<'a>),
    /// An import.
    Import(WorldImport<'a>),
    /// An export.
    Export(WorldExport<'a>),
    /// An inclusion of another world.
    Include(WorldInclude<'a>),
    /// A type.
    Ty(ItemTypeDecl<'a>),
}

impl fmt::Debug for WorldItem<'_> {
    fn fmt<W: fmt::Write>(&self, f: &mut fmt::Formatter<W>) -> fmt::Result {
        match self {
            WorldItem::Use(part) => write_variant(f, "Use", part),
            WorldItem::Import(part) => write_variant(f, "Import", part),
            WorldItem::Export(part) => write_variant(f, "Export", part),
            WorldItem::Include(part) => write_variant(f, "Include", part),
            WorldItem::Ty(part) => write_variant(f, "Ty", part),
        }
    }
}

impl<'a> Parse<'a> for WorldItem<'a> {
    ghost symbol = { symbols.world_item };

    ghost tree = { world_item_of };

    fn parse(alloc: Global, lexer: &mut Lexer<'a>) -> ParseResult<Self> {
        let mut lookahead = Lookahead::new(lexer);
        if Use::peek(&mut lookahead) {
            Ok(WorldItem::Use(Parse::parse(alloc, lexer)?))
        } else if WorldImport::peek(&mut lookahead) {
            Ok(WorldItem::Import(Parse::parse(alloc, lexer)?))
        } else if WorldExport::peek(&mut lookahead) {
            Ok(WorldItem::Export(Parse::parse(alloc, lexer)?))
        } else if WorldInclude::peek(&mut lookahead) {
            Ok(WorldItem::Include(Parse::parse(alloc, lexer)?))
        } else if ItemTypeDecl::peek(&mut lookahead) {
            Ok(WorldItem::Ty(Parse::parse(alloc, lexer)?))
        } else {
            Err(lookahead.error())
        }
    }
}

impl<'a> Peek for WorldItem<'a> {
    ghost firsts = { begins symbols.world_item };

    fn peek(lookahead: &mut Lookahead) -> bool
        ensures { Peeks (begins symbols.world_item) result lookahead.old lookahead.new }
    {
        Use::peek(lookahead)
            || WorldImport::peek(lookahead)
            || WorldExport::peek(lookahead)
            || WorldInclude::peek(lookahead)
            || ItemTypeDecl::peek(lookahead)
    }
}

/// What a world imports.
#[derive(Drop)]
pub struct WorldImport<'a> {
    /// The documentation before it.
    pub docs: Vec<DocComment<'a>>,
    /// The item.
    pub path: WorldItemPath<'a>,
}

impl fmt::Debug for WorldImport<'_> {
    fn fmt<W: fmt::Write>(&self, f: &mut fmt::Formatter<W>) -> fmt::Result {
        let WorldImport { docs, path } = self;
        write!(f, "WorldImport {{ docs: {docs:?}, path: {path:?} }}")
    }
}

impl<'a> Parse<'a> for WorldImport<'a> {
    ghost symbol = { symbols.world_import };

    ghost tree = { world_import_of };

    fn parse(alloc: Global, lexer: &mut Lexer<'a>) -> ParseResult<Self> {
        let docs = parse_docs(alloc, lexer)?;
        take_token(lexer, Token::ImportKeyword)?;
        let path = parse_before::<WorldItemPath, Error>(alloc, lexer, Token::Semicolon)?;
        Ok(WorldImport { docs, path })
    }
}

impl<'a> Peek for WorldImport<'a> {
    ghost firsts = { begins symbols.world_import };

    fn peek(lookahead: &mut Lookahead) -> bool
        ensures { Peeks (begins symbols.world_import) result lookahead.old lookahead.new }
    {
        lookahead.peek(Token::ImportKeyword)
    }
}

/// What a world exports.
#[derive(Drop)]
pub struct WorldExport<'a> {
    /// The documentation before it.
    pub docs: Vec<DocComment<'a>>,
    /// The item.
    pub path: WorldItemPath<'a>,
}

impl fmt::Debug for WorldExport<'_> {
    fn fmt<W: fmt::Write>(&self, f: &mut fmt::Formatter<W>) -> fmt::Result {
        let WorldExport { docs, path } = self;
        write!(f, "WorldExport {{ docs: {docs:?}, path: {path:?} }}")
    }
}

impl<'a> Parse<'a> for WorldExport<'a> {
    ghost symbol = { symbols.world_export };

    ghost tree = { world_export_of };

    fn parse(alloc: Global, lexer: &mut Lexer<'a>) -> ParseResult<Self> {
        let docs = parse_docs(alloc, lexer)?;
        take_token(lexer, Token::ExportKeyword)?;
        let path = parse_before::<WorldItemPath, Error>(alloc, lexer, Token::Semicolon)?;
        Ok(WorldExport { docs, path })
    }
}

impl<'a> Peek for WorldExport<'a> {
    ghost firsts = { begins symbols.world_export };

    fn peek(lookahead: &mut Lookahead) -> bool
        ensures { Peeks (begins symbols.world_export) result lookahead.old lookahead.new }
    {
        lookahead.peek(Token::ExportKeyword)
    }
}

/// An item that a world imports or exports.
#[derive(Drop)]
pub enum WorldItemPath<'a> {
    /// A path to an item of a package.
    Package(PackagePath<'a>),
    /// A name and its type.
    Named(NamedWorldItem<'a>),
    /// A name.
    Ident(Ident<'a>),
}

impl fmt::Debug for WorldItemPath<'_> {
    fn fmt<W: fmt::Write>(&self, f: &mut fmt::Formatter<W>) -> fmt::Result {
        match self {
            WorldItemPath::Package(part) => write_variant(f, "Package", part),
            WorldItemPath::Named(part) => write_variant(f, "Named", part),
            WorldItemPath::Ident(part) => write_variant(f, "Ident", part),
        }
    }
}

impl<'a> Parse<'a> for WorldItemPath<'a> {
    ghost symbol = { symbols.world_item_path };

    ghost tree = { world_item_path_of };

    fn parse(alloc: Global, lexer: &mut Lexer<'a>) -> ParseResult<Self> {
        let mut lookahead = Lookahead::new(lexer);
        if PackagePath::peek(&mut lookahead) {
            Ok(WorldItemPath::Package(Parse::parse(alloc, lexer)?))
        } else if Ident::peek(&mut lookahead) {
            if at_second(lexer, Token::Colon) {
                Ok(WorldItemPath::Named(Parse::parse(alloc, lexer)?))
            } else {
                Ok(WorldItemPath::Ident(Parse::parse(alloc, lexer)?))
            }
        } else {
            Err(lookahead.error())
        }
    }
}

/// A name and its type, which a world imports or exports.
#[derive(Drop)]
pub struct NamedWorldItem<'a> {
    /// The name.
    pub id: Ident<'a>,
    /// The type.
    pub ty: ExternType<'a>,
}

impl fmt::Debug for NamedWorldItem<'_> {
    fn fmt<W: fmt::Write>(&self, f: &mut fmt::Formatter<W>) -> fmt::Result {
        let NamedWorldItem { id, ty } = self;
        write!(f, "NamedWorldItem {{ id: {id:?}, ty: {ty:?} }}")
    }
}

impl<'a> Parse<'a> for NamedWorldItem<'a> {
    ghost symbol = { symbols.named_world_item };

    ghost tree = { named_world_item_of };

    fn parse(alloc: Global, lexer: &mut Lexer<'a>) -> ParseResult<Self> {
        let id = Parse::parse(alloc, lexer)?;
        take_token(lexer, Token::Colon)?;
        let ty = Parse::parse(alloc, lexer)?;
        Ok(NamedWorldItem { id, ty })
    }
}

impl<'a> Peek for NamedWorldItem<'a> {
    ghost firsts = { begins symbols.named_world_item };

    fn peek(lookahead: &mut Lookahead) -> bool
        ensures { Peeks (begins symbols.named_world_item) result lookahead.old lookahead.new }
    {
        Ident::peek(lookahead)
    }
}

/// The type of an item that a world imports or exports.
#[derive(Drop)]
pub enum ExternType<'a> {
    /// A name.
    Ident(Ident<'a>),
    /// A function type.
    Func(FuncType<'a>),
    /// An interface without a name.
    Interface(InlineInterface<'a>),
}

impl fmt::Debug for ExternType<'_> {
    fn fmt<W: fmt::Write>(&self, f: &mut fmt::Formatter<W>) -> fmt::Result {
        match self {
            ExternType::Ident(part) => write_variant(f, "Ident", part),
            ExternType::Func(part) => write_variant(f, "Func", part),
            ExternType::Interface(part) => write_variant(f, "Interface", part),
        }
    }
}

impl<'a> Parse<'a> for ExternType<'a> {
    ghost symbol = { symbols.extern_type };

    ghost tree = { extern_type_of };

    fn parse(alloc: Global, lexer: &mut Lexer<'a>) -> ParseResult<Self> {
        let mut lookahead = Lookahead::new(lexer);
        if Ident::peek(&mut lookahead) {
            Ok(ExternType::Ident(Parse::parse(alloc, lexer)?))
        } else if FuncType::peek(&mut lookahead) {
            Ok(ExternType::Func(Parse::parse(alloc, lexer)?))
        } else if InlineInterface::peek(&mut lookahead) {
            Ok(ExternType::Interface(Parse::parse(alloc, lexer)?))
        } else {
            Err(lookahead.error())
        }
    }
}
