//! Declarations of types.

ghost use Rattle.std.specs.Prelude.{◌≡◌};
ghost use Rattle.wac_ast_grammar.specs.Grammar as symbols;
ghost use Rattle.wac_ast_grammar.specs.Reading.{begins};
ghost use Rattle.wac_ast_base.specs.Lookahead.{Peeks};
ghost use Rattle.wac_ast_base.specs.Names.{ident_of};
ghost use Rattle.wac_ast_types.specs.Declarations.{type_decl_of, type_decl_id, item_type_decl_of, item_type_decl_id};

use crate::enum_decl::EnumDecl;
use crate::flags_decl::FlagsDecl;
use crate::record_decl::RecordDecl;
use crate::resource::ResourceDecl;
use crate::type_alias::TypeAlias;
use crate::variant_decl::VariantDecl;
use std::alloc::Global;
use std::fmt;
use wac_ast_base::{Ident, Lookahead, Parse, ParseResult, Peek, write_variant};
use wac_lexer::Lexer;

/// A type that a document declares.
#[derive(Drop)]
pub enum TypeDecl<'a> {
    /// A type of cases.
    Variant(VariantDecl<'a>),
    /// A type of fields.
    Record(RecordDecl<'a>),
    /// A type of flags.
    Flags(FlagsDecl<'a>),
    /// A type of names.
    Enum(EnumDecl<'a>),
    /// Another name for a type.
    Alias(TypeAlias<'a>),
}

impl fmt::Debug for TypeDecl<'_> {
    fn fmt<W: fmt::Write>(&self, f: &mut fmt::Formatter<W>) -> fmt::Result {
        match self {
            TypeDecl::Variant(part) => write_variant(f, "Variant", part),
            TypeDecl::Record(part) => write_variant(f, "Record", part),
            TypeDecl::Flags(part) => write_variant(f, "Flags", part),
            TypeDecl::Enum(part) => write_variant(f, "Enum", part),
            TypeDecl::Alias(part) => write_variant(f, "Alias", part),
        }
    }
}

impl<'a> Parse<'a> for TypeDecl<'a> {
    ghost symbol = { symbols.type_decl };

    ghost tree = { type_decl_of };

    fn parse(alloc: Global, lexer: &mut Lexer<'a>) -> ParseResult<Self> {
        let mut lookahead = Lookahead::new(lexer);
        if VariantDecl::peek(&mut lookahead) {
            Ok(TypeDecl::Variant(Parse::parse(alloc, lexer)?))
        } else if RecordDecl::peek(&mut lookahead) {
            Ok(TypeDecl::Record(Parse::parse(alloc, lexer)?))
        } else if FlagsDecl::peek(&mut lookahead) {
            Ok(TypeDecl::Flags(Parse::parse(alloc, lexer)?))
        } else if EnumDecl::peek(&mut lookahead) {
            Ok(TypeDecl::Enum(Parse::parse(alloc, lexer)?))
        } else if TypeAlias::peek(&mut lookahead) {
            Ok(TypeDecl::Alias(Parse::parse(alloc, lexer)?))
        } else {
            Err(lookahead.error())
        }
    }
}

impl<'a> Peek for TypeDecl<'a> {
    ghost firsts = { begins symbols.type_decl };

    fn peek(lookahead: &mut Lookahead) -> bool
        ensures { Peeks (begins symbols.type_decl) result lookahead.old lookahead.new }
    {
        VariantDecl::peek(lookahead)
            || RecordDecl::peek(lookahead)
            || FlagsDecl::peek(lookahead)
            || EnumDecl::peek(lookahead)
            || TypeAlias::peek(lookahead)
    }
}

impl<'a> TypeDecl<'a> {
    /// The name that is declared.
    pub fn id(&self) -> &Ident<'a>
        ensures { ident_of result.now ≡ type_decl_id (type_decl_of self.now) }
    {
        match self {
            TypeDecl::Variant(decl) => &decl.id,
            TypeDecl::Record(decl) => &decl.id,
            TypeDecl::Flags(decl) => &decl.id,
            TypeDecl::Enum(decl) => &decl.id,
            TypeDecl::Alias(decl) => &decl.id,
        }
    }
}

/// A type that an interface or a world declares.
#[derive(Drop)]
pub enum ItemTypeDecl<'a> {
    /// A resource.
    Resource(ResourceDecl<'a>),
    /// A type of cases.
    Variant(VariantDecl<'a>),
    /// A type of fields.
    Record(RecordDecl<'a>),
    /// A type of flags.
    Flags(FlagsDecl<'a>),
    /// A type of names.
    Enum(EnumDecl<'a>),
    /// Another name for a type.
    Alias(TypeAlias<'a>),
}

impl fmt::Debug for ItemTypeDecl<'_> {
    fn fmt<W: fmt::Write>(&self, f: &mut fmt::Formatter<W>) -> fmt::Result {
        match self {
            ItemTypeDecl::Resource(part) => write_variant(f, "Resource", part),
            ItemTypeDecl::Variant(part) => write_variant(f, "Variant", part),
            ItemTypeDecl::Record(part) => write_variant(f, "Record", part),
            ItemTypeDecl::Flags(part) => write_variant(f, "Flags", part),
            ItemTypeDecl::Enum(part) => write_variant(f, "Enum", part),
            ItemTypeDecl::Alias(part) => write_variant(f, "Alias", part),
        }
    }
}

impl<'a> Parse<'a> for ItemTypeDecl<'a> {
    ghost symbol = { symbols.item_type_decl };

    ghost tree = { item_type_decl_of };

    fn parse(alloc: Global, lexer: &mut Lexer<'a>) -> ParseResult<Self> {
        let mut lookahead = Lookahead::new(lexer);
        if ResourceDecl::peek(&mut lookahead) {
            Ok(ItemTypeDecl::Resource(Parse::parse(alloc, lexer)?))
        } else if VariantDecl::peek(&mut lookahead) {
            Ok(ItemTypeDecl::Variant(Parse::parse(alloc, lexer)?))
        } else if RecordDecl::peek(&mut lookahead) {
            Ok(ItemTypeDecl::Record(Parse::parse(alloc, lexer)?))
        } else if FlagsDecl::peek(&mut lookahead) {
            Ok(ItemTypeDecl::Flags(Parse::parse(alloc, lexer)?))
        } else if EnumDecl::peek(&mut lookahead) {
            Ok(ItemTypeDecl::Enum(Parse::parse(alloc, lexer)?))
        } else if TypeAlias::peek(&mut lookahead) {
            Ok(ItemTypeDecl::Alias(Parse::parse(alloc, lexer)?))
        } else {
            Err(lookahead.error())
        }
    }
}

impl<'a> Peek for ItemTypeDecl<'a> {
    ghost firsts = { begins symbols.item_type_decl };

    fn peek(lookahead: &mut Lookahead) -> bool
        ensures { Peeks (begins symbols.item_type_decl) result lookahead.old lookahead.new }
    {
        ResourceDecl::peek(lookahead) || TypeDecl::peek(lookahead)
    }
}

impl<'a> ItemTypeDecl<'a> {
    /// The name that is declared.
    pub fn id(&self) -> &Ident<'a>
        ensures { ident_of result.now ≡ item_type_decl_id (item_type_decl_of self.now) }
    {
        match self {
            ItemTypeDecl::Resource(decl) => &decl.id,
            ItemTypeDecl::Variant(decl) => &decl.id,
            ItemTypeDecl::Record(decl) => &decl.id,
            ItemTypeDecl::Flags(decl) => &decl.id,
            ItemTypeDecl::Enum(decl) => &decl.id,
            ItemTypeDecl::Alias(decl) => &decl.id,
        }
    }
}
