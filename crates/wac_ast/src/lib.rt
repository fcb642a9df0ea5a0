//! The documents of WAC: their trees, and how a text is parsed into one.
#![tactic(auto)]

mod document;
mod lent;
mod statement;
mod type_statement;

pub use document::Document;
pub use statement::Statement;
pub use type_statement::TypeStatement;
pub use wac_ast_base::{
    DocComment, Error, ExternName, Ident, Lookahead, PackageName, PackagePath, ParseResult,
    SegmentSpans, String, parse_optional, parse_token,
};
pub use wac_ast_grammar::{
    arguments_are_refused_at_first_faults, refusals_lie_at_first_faults, tokens_have_texts,
    trees_end_where_they_must, trees_stand_in_their_text, what_is_read_derives,
};
pub use wac_ast_statements::{
    AccessExpr, ExportOptions, ExportStatement, Expr, InstantiationArgument,
    InstantiationArgumentName, LetStatement, NamedAccessExpr, NamedInstantiationArgument,
    NestedExpr, NewExpr, PackageDirective, PostfixExpr, PrimaryExpr,
};
pub use wac_ast_types::{
    Constructor, EnumCase, EnumDecl, Field, Flag, FlagsDecl, FuncType, FuncTypeRef, ItemTypeDecl,
    Method, NamedType, RecordDecl, ResourceDecl, ResourceMethod, ResultList, Type, TypeAlias,
    TypeAliasKind, TypeDecl, VariantCase, VariantDecl, parse_optional_payload,
};
pub use wac_ast_uses::{Use, UseItem, UsePath, WorldInclude, WorldIncludeItem, WorldRef};
pub use wac_ast_worlds::{
    ExternType, ImportStatement, ImportType, InlineInterface, InterfaceDecl, InterfaceExport,
    InterfaceItem, NamedWorldItem, WorldDecl, WorldExport, WorldImport, WorldItem, WorldItemPath,
};

/// How each part of a document is parsed, and what callers that are proved themselves lend.
pub mod internals {
    pub use crate::lent::Statements;
    pub use wac_ast_base::{Parse, Peek, parsers_stop_at_first_faults};
}
