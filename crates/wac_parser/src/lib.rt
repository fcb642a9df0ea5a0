//! The front end of the WebAssembly Composition language (WAC).
//!
//! [`Document::parse`] reads a text into its tree, or reports the first place where no document continues.
//! [`DocumentPrinter`] prints a tree into any sink of bytes, and [`format()`] does both:
//!
//! ```text
//! match format(alloc, source, None) {
//!     Ok(text) => println!(rt; "{text}")?,
//!     Err(error) => println!(rt; "{error}")?,         // expected `;`, found end of input
//! }
//! ```
//!
//! Spans are in bytes. Each call that takes memory takes the allocator first;
//! `Error::Memory` occurs only where a request failed.
#![tactic(auto)]

pub mod lexer;
pub mod resolution;

pub use wac_ast::{
    AccessExpr, Constructor, DocComment, Document, EnumCase, EnumDecl, Error, ExportOptions,
    ExportStatement, Expr, ExternName, ExternType, Field, Flag, FlagsDecl, FuncType, FuncTypeRef,
    Ident, ImportStatement, ImportType, InlineInterface, InstantiationArgument,
    InstantiationArgumentName, InterfaceDecl, InterfaceExport, InterfaceItem, ItemTypeDecl,
    LetStatement, Lookahead, Method, NamedAccessExpr, NamedInstantiationArgument, NamedType,
    NamedWorldItem, NestedExpr, NewExpr, PackageDirective, PackageName, PackagePath, ParseResult,
    PostfixExpr, PrimaryExpr, RecordDecl, ResourceDecl, ResourceMethod, ResultList, SegmentSpans,
    Statement, String, Type, TypeAlias, TypeAliasKind, TypeDecl, TypeStatement, Use, UseItem,
    UsePath, VariantCase, VariantDecl, WorldDecl, WorldExport, WorldImport, WorldInclude,
    WorldIncludeItem, WorldItem, WorldItemPath, WorldRef, arguments_are_refused_at_first_faults,
    parse_optional, parse_optional_payload, parse_token, refusals_lie_at_first_faults,
    tokens_have_texts, trees_end_where_they_must, trees_stand_in_their_text, what_is_read_derives,
};
pub use wac_json::ToValue;
pub use wac_printer::{
    DocumentPrinter, Page, PrintError, PrintResult, equal_bare_trees_print_equally, format,
    printed_documents_read_back, trees_of_texts_can_be_printed,
};
pub use wac_resolution::packages;
