//! What a document says of itself before it is resolved: its package, and those that it mentions.
ghost use Rattle.std.specs.Prelude.{◌≡◌, IfErr, IfOk, None, OnOk, Some, map, option_map};
ghost use Rattle.wac_ast.specs.Statements.{document_of, statement_of};
ghost use Rattle.wac_ast_base.specs.Names.{package_name_of, package_path_of};
ghost use Rattle.wac_graph.specs.Package.{key_of as key_in};
ghost use Rattle.wac_resolution_rules.specs.Given.{key_named};
ghost use Rattle.wac_declared_packages.specs.Refusing.{IsDeclaration, IsUnread, Unfit, other_place as place_of_other, first_other as first_other_among};
ghost use Rattle.wac_declared_packages.specs.Together.{declared_key};
ghost use Rattle.wac_declared_packages.specs.declared.error.DeclarationError.TheVariants as errors;

use crate::causes::of_parsing;
use crate::error::DeclarationError;
use indexmap::IndexMap;
use std::alloc::{AllocError, Global};
use wac_ast::internals::{Parse, Statements};
use wac_ast::{Document, PackageDirective, PackageName, Statement};
use wac_graph::PackageKey;
use wac_lexer::{Lexer, SourceSpan};
use wac_printer::Page;
use wac_resolution::packages;
use wac_resolution_state::package_key;

/// What a text says of itself: the package that it declares, and those that it mentions.
#[derive(Drop)]
pub(crate) struct Header {
    pub(crate) key: PackageKey,
    /// Where the package's name is, with its version.
    pub(crate) place: SourceSpan,
    /// The foreign packages, each with the place of its first mention.
    pub(crate) mentioned: IndexMap<PackageKey, SourceSpan>,
}

/// The key that a package's name denotes.
pub(crate) fn key_of(alloc: Global, name: &PackageName<'_>) -> Result<PackageKey, AllocError>
    ensures { IfOk result (λ k. key_in k ≡ key_named (package_name_of name.now)) }
{
    package_key(alloc, name.name, name.string)
}

/// Where a statement is, if it is no type statement.
fn other_place(statement: &Statement<'_>) -> Option<SourceSpan>
    ensures { result ≡ place_of_other (statement_of statement.now) }
{
    match statement {
        Statement::Import(import) => Some(import.id.span),
        Statement::Let(binding) => Some(binding.id.span),
        Statement::Export(export) => Some(export.expr.span),
        Statement::Ty(_) => None,
    }
}

/// Where the first of these statements is that is no type statement, if there is one.
fn first_among(statements: &[Statement<'_>]) -> Option<SourceSpan>
    ensures { result ≡ first_other_among (map statement_of statements.now) }
{
    for statement in statements {
        if let Some(span) = other_place(statement) {
            return Some(span);
        }
    }
    None
}

/// Where the first lent statement is that is no type statement, if there is one.
fn first_other(statements: Statements<'_, '_>) -> Option<SourceSpan>
    ensures { result ≡ first_other_among (map statement_of statements.entry) }
{
    let all = statements.all;
    first_among(all)
}

/// Where the target of a directive is, if it has one.
fn target_place(directive: &PackageDirective<'_>) -> Option<SourceSpan>
    ensures { result ≡ option_map (λ path. (package_path_of path).span) directive.now.targets }
{
    match &directive.targets {
        None => None,
        Some(path) => Some(path.span),
    }
}

/// Rejects what a declaration of a package may not have: a target, and other statements than type statements.
fn test_declaration(page: Page<'_, '_>) -> Result<(), DeclarationError>
    ensures ok { OnOk result (IsDeclaration (document_of page.entry)) }
    ensures err { IfErr result (Unfit (document_of page.entry)) }
{
    let Page { document } = page;
    if let Some(span) = target_place(&document.directive) {
        return Err(DeclarationError::Targets(span));
    }
    let statements = Statements {
        all: &document.statements,
    };
    match first_other(statements) {
        None => Ok(()),
        Some(span) => Err(DeclarationError::OtherStatement(span)),
    }
}

/// The key of the package that a document declares, if the document is a declaration.
pub(crate) fn key_of_declaration(
    page: Page<'_, '_>,
    alloc: Global,
) -> Result<PackageKey, DeclarationError>
    ensures key { IfOk result (λ k. key_in k ≡ declared_key (document_of page.entry)) }
    ensures fits { IfOk result (λ _. IsDeclaration (document_of page.entry)) }
    ensures err { IfErr result (IsUnread (document_of page.entry)) }
{
    let Page { document } = page;
    test_declaration(Page { document })?;
    let name = &document.directive.package;
    let key = key_of(alloc, name)?;
    Ok(key)
}

/// The packages that a document mentions, each with the place of its first mention.
fn mentioned_by(
    page: Page<'_, '_>,
    alloc: Global,
) -> Result<IndexMap<PackageKey, SourceSpan>, AllocError> {
    let Page { document } = page;
    packages(alloc, document)
}

/// The header of a document with this key, whose package's name is in that place.
fn header_with(
    page: Page<'_, '_>,
    alloc: Global,
    key: PackageKey,
    place: SourceSpan,
) -> Result<Header, DeclarationError> {
    match mentioned_by(page, alloc) {
        Ok(mentioned) => Ok(Header {
            key,
            place,
            mentioned,
        }),
        Err(refused) => Err(DeclarationError::Memory(refused)),
    }
}

/// What a document says of itself.
fn header_of(page: Page<'_, '_>, alloc: Global) -> Result<Header, DeclarationError> {
    let Page { document } = page;
    let place = document.directive.package.span;
    match key_of_declaration(Page { document }, alloc) {
        Ok(key) => header_with(Page { document }, alloc, key, place),
        Err(error) => Err(error),
    }
}

/// What a text says of itself.
pub(crate) fn read_header(alloc: Global, text: &str) -> Result<Header, DeclarationError> {
    match Document::parse(alloc, text) {
        Ok(document) => header_of(
            Page {
                document: &document,
            },
            alloc,
        ),
        Err(error) => Err(of_parsing(error)),
    }
}

/// The package of a text's directive, if the text begins with one.
pub(crate) fn directive_key(alloc: Global, text: &str) -> Result<Option<PackageKey>, AllocError> {
    let Ok(mut lexer) = Lexer::new(text) else {
        return Ok(None);
    };
    match PackageDirective::parse(alloc, &mut lexer) {
        Ok(directive) => Ok(Some(key_of(alloc, &directive.package)?)),
        Err(wac_ast::Error::Memory(refused)) => Err(refused),
        Err(_) => Ok(None),
    }
}
