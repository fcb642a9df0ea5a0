//! The package that one document declares.
ghost use Rattle.std.specs.Prelude.{◌≡◌, IfErr, IfOk, option_map};
ghost use Rattle.wac_ast.specs.Statements.{document_of};
ghost use Rattle.wac_graph.specs.Package.{key_of as key_in};
ghost use Rattle.wac_declared_packages.specs.Definitions.{AreExported, HasWorld};
ghost use Rattle.wac_graph_types.specs.Growth.{KeepsMeanings};
ghost use Rattle.wac_declared_packages.specs.Declaring.{IsDeclaredBy, IsGraphOf, IsRefused, IsUnresolved};
ghost use Rattle.wac_declared_packages.specs.Together.{declared_key};
ghost use Rattle.wac_declared_packages.specs.Refusing.{IsDeclaration, IsUnmade};

use crate::causes::{of_parts, of_resolving};
use crate::error::DeclarationError;
use crate::header::key_of_declaration;
use crate::rules::NoRules;
use crate::{DefinitionsError, package_of};
use indexmap::IndexMap;
use std::alloc::Global;
use wac_graph::{CompositionGraph, Package, PackageKey};
use wac_lexer::SourceSpan;
use wac_printer::Page;
use wac_resolution::resolve_graph;

/// The graph of a document.
fn graph_of(
    page: Page<'_, '_>,
    alloc: Global,
    packages: IndexMap<PackageKey, Package>,
) -> Result<CompositionGraph, DeclarationError>
    ensures ok { IfOk result (IsGraphOf packages.entries (document_of page.entry)) }
    ensures err { IfErr result (IsUnresolved packages.entries (document_of page.entry)) }
{
    let Page { document } = page;
    match resolve_graph(alloc, document, packages, &NoRules) {
        Ok(graph) => Ok(graph),
        Err(error) => Err(of_resolving(error)),
    }
}

/// The package of a graph, with its key. The graph's document has the package's name in that place.
fn package_of_graph(
    alloc: Global,
    graph: &CompositionGraph,
    key: PackageKey,
    world: Option<&str>,
    place: SourceSpan,
) -> Result<(PackageKey, Package), DeclarationError>
    ensures key { IfOk result (λ p. key_in p.0 ≡ key_in key) }
    ensures definitions { IfOk result (λ p. AreExported graph.now p.1.definitions) }
    ensures means { IfOk result (λ p. KeepsMeanings graph.now.types p.1.types) }
    ensures world { IfOk result (λ p. HasWorld (option_map (λ s. s.now) world.entry) p.1) }
    ensures err { IfErr result (IsUnmade place) }
{
    match package_of(alloc, graph, world) {
        Ok(package) => Ok((key, package)),
        Err(DefinitionsError::NoSuchWorld) => Err(DeclarationError::NoSuchWorld(place)),
        Err(DefinitionsError::Parts(error)) => Err(of_parts(error)),
    }
}

/// The package that a declaration of this key declares, with the key.
fn package_with_key(
    page: Page<'_, '_>,
    alloc: Global,
    key: PackageKey,
    world: Option<&str>,
    packages: IndexMap<PackageKey, Package>,
) -> Result<(PackageKey, Package), DeclarationError>
    requires key { key_in key ≡ declared_key (document_of page) }
    requires fits { IsDeclaration (document_of page) }
    ensures key { IfOk result (λ p. key_in p.0 ≡ declared_key (document_of page.entry)) }
    ensures is { IfOk result (λ p. IsDeclaredBy packages.entries (document_of page.entry)
        (option_map (λ s. s.now) world.entry) p.1) }
    ensures fits { IfOk result (λ _. IsDeclaration (document_of page.entry)) }
    ensures err { IfErr result (IsRefused packages.entries (document_of page.entry)) }
{
    let Page { document } = page;
    let place = document.directive.package.span;
    match graph_of(Page { document }, alloc, packages) {
        Ok(graph) => package_of_graph(alloc, &graph, key, world, place),
        Err(error) => Err(error),
    }
}

/// The package that a document of type statements declares, with its key, which is the directive's name and version.
///
/// The world is the named one, or the only one; with none, or with several and none named, the package has its
/// definitions and a world that imports and exports nothing. `packages` are those that the document may mention. It
/// tests no rules, since type statements test none.
///
/// ```text
/// package a:b@1.0.0; interface i { f: func(); } world w { export i; }      a:b@1.0.0, which exports a:b/i@1.0.0
/// package a:b; import x: func();                                           a statement of another sort, at 20+1
/// ```
pub fn declared_package(
    page: Page<'_, '_>,
    alloc: Global,
    world: Option<&str>,
    packages: IndexMap<PackageKey, Package>,
) -> Result<(PackageKey, Package), DeclarationError>
    // The key is the directive's.
    ensures key { IfOk result (λ p. key_in p.0 ≡ declared_key (document_of page.entry)) }
    // It has what the document's graph exports, with the meanings there, and the chosen world.
    ensures is { IfOk result (λ p. IsDeclaredBy packages.entries (document_of page.entry)
        (option_map (λ s. s.now) world.entry) p.1) }
    // The document has no target, and type statements alone.
    ensures fits { IfOk result (λ _. IsDeclaration (document_of page.entry)) }
    // The error says what in the document is no declaration, or what in a declaration makes no package.
    ensures err { IfErr result (IsRefused packages.entries (document_of page.entry)) }
{
    let Page { document } = page;
    match key_of_declaration(Page { document }, alloc) {
        Ok(key) => package_with_key(Page { document }, alloc, key, world, packages),
        Err(error) => Err(error),
    }
}
