//! Making the packages of texts, each after those that it mentions.
ghost use Rattle.std.specs.Prelude.{◌≡◌, IfOk, OnOk};
ghost use Rattle.wac_ast.specs.Statements.{document_of};
ghost use Rattle.wac_ast_grammar.specs.TextTree.{IsTreeOf};
ghost use Rattle.wac_graph.specs.Package.{key_of as key_in};
ghost use Rattle.wac_declared_packages.specs.Together.{AreFrom, IsFrom, IsOneOf, now_of};

use crate::causes::{of_parsing, of_parts};
use crate::declaration::declared_package;
use crate::error::DeclarationError;
use crate::header::{Header, key_of};
use crate::outlines::{Outlines, first_missing};
use crate::sizes::size_of;
use crate::sources::{Sources, text_at, world_of};
use crate::supplying::{put, supplied_packages};
use indexmap::IndexMap;
use std::alloc::{AllocError, Global};
use wac_ast::Document;
use wac_graph::{Package, PackageKey};
use wac_printer::Page;

/// The package that a document of one of the texts declares, with these packages.
fn declared_by(
    page: Page<'_, '_>,
    alloc: Global,
    sources: &Sources<'_>,
    packages: IndexMap<PackageKey, Package>,
    text: &str,
) -> Result<(PackageKey, Package), DeclarationError>
    requires one { IsOneOf (now_of sources.now.texts.now) text.now }
    requires tree { IsTreeOf text.now (document_of page) }
    requires all { AreFrom sources.now packages.entries }
    ensures { IfOk result (λ p. IsFrom sources.now (key_in p.0) p.1) }
{
    let Page { document } = page;
    match key_of(alloc, &document.directive.package) {
        Ok(key) => {
            let world = world_of(sources, &key);
            declared_package(Page { document }, alloc, world, packages)
        }
        Err(refused) => Err(DeclarationError::Memory(refused)),
    }
}

/// The package that one of the texts declares, with these packages.
fn declared(
    alloc: Global,
    sources: &Sources<'_>,
    packages: IndexMap<PackageKey, Package>,
    text: &str,
) -> Result<(PackageKey, Package), DeclarationError>
    requires one { IsOneOf (now_of sources.now.texts.now) text.now }
    requires all { AreFrom sources.now packages.entries }
    ensures { IfOk result (λ p. IsFrom sources.now (key_in p.0) p.1) }
{
    match Document::parse(alloc, text) {
        Ok(document) => declared_by(
            Page {
                document: &document,
            },
            alloc,
            sources,
            packages,
            text,
        ),
        Err(error) => Err(of_parsing(error)),
    }
}

/// The package that one of the texts declares, with those that it mentions.
fn made_of(
    alloc: Global,
    sources: &Sources<'_>,
    header: &Header,
    made: &IndexMap<PackageKey, Package>,
    text: &str,
) -> Result<(PackageKey, Package), DeclarationError>
    requires one { IsOneOf (now_of sources.now.texts.now) text.now }
    requires all { AreFrom sources.now made.now.entries }
    ensures { IfOk result (λ p. IsFrom sources.now (key_in p.0) p.1) }
{
    match supplied_packages(alloc, &header.mentioned, made) {
        Ok(packages) => declared(alloc, sources, packages, text),
        Err(error) => Err(of_parts(error)),
    }
}

/// Whether a text has a header and no package yet, and each package that it mentions is made.
fn is_ready(outlines: &Outlines, text: usize, made: &IndexMap<PackageKey, Package>) -> bool {
    match outlines.header(text) {
        None => false,
        Some(header) => {
            !made.contains_key(&header.key) && first_missing(&header.mentioned, made).is_none()
        }
    }
}

/// The first text that is ready.
fn next(outlines: &Outlines, made: &IndexMap<PackageKey, Package>) -> Option<usize> {
    for text in 0..outlines.headers.len() {
        if is_ready(outlines, text, made) {
            return Some(text);
        }
    }
    None
}

/// Keeps the package of a text, or rejects the text.
#[tactic(auto, using(crate::proofs::Declares::put_declared))]
fn keep(
    outlines: &mut Outlines,
    made: &mut IndexMap<PackageKey, Package>,
    sources: &Sources<'_>,
    text: usize,
    outcome: Result<(PackageKey, Package), DeclarationError>,
) -> Result<(), AllocError>
    requires all { AreFrom sources.now made.old.entries }
    requires one { IfOk outcome (λ p. IsFrom sources.now (key_in p.0) p.1) }
    ensures { OnOk result (AreFrom sources.now made.new.entries) }
{
    match outcome {
        Ok((key, package)) => {
            let size = size_of(package.types());
            if outlines.sizes.has_room(size) {
                outlines.sizes.note(text, size);
                put(made, key, package)
            } else {
                outlines.reject_large(text)
            }
        }
        Err(DeclarationError::Memory(refused)) => Err(refused),
        Err(error) => outlines.reject_text(text, error),
    }
}

/// Makes the package of a text that is ready, or rejects the text. Returns whether one was ready.
#[tactic(auto, using(crate::proofs::Declares::one_at))]
fn make(
    alloc: Global,
    outlines: &mut Outlines,
    made: &mut IndexMap<PackageKey, Package>,
    sources: &Sources<'_>,
) -> Result<bool, AllocError>
    requires all { AreFrom sources.now made.old.entries }
    ensures { OnOk result (AreFrom sources.now made.new.entries) }
{
    let Some(number) = next(outlines, made) else {
        return Ok(false);
    };
    let (Some(header), Some(text)) = (outlines.header(number), text_at(sources, number)) else {
        return Ok(false);
    };
    let outcome = match outlines.too_large(header) {
        Some(place) => Err(DeclarationError::TooLarge(place)),
        None => made_of(alloc, sources, header, made, text),
    };
    keep(outlines, made, sources, number, outcome)?;
    Ok(true)
}

/// Makes each package that can be made.
#[tactic(auto, using(crate::proofs::Declares::none_declared))]
pub(crate) fn make_all(
    alloc: Global,
    outlines: &mut Outlines,
    sources: &Sources<'_>,
) -> Result<IndexMap<PackageKey, Package>, AllocError>
    ensures { IfOk result (λ made. AreFrom sources.now made.entries) }
{
    let mut made = IndexMap::new(alloc);
    'rounds: for _ in 0..sources.texts.len() {
        if !make(alloc, outlines, &mut made, sources)? {
            return Ok(made);
        }
    }
    Ok(made)
}
