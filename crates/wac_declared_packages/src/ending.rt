//! Whether there is a package of each text.
ghost use Rattle.std.specs.Prelude.{◌≡◌, IfOk, None, OnOk, is_some, true, vec_len};
ghost use Rattle.wac_ast.specs.Statements.{document_of};
ghost use Rattle.wac_declared_packages.specs.Together.{EachHasPackage, HasPackage, IsWhole, declared_key, now_of, under};

use crate::error::DeclarationError;
use crate::header::key_of;
use crate::outlines::Outlines;
use crate::sources::{Sources, text_at};
use crate::supplying::has;
use indexmap::IndexMap;
use std::alloc::{AllocError, Global};
use wac_ast::Document;
use wac_graph::{Package, PackageKey};
use wac_printer::Page;

/// Whether the package that a document declares is there.
#[tactic(auto, using(crate::proofs::Texts::there_is))]
fn is_there(
    page: Page<'_, '_>,
    alloc: Global,
    packages: &IndexMap<PackageKey, Package>,
) -> Result<bool, AllocError>
    ensures { IfOk result (λ there. there ≡ is_some
        (under (declared_key (document_of page.entry)) packages.now.entries)) }
{
    let Page { document } = page;
    let key = key_of(alloc, &document.directive.package)?;
    Ok(has(packages, &key))
}

/// Whether the package that a text declares is there. The text is read anew, so nothing noted of it is trusted.
#[tactic(auto, using(crate::proofs::Texts::package_there))]
fn is_made(
    alloc: Global,
    text: &str,
    packages: &IndexMap<PackageKey, Package>,
) -> Result<bool, AllocError>
    ensures { IfOk result (λ made. made ≡ true → HasPackage packages.now.entries text.now) }
{
    match Document::parse(alloc, text) {
        Ok(document) => is_there(
            Page {
                document: &document,
            },
            alloc,
            packages,
        ),
        Err(wac_ast::Error::Memory(refused)) => Err(refused),
        Err(_) => Ok(false),
    }
}

/// The first text whose package isn't there, if there is one.
#[tactic(auto, using(crate::proofs::Texts::there_first, crate::proofs::Texts::there_next, crate::proofs::Texts::there_all))]
fn first_unmade(
    alloc: Global,
    sources: &Sources<'_>,
    packages: &IndexMap<PackageKey, Package>,
) -> Result<Option<usize>, AllocError>
    ensures { IfOk result (λ unmade. unmade ≡ None
        → EachHasPackage (now_of sources.now.texts.now) packages.now.entries) }
{
    for number in 0..sources.texts.len() {
        let Some(text) = text_at(sources, number) else {
            return Ok(Some(number));
        };
        if !is_made(alloc, text, packages)? {
            return Ok(Some(number));
        }
    }
    Ok(None)
}

/// The number of a text where there isn't just one package of each text; else none.
fn first_lacking(
    alloc: Global,
    sources: &Sources<'_>,
    packages: &IndexMap<PackageKey, Package>,
) -> Result<Option<usize>, AllocError>
    ensures { IfOk result (λ lacking. lacking ≡ None → IsWhole (now_of sources.now.texts.now) packages.now.entries) }
{
    if packages.len() == sources.texts.len() {
        first_unmade(alloc, sources, packages)
    } else {
        Ok(Some(0))
    }
}

/// Adds a fault where there is none and a package is lacking, so that no text is passed over. No texts are known for
/// which that is so.
pub(crate) fn reject_lacking(
    alloc: Global,
    sources: &Sources<'_>,
    outlines: &mut Outlines,
    packages: &IndexMap<PackageKey, Package>,
) -> Result<(), AllocError>
    ensures { OnOk result (vec_len outlines.new.faults ≡ 0
        → IsWhole (now_of sources.now.texts.now) packages.now.entries) }
{
    if !outlines.faults.is_empty() {
        return Ok(());
    }
    match first_lacking(alloc, sources, packages)? {
        None => Ok(()),
        Some(text) => outlines.reject(text, DeclarationError::Unmade),
    }
}
