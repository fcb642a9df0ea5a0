// Documents that declare one package, which may agree.
use crate::faults::is_text_of;
use indexmap::IndexMap;
use std::alloc::{AllocError, Global};
use wac_ast::Document;
use wac_component_packages::disagreement;
use wac_declared_packages::{DeclarationError, declared_package, supplied_packages};
use wac_diagnostics::Diagnostic;
use wac_graph::{Package, PackageError, PackageKey};
use wac_package_errors::{KnownPackages, packages};
use wac_package_names::push_key;
use wac_printer::Page;

/// What a text is beside an earlier one that declares its package.
#[derive(Drop)]
pub(crate) enum Agreement {
    /// It declares the same.
    Same,
    /// This differs.
    Differs(Diagnostic),
    /// It declares nothing that can be compared.
    Nothing,
}

/// What a text is that declares the package of an earlier document.
pub(crate) fn compared(
    alloc: Global,
    known: KnownPackages<'_>,
    worlds: &[(&str, &str)],
    key: &PackageKey,
    text: &str,
) -> Result<Agreement, AllocError> {
    let (Some(first), Some(name)) = (known.package(key), known.document_of(key)) else {
        return Ok(Agreement::Nothing);
    };
    match package_in(alloc, known, world_of(worlds, key), text)? {
        None => Ok(Agreement::Nothing),
        Some(package) => {
            let mut shown = String::new(alloc);
            push_key(&mut shown, key)?;
            let told = (shown.as_str(), name, "declares");
            match disagreement(alloc, told, &package, first)? {
                None => Ok(Agreement::Same),
                Some(diagnostic) => Ok(Agreement::Differs(diagnostic)),
            }
        }
    }
}

/// The world that is chosen for a package.
fn world_of<'w>(worlds: &[(&str, &'w str)], key: &PackageKey) -> Option<&'w str> {
    let mut last = None;
    for (package, world) in worlds {
        if is_text_of(package, key) {
            last = Some(*world);
        }
    }
    last
}

/// The package that a text declares, if it has no error.
fn package_in(
    alloc: Global,
    known: KnownPackages<'_>,
    world: Option<&str>,
    text: &str,
) -> Result<Option<Package>, AllocError> {
    match Document::parse(alloc, text) {
        Ok(document) => package_of(
            Page {
                document: &document,
            },
            alloc,
            known,
            world,
        ),
        Err(wac_ast::Error::Memory(refused)) => Err(refused),
        Err(_) => Ok(None),
    }
}

/// The package that a document declares, if it has no error.
fn package_of(
    page: Page<'_, '_>,
    alloc: Global,
    known: KnownPackages<'_>,
    world: Option<&str>,
) -> Result<Option<Package>, AllocError> {
    let Page { document } = page;
    let mentioned = packages(alloc, document)?;
    match supplied_packages(alloc, &mentioned, &known.declared.packages) {
        Ok(supplied) => declared_with(Page { document }, alloc, world, supplied),
        Err(PackageError::Memory(_)) => Err(AllocError),
        Err(_) => Ok(None),
    }
}

/// The package that a document declares with these packages, if it has no error.
fn declared_with(
    page: Page<'_, '_>,
    alloc: Global,
    world: Option<&str>,
    supplied: IndexMap<PackageKey, Package>,
) -> Result<Option<Package>, AllocError> {
    match declared_package(page, alloc, world, supplied) {
        Ok((_, package)) => Ok(Some(package)),
        Err(DeclarationError::Memory(refused)) => Err(refused),
        Err(_) => Ok(None),
    }
}
