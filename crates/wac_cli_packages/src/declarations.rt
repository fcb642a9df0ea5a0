// The packages that documents declare, and what is wrong with those that declare none.
use crate::faults::{Cause, PackageFault};
use crate::sources::Sources;
use indexmap::IndexMap;
use std::alloc::{AllocError, Global};
use wac_declared_packages::DeclarationError;
use wac_graph::PackageKey;
use wac_lexer::SourceSpan;
use wac_package_errors::{DeclarationFault, Declared, declare_all};
use wac_package_names::key_named;

/// The packages that documents declare.
pub(crate) fn declare(
    alloc: Global,
    sources: &Sources,
    worlds: &[(&str, &str)],
) -> Result<Declared, AllocError> {
    let worlds = chosen(alloc, worlds)?;
    declare_with(alloc, sources, &worlds)
}

/// The same with the chosen worlds.
fn declare_with(
    alloc: Global,
    sources: &Sources,
    worlds: &IndexMap<PackageKey, String>,
) -> Result<Declared, AllocError> {
    let texts = sources.all(alloc)?;
    declare_all(alloc, texts.as_slice(), worlds)
}

/// The chosen worlds, by their packages. Of two for one package the last is chosen.
fn chosen(
    alloc: Global,
    worlds: &[(&str, &str)],
) -> Result<IndexMap<PackageKey, String>, AllocError> {
    let mut all = IndexMap::new(alloc);
    for (package, world) in worlds {
        choose(alloc, &mut all, package, world)?;
    }
    Ok(all)
}

/// Adds the world of a package.
fn choose(
    alloc: Global,
    all: &mut IndexMap<PackageKey, String>,
    package: &str,
    world: &str,
) -> Result<(), AllocError> {
    let world = String::from_str(alloc, world)?;
    let key = key_named(alloc, package)?;
    all.insert(key, world)?;
    Ok(())
}

/// What is wrong with documents that declare no package, in their order.
pub(crate) fn declared_faults(
    alloc: Global,
    sources: &Sources,
    declared: &Declared,
) -> Result<Vec<PackageFault>, AllocError> {
    let mut all = Vec::new(alloc);
    let numbers = numbers_of(alloc, sources, declared)?;
    for number in numbers.as_slice() {
        if let Some(number) = number {
            if let Some(fault) = declared.faults.get(*number) {
                push_fault(alloc, &mut all, sources, declared, (*number, fault))?;
            }
        }
    }
    Ok(all)
}

/// For each document the number of its fault, if it has one.
fn numbers_of(
    alloc: Global,
    sources: &Sources,
    declared: &Declared,
) -> Result<Vec<Option<usize>>, AllocError> {
    let mut numbers = Vec::new(alloc);
    numbers.resize(sources.texts.len(), None)?;
    for number in 0..declared.faults.len() {
        let text = declared.faults.as_slice()[number].text;
        if let Some(place) = numbers.get_mut(text) {
            *place = Some(number);
        }
    }
    Ok(numbers)
}

/// Adds the fault of a number.
fn push_fault(
    alloc: Global,
    all: &mut Vec<PackageFault>,
    sources: &Sources,
    declared: &Declared,
    numbered: (usize, &DeclarationFault),
) -> Result<(), AllocError> {
    let (number, fault) = numbered;
    let (Some(path), Some(origin)) = (
        sources.names.get(fault.text),
        sources.origins.get(fault.text),
    ) else {
        return Ok(());
    };
    let (key, cause) = match &fault.error {
        DeclarationError::DeclaredTwice(place) => (
            Some(key_at(alloc, sources, fault.text, *place)?),
            Cause::DeclaredTwice(number),
        ),
        _ => (
            key_of(alloc, declared, fault.text)?,
            Cause::Declared(number),
        ),
    };
    all.push(PackageFault {
        path: String::from_str(alloc, path.as_str())?,
        place: String::from_str(alloc, origin.place.as_str())?,
        is_named: origin.is_named,
        key,
        cause,
    })?;
    Ok(())
}

/// The package whose name is at a place in a document.
fn key_at(
    alloc: Global,
    sources: &Sources,
    text: usize,
    place: SourceSpan,
) -> Result<PackageKey, AllocError> {
    let start = place.offset();
    let end = start.saturating_add(place.len());
    let name = match sources.texts.get(text) {
        Some(text) => text.as_str().get(start..end).unwrap_or(""),
        None => "",
    };
    key_named(alloc, name)
}

/// The package of a document, if no earlier one has it.
fn key_of(
    alloc: Global,
    declared: &Declared,
    text: usize,
) -> Result<Option<PackageKey>, AllocError> {
    for (key, number) in declared.texts.iter() {
        if *number == text {
            return Ok(Some(copied(alloc, key)?));
        }
    }
    Ok(None)
}

/// A copy of a key.
fn copied(alloc: Global, key: &PackageKey) -> Result<PackageKey, AllocError> {
    let version = match &key.version {
        None => None,
        Some(version) => Some(String::from_str(alloc, version.as_str())?),
    };
    Ok(PackageKey {
        name: String::from_str(alloc, key.name.as_str())?,
        version,
    })
}
