//! Packages and errors as texts.

use indexmap::IndexMap;
use std::alloc::{AllocError, Global};
use wac_declared_packages::{
    DeclarationError, DeclarationFault, Declared, declare_all, declared_packages,
};
use wac_graph::PackageKey;
use wac_graph_types::{ItemKind, Package};

/// Appends each name and the words for its kind.
fn push_items(
    out: &mut String,
    items: Option<&IndexMap<String, ItemKind>>,
) -> Result<(), AllocError> {
    if let Some(items) = items {
        for (name, kind) in items.iter() {
            out.push_str(" ")?;
            out.push_str(name.as_str())?;
            out.push_str(":")?;
            out.push_str(kind.desc())?;
        }
    }
    Ok(())
}

/// Whether the interface of a package's instances has no id and no uses.
fn is_plain(package: &Package) -> bool {
    match package.types().interface(package.instance()) {
        Some(interface) => interface.id.is_none() && interface.uses.is_empty(),
        None => false,
    }
}

/// A package's definitions, imports and exports, each with the words for its kind.
pub fn shown_package(alloc: Global, package: &Package) -> Result<String, AllocError> {
    let mut out = String::from_str(alloc, "defines")?;
    push_items(&mut out, Some(package.definitions()))?;
    out.push_str("; imports")?;
    push_items(&mut out, package.types().imports(package.world()))?;
    out.push_str("; exports")?;
    push_items(
        &mut out,
        package
            .types()
            .exports(ItemKind::Instance(package.instance())),
    )?;
    if !is_plain(package) {
        out.push_str("; an instance with an id or uses")?;
    }
    Ok(out)
}

/// A key with its version.
pub fn push_key(out: &mut String, key: &PackageKey) -> Result<(), AllocError> {
    out.push_str(key.name.as_str())?;
    if let Some(version) = &key.version {
        out.push_str("@")?;
        out.push_str(version.as_str())?;
    }
    Ok(())
}

/// The keys of packages, in order, with a blank after each.
fn shown_keys(
    alloc: Global,
    packages: &IndexMap<PackageKey, Package>,
) -> Result<String, AllocError> {
    let mut out = String::new(alloc);
    for (key, _) in packages.iter() {
        push_key(&mut out, key)?;
        out.push_str(" ")?;
    }
    Ok(out)
}

/// A word for an error.
fn word(error: &DeclarationError) -> &'static str {
    match error {
        DeclarationError::Syntax(_) => "syntax",
        DeclarationError::OtherStatement(_) => "other statement",
        DeclarationError::Targets(_) => "targets",
        DeclarationError::NoSuchWorld(_) => "no such world",
        DeclarationError::DeclaredTwice(_) => "declared twice",
        DeclarationError::UnknownPackage(_) => "unknown package",
        DeclarationError::Cycle(_) => "cycle",
        DeclarationError::TooLarge(_) => "too large",
        DeclarationError::Resolution(_) => "resolution",
        DeclarationError::Parts(_) => "parts",
        DeclarationError::Unmade => "unmade",
        DeclarationError::Memory(_) => "memory",
    }
}

/// A fault: the number of its text, its word, and its place where it has one.
pub fn shown_fault(alloc: Global, fault: &DeclarationFault) -> Result<String, AllocError> {
    let number = fault.text;
    let word = word(&fault.error);
    match fault.error.span() {
        None => Ok(format!(in alloc; "{number} {word}")?),
        Some(span) => {
            let offset = span.offset();
            let len = span.len();
            Ok(format!(in alloc; "{number} {word} {offset}+{len}")?)
        }
    }
}

/// The chosen worlds by the packages that rows name by their texts.
fn chosen(
    alloc: Global,
    worlds: &[(&str, &str)],
) -> Result<IndexMap<PackageKey, String>, AllocError> {
    let mut all = IndexMap::new(alloc);
    for (package, world) in worlds {
        let key = key_of(alloc, package)?;
        all.insert(key, String::from_str(alloc, world)?)?;
    }
    Ok(all)
}

/// The key that a text names, as `a:b@1.0.0`.
fn key_of(alloc: Global, text: &str) -> Result<PackageKey, AllocError> {
    match text.split_once('@') {
        None => Ok(PackageKey {
            name: String::from_str(alloc, text)?,
            version: None,
        }),
        Some((name, version)) => Ok(PackageKey {
            name: String::from_str(alloc, name)?,
            version: Some(String::from_str(alloc, version)?),
        }),
    }
}

/// What texts declare: the keys in order, or the first fault.
pub fn declared(
    alloc: Global,
    texts: &[&str],
    worlds: &[(&str, &str)],
) -> Result<String, AllocError> {
    let worlds = chosen(alloc, worlds)?;
    match declared_packages(alloc, texts, &worlds) {
        Ok(packages) => shown_keys(alloc, &packages),
        Err(fault) => shown_fault(alloc, &fault),
    }
}

/// Appends each fault, with a blank before it.
fn push_faults(
    alloc: Global,
    out: &mut String,
    faults: &[DeclarationFault],
) -> Result<(), AllocError> {
    for fault in faults {
        let shown = shown_fault(alloc, fault)?;
        out.push(' ')?;
        out.push_str(shown.as_str())?;
    }
    Ok(())
}

/// The keys of packages, and after a bar each fault.
fn shown_declared(alloc: Global, declared: &Declared) -> Result<String, AllocError> {
    let mut out = shown_keys(alloc, &declared.packages)?;
    out.push('|')?;
    push_faults(alloc, &mut out, declared.faults.as_slice())?;
    Ok(out)
}

/// What texts declare where no world is chosen: the keys of the packages, and after a bar each fault.
pub fn all_declared(alloc: Global, texts: &[&str]) -> Result<String, AllocError> {
    let worlds = IndexMap::new(alloc);
    match declare_all(alloc, texts, &worlds) {
        Ok(declared) => shown_declared(alloc, &declared),
        Err(refused) => Err(refused),
    }
}

/// The last of packages.
fn shown_last(
    alloc: Global,
    packages: &IndexMap<PackageKey, Package>,
) -> Result<String, AllocError> {
    match packages.last() {
        None => Ok(String::new(alloc)),
        Some((_, package)) => shown_package(alloc, package),
    }
}

/// The last package that texts declare.
pub fn last_declared(
    alloc: Global,
    texts: &[&str],
    worlds: &[(&str, &str)],
) -> Result<String, AllocError> {
    let worlds = chosen(alloc, worlds)?;
    match declared_packages(alloc, texts, &worlds) {
        Err(fault) => shown_fault(alloc, &fault),
        Ok(packages) => shown_last(alloc, &packages),
    }
}
