//! Helps for arguments that are missing, or that a component doesn't import.

use crate::context::Context;
use crate::earlier::graph_before;
use crate::sources::{EXACTLY, source_of};
use indexmap::IndexMap;
use std::alloc::{AllocError, Global};
use wac_graph::{ItemKind, Package, PackageKey};
use wac_lexer::SourceSpan;
use wac_package_names::{compatible_name, key_named, push_key, push_near, same_but_version};

/// What a missing argument of a package is, and how to give it. The place is that of the package's name.
pub(crate) fn missing_argument(
    alloc: Global,
    context: Context<'_>,
    name: &str,
    package: &str,
    place: SourceSpan,
) -> Result<Option<String>, AllocError> {
    let key = key_named(alloc, package)?;
    match context.known.package(&key) {
        None => Ok(None),
        Some(found) => missing_import(alloc, context, name, found, place),
    }
}

/// The same of a package's import of this name.
fn missing_import(
    alloc: Global,
    context: Context<'_>,
    name: &str,
    package: &Package,
    place: SourceSpan,
) -> Result<Option<String>, AllocError> {
    let Some(kind) = package.types().import(package.world(), name) else {
        return Ok(None);
    };
    let mut help = how_to_give(alloc, kind)?;
    push_source(alloc, context, &mut help, name, place)?;
    Ok(Some(help))
}

/// How an argument of a kind is given.
fn how_to_give(alloc: Global, kind: ItemKind) -> Result<String, AllocError> {
    let desc = kind.desc();
    match kind {
        ItemKind::Ty(_) => format!(in alloc;
            "it is a {desc} that the world uses: end with `...` to import it"
        ),
        ItemKind::Instance(_) => format!(in alloc;
            "it is an {desc}: give it, or end with `...` to import it"
        ),
        _ => format!(in alloc; "it is a {desc}: give it, or end with `...` to import it"),
    }
}

/// Appends what there is to be given for an import of a name, before a place.
fn push_source(
    alloc: Global,
    context: Context<'_>,
    out: &mut String,
    name: &str,
    place: SourceSpan,
) -> Result<(), AllocError> {
    match earlier_source(alloc, context, name, place)? {
        None => Ok(()),
        Some(source) => {
            out.push_str("; ")?;
            out.push_str(source.as_str())
        }
    }
}

/// What there is to be given for an import of a name, before a place.
fn earlier_source(
    alloc: Global,
    context: Context<'_>,
    name: &str,
    place: SourceSpan,
) -> Result<Option<String>, AllocError> {
    match graph_before(alloc, context, place, "")? {
        None => Ok(None),
        Some(graph) => source_of(alloc, &graph, name),
    }
}

/// What the package of an argument imports in place of the argument's name.
pub(crate) fn imports_help(
    alloc: Global,
    context: Context<'_>,
    name: &str,
    place: SourceSpan,
) -> Result<Option<String>, AllocError> {
    let Some((key, package)) = context.package_around(place) else {
        return Ok(None);
    };
    match imports(package) {
        None => Ok(None),
        Some(items) => Ok(Some(instead(alloc, key, items, name)?)),
    }
}

/// What a package imports.
pub(crate) fn imports(package: &Package) -> Option<&IndexMap<String, ItemKind>> {
    package.types().imports(package.world())
}

/// What a package imports in place of a name.
fn instead(
    alloc: Global,
    key: &PackageKey,
    items: &IndexMap<String, ItemKind>,
    name: &str,
) -> Result<String, AllocError> {
    let mut help = String::from_str(alloc, "`")?;
    push_key(&mut help, key)?;
    help.push_str("` imports")?;
    push_instead(alloc, &mut help, items, name)?;
    Ok(help)
}

/// Appends what there is in place of a name: the same in another version, or the nearest names.
pub(crate) fn push_instead(
    alloc: Global,
    out: &mut String,
    items: &IndexMap<String, ItemKind>,
    name: &str,
) -> Result<(), AllocError> {
    if let Some(other) = compatible_name(items, name) {
        return write!(out, " `{other}`: {EXACTLY}; write `\"{other}\"`");
    }
    match same_but_version(items, name) {
        Some(other) => write!(out, " `{other}`"),
        None => push_near(alloc, out, items, name),
    }
}
