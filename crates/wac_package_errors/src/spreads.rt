//! Helps for spreads that give nothing.

use crate::arguments::imports;
use crate::context::Context;
use crate::items::{graph_with_item, item_exports};
use crate::sources::compatible_argument;
use crate::texts::text_at;
use indexmap::IndexMap;
use std::alloc::{AllocError, Global};
use wac_graph::{CompositionGraph, ItemKind, PackageKey};
use wac_lexer::SourceSpan;
use wac_package_names::{compatible_name, push_all, push_key};

/// A package with what it imports.
#[derive(Clone, Copy)]
struct Importer<'i> {
    key: &'i PackageKey,
    imports: &'i IndexMap<String, ItemKind>,
}

/// What the package around a spread imports, and how an export under a compatible name is given.
pub(crate) fn spread_help(
    alloc: Global,
    context: Context<'_>,
    place: SourceSpan,
) -> Result<Option<String>, AllocError> {
    let Some((key, package)) = context.package_around(place) else {
        return Ok(None);
    };
    match imports(package) {
        None => Ok(None),
        Some(imports) => spread_into(alloc, context, place, Importer { key, imports }),
    }
}

/// The same of a spread for a package.
fn spread_into(
    alloc: Global,
    context: Context<'_>,
    place: SourceSpan,
    importer: Importer<'_>,
) -> Result<Option<String>, AllocError> {
    let instance = text_at(context.text, place);
    match graph_with_item(alloc, context, instance, place)? {
        None => Ok(None),
        Some(graph) => spread_of(alloc, &graph, instance, importer),
    }
}

/// What an instance exports and a package imports, or how an export is given for an import of a compatible name.
fn spread_of(
    alloc: Global,
    graph: &CompositionGraph,
    instance: &str,
    importer: Importer<'_>,
) -> Result<Option<String>, AllocError> {
    let Some(exports) = item_exports(graph) else {
        return Ok(None);
    };
    for (name, _) in importer.imports.iter() {
        if let Some(other) = compatible_name(exports, name.as_str()) {
            let help = compatible_argument(alloc, name.as_str(), instance, other)?;
            return Ok(Some(help));
        }
    }
    Ok(Some(both_lists(alloc, instance, exports, importer)?))
}

/// What an instance exports, and what a package imports.
fn both_lists(
    alloc: Global,
    instance: &str,
    exports: &IndexMap<String, ItemKind>,
    importer: Importer<'_>,
) -> Result<String, AllocError> {
    let mut help = format!(in alloc; "`{instance}` exports")?;
    push_all(&mut help, exports)?;
    help.push_str("; `")?;
    push_key(&mut help, importer.key)?;
    help.push_str("` imports")?;
    push_all(&mut help, importer.imports)?;
    Ok(help)
}
