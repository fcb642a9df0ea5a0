//! Helps for accesses to exports that aren't there.

use crate::context::Context;
use crate::items::{graph_with_item, item_exports};
use crate::sources::EXACTLY;
use indexmap::IndexMap;
use std::alloc::{AllocError, Global};
use wac_graph::{CompositionGraph, ItemKind};
use wac_lexer::SourceSpan;
use wac_package_names::{compatible_name, push_near, same_but_version};

/// What an instance exports in place of what an access at a place names.
pub(crate) fn exports_help(
    alloc: Global,
    context: Context<'_>,
    name: &str,
    place: SourceSpan,
) -> Result<Option<String>, AllocError> {
    match context.news.access_start(place) {
        None => Ok(None),
        Some(start) => {
            let instance = context.between(start, place.offset());
            instance_help(alloc, context, instance, name, place)
        }
    }
}

/// What the instance of an expression before a place exports in place of a name.
fn instance_help(
    alloc: Global,
    context: Context<'_>,
    instance: &str,
    name: &str,
    place: SourceSpan,
) -> Result<Option<String>, AllocError> {
    match graph_with_item(alloc, context, instance, place)? {
        None => Ok(None),
        Some(graph) => exported(alloc, &graph, shown(instance), name),
    }
}

/// An expression as a help has it.
fn shown(instance: &str) -> &str {
    if instance.contains('{') {
        "(..)"
    } else {
        instance
    }
}

/// What the instance exports in place of a name.
fn exported(
    alloc: Global,
    graph: &CompositionGraph,
    instance: &str,
    name: &str,
) -> Result<Option<String>, AllocError> {
    match item_exports(graph) {
        None => Ok(None),
        Some(items) => Ok(Some(items_help(alloc, items, instance, name)?)),
    }
}

/// What there is in place of a name: the same in another version, or the nearest names.
fn items_help(
    alloc: Global,
    items: &IndexMap<String, ItemKind>,
    instance: &str,
    name: &str,
) -> Result<String, AllocError> {
    if let Some(other) = compatible_name(items, name) {
        return format!(in alloc; "{EXACTLY}: write `{instance}[\"{other}\"]`");
    }
    match same_but_version(items, name) {
        Some(other) => format!(in alloc; "`{instance}` has `{other}`"),
        None => nearest_help(alloc, items, instance, name),
    }
}

/// The names that are nearest to a name.
fn nearest_help(
    alloc: Global,
    items: &IndexMap<String, ItemKind>,
    instance: &str,
    name: &str,
) -> Result<String, AllocError> {
    let mut help = format!(in alloc; "`{instance}` has")?;
    push_near(alloc, &mut help, items, name)?;
    Ok(help)
}
