//! Resolving a document into a graph.

use indexmap::IndexMap;
use std::alloc::Global;
use wac_graph::{CompositionGraph, Package, PackageKey, Rules};
use wac_printer::Page;
use wac_resolution::{Error, resolve_graph};

/// The graph of a document that is resolved with these packages and by these rules, or the rule that it breaks first.
/// The packages are dropped.
pub fn graph_with<R: Rules>(
    page: Page<'_, '_>,
    alloc: Global,
    packages: IndexMap<PackageKey, Package>,
    rules: &R,
) -> Result<CompositionGraph, Error> {
    let Page { document } = page;
    resolve_graph(alloc, document, packages, rules)
}
