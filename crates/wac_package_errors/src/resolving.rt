//! Resolving a document with the packages that it mentions.

use crate::context::Context;
use std::alloc::Global;
use wac_composition::graph_with;
use wac_graph::{CompositionGraph, Rules};
use wac_printer::Page;
use wac_resolution_errors::Error;

/// The graph of a document that is resolved with copies of the packages that it mentions, or the rule that it breaks
/// first.
pub(crate) fn graph_of<R: Rules>(
    page: Page<'_, '_>,
    alloc: Global,
    context: Context<'_>,
    rules: &R,
) -> Result<CompositionGraph, Error> {
    match context.supplied(alloc) {
        Ok(packages) => graph_with(page, alloc, packages, rules),
        Err(refused) => Err(Error::Memory(refused)),
    }
}
