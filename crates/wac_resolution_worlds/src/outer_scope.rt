//! What surrounds an interface or a world.

use wac_graph::ItemKind;
use wac_resolution_state::{Context, Names};

/// What surrounds an interface or a world: the document's context, and the names at root.
#[derive(Clone, Copy)]
pub struct OuterScope<'s> {
    /// The document's own package, and the packages that were supplied.
    pub context: &'s Context<'s>,
    /// What identifiers denote at root.
    pub root: &'s Names<'s, ItemKind>,
}
