//! What a document is resolved in.

use indexmap::IndexMap;
use wac_graph::{Package, PackageKey};

/// What a document is resolved in: its own package, and the packages that were supplied.
#[derive(Clone, Copy)]
pub struct Context<'s> {
    /// The name of the document's own package.
    pub own: &'s str,
    /// Its version.
    pub version: Option<&'s str>,
    /// The supplied packages.
    pub packages: &'s IndexMap<PackageKey, Package>,
}
