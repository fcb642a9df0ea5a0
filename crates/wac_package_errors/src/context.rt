//! What is known of a document that is resolved with packages.

use crate::known::KnownPackages;
use crate::texts::end_of;
use indexmap::IndexMap;
use std::alloc::{AllocError, Global};
use wac_ast::PackageDirective;
use wac_declared_packages::supplied_packages;
use wac_graph::{Package, PackageKey};
use wac_lexer::SourceSpan;
use wac_package_names::Instantiations;

/// What is known of a document that is resolved with packages.
#[derive(Clone, Copy)]
pub(crate) struct Context<'c> {
    pub text: &'c str,
    /// The end of the package's name.
    pub target_start: usize,
    /// The end of the `targets` clause; that of the name where there is none.
    pub target_end: usize,
    /// The packages that it mentions, each with its first place.
    pub mentioned: &'c IndexMap<PackageKey, SourceSpan>,
    pub news: &'c Instantiations,
    pub known: KnownPackages<'c>,
}

/// Where the `targets` clause of a document ends, or the package's name where it has none.
pub(crate) fn target_end(directive: &PackageDirective<'_>) -> usize {
    match &directive.targets {
        None => end_of(directive.package.span),
        Some(path) => end_of(path.span),
    }
}

impl<'c> Context<'c> {
    /// The text between two offsets, without blanks at its ends.
    pub(crate) fn between(self, start: usize, end: usize) -> &'c str {
        self.text.get(start..end).unwrap_or("").trim()
    }

    /// The package of the innermost instantiation around a place, with its key.
    pub(crate) fn package_around(self, place: SourceSpan) -> Option<(&'c PackageKey, &'c Package)> {
        let new = self.news.around(place)?;
        let package = self.known.package(&new.key)?;
        Some((&new.key, package))
    }

    /// Copies of the packages that the document mentions, of those that are declared.
    pub(crate) fn supplied(
        self,
        alloc: Global,
    ) -> Result<IndexMap<PackageKey, Package>, AllocError> {
        match supplied_packages(alloc, self.mentioned, &self.known.declared.packages) {
            Ok(supplied) => Ok(supplied),
            // A copy of a package is a package, so only memory runs out.
            Err(_) => Err(AllocError),
        }
    }
}
