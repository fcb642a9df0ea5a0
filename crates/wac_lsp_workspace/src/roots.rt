//! What is known for documents, by the folders in which components are looked for.
use crate::contents::ComponentPackage;
use crate::packages::Packages;
use crate::sources::Source;
use indexmap::IndexMap;
use wac_graph::{Package, PackageKey};
use wac_package_errors::KnownPackages;

/// The folders in which components are looked for, for some documents.
#[derive(Drop)]
pub(crate) struct Root {
    pub(crate) folders: Vec<String>,
    pub(crate) components: Vec<ComponentPackage>,
    /// The packages that are known with them.
    pub(crate) packages: Packages,
}

/// What is known for a document: the packages that it can mention, and where they are declared.
#[derive(Clone, Copy)]
pub struct Seen<'w> {
    pub(crate) sources: &'w [Source],
    pub(crate) components: &'w [ComponentPackage],
    pub(crate) packages: &'w Packages,
}

impl<'w> Seen<'w> {
    /// The components.
    pub(crate) fn components(self) -> &'w [ComponentPackage] {
        self.components
    }

    /// The packages, and which files have them.
    pub(crate) fn known(self) -> KnownPackages<'w> {
        self.packages.known()
    }

    /// The packages, those without an error.
    pub(crate) fn known_packages(self) -> &'w IndexMap<PackageKey, Package> {
        &self.packages.known().declared.packages
    }

    /// The document that declares a package, or is to.
    pub(crate) fn source_of(self, key: &PackageKey) -> Option<&'w Source> {
        let number = self.packages.source_of(key)?;
        self.sources.get(number)
    }
}
