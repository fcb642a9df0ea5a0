//! The packages that can stand at an offset, and the paths in them.
use crate::offering::{Offer, Offered, Offers, exports_along, sort_of};
use crate::roots::Seen;
use indexmap::IndexMap;
use std::alloc::{AllocError, Global};
use wac_completion::PackageWord;
use wac_components_words::identifier;
use wac_graph::{ItemKind, Package, PackageKey, Type};

/// What a path leads through before its last name.
#[derive(Clone, Copy)]
struct Parent<'t> {
    /// The package's name, without its version.
    package: &'t str,
    /// The names after it, with `/` between them: none where the last one is a definition of the package.
    segments: &'t str,
}

/// What a path that is begun leads through: none where only the name of a package is begun.
fn parent_of(written: &str) -> Option<Parent<'_>> {
    let names = match written.split_once('@') {
        Some((names, _)) => names,
        None => written,
    };
    let (package, rest) = names.split_once('/')?;
    let segments = match rest.rsplit_once('/') {
        Some((segments, _)) => segments,
        None => "",
    };
    Some(Parent { package, segments })
}

/// What a definition of a package is.
fn definition_sort(kind: ItemKind) -> Offered {
    match kind {
        ItemKind::Ty(Type::Interface(_)) => Offered::Instance,
        ItemKind::Ty(Type::World(_)) => Offered::Package,
        _ => sort_of(kind),
    }
}

/// A name of a package with its version, if it has one.
fn with_version(alloc: Global, name: &str, key: &PackageKey) -> Result<String, AllocError> {
    match &key.version {
        Some(version) => format!(in alloc; "{name}@{version}"),
        None => String::from_str(alloc, name),
    }
}

/// Something that is offered under the text that is written.
fn offer(alloc: Global, written: String, what: Offered) -> Result<Offer, AllocError> {
    let detail = String::from_str(alloc, written.as_str())?;
    Ok(Offer {
        written,
        detail,
        what,
    })
}

/// The path of a name that is exported along segments of a package.
fn path_text(
    alloc: Global,
    key: &PackageKey,
    segments: &str,
    name: &str,
) -> Result<String, AllocError> {
    let mut path = String::from_str(alloc, key.name.as_str())?;
    path.push('/')?;
    if !segments.is_empty() {
        path.push_str(segments)?;
        path.push('/')?;
    }
    path.push_str(name)?;
    with_version(alloc, path.as_str(), key)
}

/// What a package exports along segments: its definitions, where there are none.
fn names_along<'p>(package: &'p Package, segments: &str) -> Option<&'p IndexMap<String, ItemKind>> {
    if segments.is_empty() {
        return Some(package.definitions());
    }
    exports_along(package, segments)
}

/// Adds the paths of what a package exports along segments, in its order. A name that is no identifier has no path.
fn add_paths(
    alloc: Global,
    offers: &mut Vec<Offer>,
    key: &PackageKey,
    package: &Package,
    segments: &str,
) -> Result<(), AllocError> {
    let Some(names) = names_along(package, segments) else {
        return Ok(());
    };
    for (name, kind) in names {
        if identifier(alloc, name.as_str())?.is_some() {
            let path = path_text(alloc, key, segments, name.as_str())?;
            offers.push(offer(alloc, path, definition_sort(*kind))?)?;
        }
    }
    Ok(())
}

impl<'w> Seen<'w> {
    /// The packages, each by its name with the version.
    fn all_packages(self, alloc: Global) -> Result<Vec<Offer>, AllocError> {
        let mut offers = Vec::new(alloc);
        for (key, _) in self.known_packages() {
            let name = with_version(alloc, key.name.as_str(), key)?;
            offers.push(offer(alloc, name, Offered::Package)?)?;
        }
        Ok(offers)
    }

    /// The paths of all definitions of all packages.
    fn all_paths(self, alloc: Global) -> Result<Vec<Offer>, AllocError> {
        let mut offers = Vec::new(alloc);
        for (key, package) in self.known_packages() {
            add_paths(alloc, &mut offers, key, package, "")?;
        }
        Ok(offers)
    }

    /// The paths through a parent, in each version of its package.
    fn paths_through(self, alloc: Global, parent: Parent<'_>) -> Result<Vec<Offer>, AllocError> {
        let mut offers = Vec::new(alloc);
        for (key, package) in self.known_packages() {
            if key.name.as_str() == parent.package {
                add_paths(alloc, &mut offers, key, package, parent.segments)?;
            }
        }
        Ok(offers)
    }

    /// The names of packages and the paths that can stand in the place of what is written.
    pub(crate) fn named_packages(
        self,
        alloc: Global,
        word: PackageWord<'_>,
    ) -> Result<Offers, AllocError> {
        let mut all = if word.may_be_name {
            self.all_packages(alloc)?
        } else {
            Vec::new(alloc)
        };
        if word.may_be_path {
            let paths = match parent_of(word.text) {
                Some(parent) => self.paths_through(alloc, parent)?,
                None => self.all_paths(alloc)?,
            };
            for path in paths {
                all.push(path)?;
            }
        }
        Ok(Offers {
            start: Some(word.start),
            all,
        })
    }
}
