//! Where the names of worlds and interfaces are declared.
use crate::named::{Named, whole};
use crate::searching::{declared_at, declared_within, item_after};
use std::alloc::{AllocError, Global};
use wac_graph::PackageKey;
use wac_lexer::{SourceSpan, Token};
use wac_package_names::key_named;

/// What has names.
#[derive(Clone, Copy)]
pub(crate) enum Place<'n> {
    /// The world of a package.
    World {
        /// The package, with its version.
        package: &'n str,
        /// The keyword that begins an item: `import` or `export`.
        keyword: Token,
    },
    /// An item of such a world, whose interface is written there.
    Item {
        /// The package, with its version.
        package: &'n str,
        /// The keyword that begins the item.
        keyword: Token,
        /// The item's name.
        item: &'n str,
    },
    /// An interface, by its path.
    Interface(&'n str),
}

impl<'n> Place<'n> {
    /// What has the names that are after one of these: a path is that of an interface.
    pub(crate) fn after(self, name: &'n str) -> Place<'n> {
        if name.contains('/') {
            return Place::Interface(name);
        }
        match self {
            Place::World { package, keyword } => Place::Item {
                package,
                keyword,
                item: name,
            },
            other => other,
        }
    }

    /// The key of the package that declares it.
    pub(crate) fn key(self, alloc: Global) -> Result<PackageKey, AllocError> {
        match self {
            Place::World { package, .. } | Place::Item { package, .. } => {
                key_named(alloc, package)
            }
            Place::Interface(path) => whole(path).key(alloc),
        }
    }

    /// Where a text of its package declares a name of it: where it has no such name, the place itself.
    pub(crate) fn declares(self, text: &str, name: &str) -> Option<SourceSpan> {
        match self {
            Place::World { keyword, .. } => item_after(text, keyword, name),
            Place::Item { keyword, item, .. } => {
                let outer = item_after(text, keyword, item)?;
                Some(declared_within(text, outer, name).unwrap_or(outer))
            }
            Place::Interface(path) => declared_in(text, path, name),
        }
    }

    /// Where a text of its package declares the place itself. That of a world isn't told.
    pub(crate) fn declared(self, text: &str) -> Option<SourceSpan> {
        match self {
            Place::World { .. } => None,
            Place::Item { keyword, item, .. } => item_after(text, keyword, item),
            Place::Interface(path) => interface_in(text, path),
        }
    }
}

/// Where a text declares an interface of a path.
fn interface_in<'n>(text: &'n str, path: &'n str) -> Option<SourceSpan> {
    declared_at(text, &whole(path))
}

/// Where a text declares a name of an interface of a path: where it has no such name, the interface.
fn declared_in<'n>(text: &'n str, path: &'n str, name: &'n str) -> Option<SourceSpan> {
    let interface = whole(path);
    let named = Named {
        package: interface.package,
        version: interface.version,
        segments: interface.segments,
        item: Some(name),
    };
    declared_at(text, &named)
}
