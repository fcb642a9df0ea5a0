//! What names of packages denote.
use crate::offering::{exports_of, instance_of, key_of, place_of};
use crate::places::Place;
use crate::roots::Seen;
use indexmap::IndexMap;
use std::alloc::{AllocError, Global};
use wac_completion::{Foreign, ForeignName, Origin};
use wac_graph::{ItemKind, Package};
use wac_lexer::Token;
use wac_package_names::key_named;

/// What a name denotes.
#[derive(Clone, Copy)]
pub(crate) struct Denoted<'n> {
    pub(crate) place: Place<'n>,
    /// Its name there: none where it is the place itself.
    pub(crate) name: Option<&'n str>,
}

/// The names that an instance exports, and where they are declared.
#[derive(Clone, Copy)]
pub(crate) struct Level<'n> {
    pub(crate) place: Place<'n>,
    pub(crate) names: &'n IndexMap<String, ItemKind>,
}

/// The items of a package's world that begin with a keyword.
pub(crate) fn world_of(package: &str, keyword: Token) -> Place<'_> {
    Place::World { package, keyword }
}

/// What an origin's exports are in.
fn place_in(origin: Origin<'_>) -> Place<'_> {
    match origin {
        Origin::Package(package) => world_of(package, Token::ExportKeyword),
        Origin::Interface(path) => Place::Interface(path),
    }
}

impl<'n> Level<'n> {
    /// What is after a name that is written.
    fn after(self, package: &'n Package, written: &str) -> Option<Level<'n>> {
        let (name, kind) = self.names.get_index(place_of(self.names, written)?)?;
        let place = self.place.after(name.as_str());
        let names = exports_of(package, *kind)?;
        Some(Level { place, names })
    }

    /// What a name that is written denotes: a path is that of an interface.
    fn denoted(self, written: &str) -> Option<Denoted<'n>> {
        let (name, _) = self.names.get_index(place_of(self.names, written)?)?;
        let name = name.as_str();
        if name.contains('/') {
            return Some(Denoted {
                place: Place::Interface(name),
                name: None,
            });
        }
        Some(Denoted {
            place: self.place,
            name: Some(name),
        })
    }
}

/// What is after names that are written, from the instances of an origin on, of which this is the package.
pub(crate) fn level_after<'n>(
    package: &'n Package,
    origin: Origin<'n>,
    along: &[&str],
) -> Option<Level<'n>> {
    let mut level = Level {
        place: place_in(origin),
        names: exports_of(package, instance_of(package, origin)?)?,
    };
    for written in along {
        level = level.after(package, written)?;
    }
    Some(level)
}

/// The imports of a package, whose name with its version this is.
pub(crate) fn imports_of<'n>(package: &'n Package, named: &'n str) -> Option<Level<'n>> {
    Some(Level {
        place: world_of(named, Token::ImportKeyword),
        names: package.types().imports(package.world())?,
    })
}

impl<'w> Seen<'w> {
    /// What a name of a package denotes. A type that is used is found by its path.
    pub(crate) fn denoted_by(
        self,
        alloc: Global,
        found: &ForeignName<'w>,
    ) -> Result<Option<Denoted<'w>>, AllocError> {
        match &found.foreign {
            Foreign::Argument { package, .. } => {
                let key = key_named(alloc, package)?;
                match self.package(&key) {
                    Some(supplied) => Ok(import_of(supplied, package, found.name)),
                    None => Ok(None),
                }
            }
            Foreign::Export { origin, along } => {
                let key = key_of(alloc, *origin)?;
                match self.package(&key) {
                    Some(supplied) => {
                        Ok(export_of(supplied, *origin, along.as_slice(), found.name))
                    }
                    None => Ok(None),
                }
            }
            Foreign::UsedType { .. } => Ok(None),
        }
    }
}

/// What an import of a package denotes.
fn import_of<'n>(package: &'n Package, named: &'n str, written: &str) -> Option<Denoted<'n>> {
    imports_of(package, named)?.denoted(written)
}

/// What an export denotes, after names that are written.
fn export_of<'n>(
    package: &'n Package,
    origin: Origin<'n>,
    along: &[&str],
    written: &str,
) -> Option<Denoted<'n>> {
    level_after(package, origin, along)?.denoted(written)
}
