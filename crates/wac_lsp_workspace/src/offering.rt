//! The names of packages that can stand at an offset.
use crate::denoting::{Level, imports_of, level_after};
use crate::details::{Declared, detail};
use crate::named::{named_in, segments_of};
use crate::places::Place;
use crate::roots::Seen;
use indexmap::IndexMap;
use std::alloc::{AllocError, Global};
use wac_completion::{Asked, Foreign, Origin, foreign_at, package_at};
use wac_components_words::identifier;
use wac_graph::{ItemKind, Package, PackageKey, Type};
use wac_package_names::key_named;

/// What a name of a package stands for.
#[derive(Clone, Copy, Debug, PartialEq, Eq)]
pub enum Offered {
    /// A function.
    Function,
    /// An instance.
    Instance,
    /// A type.
    Type,
    /// A package, or a world of one.
    Package,
    /// Something else.
    Other,
}

/// A name of a package that can stand at an offset.
#[derive(Drop)]
pub struct Offer {
    /// The name as it is written there: an identifier, or between quotes where none denotes it.
    pub written: String,
    /// What is shown beside it: its type where a text declares it, and else the name that the package has.
    pub detail: String,
    /// What it stands for.
    pub what: Offered,
}

/// The names of packages that can stand at an offset.
#[derive(Drop)]
pub struct Offers {
    /// Where what they replace begins, if that isn't the beginning of the word at the offset.
    pub start: Option<usize>,
    /// The names.
    pub all: Vec<Offer>,
}

/// What a name of this kind stands for.
pub(crate) fn sort_of(kind: ItemKind) -> Offered {
    match kind {
        ItemKind::Func(_) => Offered::Function,
        ItemKind::Instance(_) => Offered::Instance,
        ItemKind::Ty(_) => Offered::Type,
        _ => Offered::Other,
    }
}

/// The text of an id after its last `/` and before `@`, and of any other name the name itself.
fn last_part(name: &str) -> &str {
    match name.rsplit_once('/') {
        Some((_, last)) => match last.split_once('@') {
            Some((front, _)) => front,
            None => last,
        },
        None => name,
    }
}

/// Whether a name that is written already stands for one of a package.
fn is_given(given: &[&str], name: &str) -> bool {
    given.iter().any(|written| {
        let plain = written.strip_prefix('%').unwrap_or(written);
        plain == name || plain == last_part(name)
    })
}

/// Whether no other name of a package ends as one does.
fn is_only(names: &IndexMap<String, ItemKind>, name: &str) -> bool {
    let mut count = 0usize;
    for (other, _) in names {
        if last_part(other.as_str()) == last_part(name) {
            count = count.saturating_add(1);
        }
    }
    count < 2
}

/// How a name is written.
#[derive(Clone, Copy, Debug, PartialEq, Eq)]
enum Form {
    /// As an identifier, if there is one for it.
    Identifier,
    /// As an identifier, and between quotes where there is none.
    Either,
    /// Between quotes.
    Quoted,
    /// Between quotes, of which the second one is there already.
    BeforeQuote,
}

/// The identifier that denotes a name of a package: it denotes the only name that ends with it.
fn identifier_of(
    alloc: Global,
    names: &IndexMap<String, ItemKind>,
    name: &str,
) -> Result<Option<String>, AllocError> {
    if is_only(names, name) {
        return identifier(alloc, last_part(name));
    }
    Ok(None)
}

/// How a name of a package is written. `None` where it has no such form.
fn written(
    alloc: Global,
    names: &IndexMap<String, ItemKind>,
    name: &str,
    form: Form,
) -> Result<Option<String>, AllocError> {
    match form {
        Form::Identifier => identifier_of(alloc, names, name),
        Form::Either => match identifier_of(alloc, names, name)? {
            Some(found) => Ok(Some(found)),
            None => Ok(Some(format!(in alloc; "\"{name}\"")?)),
        },
        Form::Quoted => Ok(Some(format!(in alloc; "\"{name}\"")?)),
        Form::BeforeQuote => Ok(Some(format!(in alloc; "\"{name}")?)),
    }
}

/// What is offered of the names of a package.
#[derive(Clone, Copy)]
struct Wanted<'g> {
    /// The names that are written already.
    given: &'g [&'g str],
    /// Whether types alone are offered.
    types_alone: bool,
    form: Form,
    /// The text that declares the names.
    declared: Option<Declared<'g>>,
}

impl<'g> Wanted<'g> {
    /// All names but those that are written already.
    fn but(given: &'g [&'g str], form: Form) -> Wanted<'g> {
        Wanted {
            given,
            types_alone: false,
            form,
            declared: None,
        }
    }

    /// The names of types but those that are written already.
    fn types_but(given: &'g [&'g str], form: Form) -> Wanted<'g> {
        Wanted {
            given,
            types_alone: true,
            form,
            declared: None,
        }
    }

    /// Whether a name is offered.
    fn has(&self, name: &str, kind: ItemKind) -> bool {
        let is_sort = !self.types_alone || sort_of(kind) == Offered::Type;
        is_sort && !is_given(self.given, name)
    }

    /// The names that are offered, in the order of the package.
    fn of(
        &self,
        alloc: Global,
        names: &IndexMap<String, ItemKind>,
    ) -> Result<Vec<Offer>, AllocError> {
        let mut offers = Vec::new(alloc);
        for (name, kind) in names {
            if !self.has(name.as_str(), *kind) {
                continue;
            }
            if let Some(written) = written(alloc, names, name.as_str(), self.form)? {
                offers.push(Offer {
                    written,
                    detail: detail(alloc, self.declared, name.as_str())?,
                    what: sort_of(*kind),
                })?;
            }
        }
        Ok(offers)
    }
}

/// What is exported along a path of names with `/` between them, from the definitions of a package on.
pub(crate) fn exports_along<'p>(
    package: &'p Package,
    segments: &str,
) -> Option<&'p IndexMap<String, ItemKind>> {
    let mut names = package.definitions();
    for segment in segments.split('/') {
        let kind = *names.get(segment)?;
        names = package.types().exports(kind)?;
    }
    Some(names)
}

/// The place of the name that a written one denotes among those of a package: itself, and else the one that ends with it.
pub(crate) fn place_of(names: &IndexMap<String, ItemKind>, written: &str) -> Option<usize> {
    let plain = written.strip_prefix('%').unwrap_or(written);
    match names.get_index_of(plain) {
        Some(at) => Some(at),
        None => names
            .iter()
            .position(|(name, _)| last_part(name.as_str()) == plain),
    }
}

/// What a path of names with `/` between them leads to.
fn kind_along(package: &Package, segments: &str) -> Option<ItemKind> {
    let found = match segments.rsplit_once('/') {
        Some((front, last)) => exports_along(package, front)?.get(last)?,
        None => package.definitions().get(segments)?,
    };
    Some(*found)
}

/// The kind of the instances of an origin, of which this is the package. An import of something else than an interface is
/// none.
pub(crate) fn instance_of(package: &Package, origin: Origin<'_>) -> Option<ItemKind> {
    match origin {
        Origin::Package(_) => Some(ItemKind::Instance(package.instance())),
        Origin::Interface(path) => match kind_along(package, segments_of(path))? {
            ItemKind::Ty(Type::Interface(id)) => Some(ItemKind::Instance(id)),
            _ => None,
        },
    }
}

/// What an instance exports. Of other kinds nothing is asked.
pub(crate) fn exports_of(package: &Package, kind: ItemKind) -> Option<&IndexMap<String, ItemKind>> {
    match kind {
        ItemKind::Instance(_) => package.types().exports(kind),
        _ => None,
    }
}

/// The names that an interface of a package exports.
fn defined_at<'p>(package: &'p Package, path: &'p str) -> Option<Level<'p>> {
    Some(Level {
        place: Place::Interface(path),
        names: exports_along(package, segments_of(path))?,
    })
}

/// The name of the package, with its version, that an origin's instances are of.
pub(crate) fn named_by(origin: Origin<'_>) -> Option<&str> {
    match origin {
        Origin::Package(package) => Some(package),
        Origin::Interface(_) => None,
    }
}

/// The key of the package of an origin.
pub(crate) fn key_of(alloc: Global, origin: Origin<'_>) -> Result<PackageKey, AllocError> {
    match origin {
        Origin::Package(package) => key_named(alloc, package),
        Origin::Interface(path) => named_in(path, path.len()).key(alloc),
    }
}

/// The form of a name that begins with the quote of a string, with what follows it.
fn form_before(rest: &str) -> Form {
    if rest.starts_with('"') {
        Form::BeforeQuote
    } else {
        Form::Quoted
    }
}

/// The form of a name of a foreign package that begins with no quote.
fn form_of(foreign: &Foreign<'_>) -> Form {
    match foreign {
        Foreign::Argument { .. } => Form::Either,
        _ => Form::Identifier,
    }
}

impl<'w> Seen<'w> {
    /// The package of a key.
    pub(crate) fn package(self, key: &PackageKey) -> Option<&'w Package> {
        self.known_packages().get(key)
    }

    /// The text that declares the names of a place, if their types are to be shown.
    fn declared_in(
        self,
        alloc: Global,
        level: Level<'w>,
        owner: Option<&str>,
    ) -> Result<Option<Declared<'w>>, AllocError> {
        let key = level.place.key(alloc)?;
        let Some(declaring) = self.declaring(&key, owner) else {
            return Ok(None);
        };
        let declared = Declared {
            text: declaring.text,
            place: level.place,
        };
        if !declared.has_few(level.names.len()) {
            return Ok(None);
        }
        Ok(Some(declared))
    }

    /// The names of a place that are wanted.
    fn names_of(
        self,
        alloc: Global,
        level: Option<Level<'w>>,
        owner: Option<&str>,
        mut wanted: Wanted<'w>,
    ) -> Result<Vec<Offer>, AllocError> {
        let Some(level) = level else {
            return Ok(Vec::new(alloc));
        };
        match self.declared_in(alloc, level, owner) {
            Ok(declared) => {
                wanted.declared = declared;
                wanted.of(alloc, level.names)
            }
            Err(error) => Err(error),
        }
    }

    /// The imports of a package that are wanted.
    fn arguments(
        self,
        alloc: Global,
        package: &'w str,
        wanted: Wanted<'w>,
    ) -> Result<Vec<Offer>, AllocError> {
        let key = key_named(alloc, package)?;
        match self.package(&key) {
            Some(supplied) => {
                let level = imports_of(supplied, package);
                self.names_of(alloc, level, Some(package), wanted)
            }
            None => Ok(Vec::new(alloc)),
        }
    }

    /// The exports of an instance that are wanted.
    fn exports(
        self,
        alloc: Global,
        origin: Origin<'w>,
        along: &[&str],
        wanted: Wanted<'w>,
    ) -> Result<Vec<Offer>, AllocError> {
        let key = key_of(alloc, origin)?;
        match self.package(&key) {
            Some(package) => {
                let level = level_after(package, origin, along);
                self.names_of(alloc, level, named_by(origin), wanted)
            }
            None => Ok(Vec::new(alloc)),
        }
    }

    /// The types of an interface of a package that are wanted.
    fn types(
        self,
        alloc: Global,
        path: &'w str,
        wanted: Wanted<'w>,
    ) -> Result<Vec<Offer>, AllocError> {
        let key = named_in(path, path.len()).key(alloc)?;
        match self.package(&key) {
            Some(package) => self.names_of(alloc, defined_at(package, path), None, wanted),
            None => Ok(Vec::new(alloc)),
        }
    }

    /// What of a package can stand at an offset, in a form: arguments that aren't given yet, and types that aren't used.
    fn foreign(
        self,
        alloc: Global,
        foreign: &Foreign<'_>,
        form: Form,
    ) -> Result<Vec<Offer>, AllocError> {
        match foreign {
            Foreign::Argument { package, given } => {
                self.arguments(alloc, package, Wanted::but(given.as_slice(), form))
            }
            Foreign::Export { origin, along } => {
                self.exports(alloc, *origin, along.as_slice(), Wanted::but(&[], form))
            }
            Foreign::UsedType { path, given } => {
                self.types(alloc, path, Wanted::types_but(given.as_slice(), form))
            }
        }
    }

    /// What of a package is asked for, in front of a text.
    fn offered(self, alloc: Global, asked: &Asked<'_>, rest: &str) -> Result<Offers, AllocError> {
        let form = match asked.quote {
            Some(_) => form_before(rest),
            None => form_of(&asked.foreign),
        };
        Ok(Offers {
            start: asked.quote,
            all: self.foreign(alloc, &asked.foreign, form)?,
        })
    }

    /// The names of packages and the paths that can stand at an offset.
    fn packages_at(self, alloc: Global, text: &str, offset: usize) -> Result<Offers, AllocError> {
        match package_at(alloc, text, offset) {
            Ok(Some(word)) => self.named_packages(alloc, word),
            Ok(None) => Ok(Offers {
                start: None,
                all: Vec::new(alloc),
            }),
            Err(error) => Err(error),
        }
    }

    /// The names of packages of the folders that can stand at an offset of a text, in bytes: in the braces of an instance
    /// the imports of its package that have no argument yet, after a dot the exports of an instance, and in the braces of
    /// a `use` the types of the interface. All of them are returned, whatever word is at the offset. A name that `let` binds
    /// is one of an instance, and so is one that `import` binds with the path of an interface. In a string that is open they
    /// are written between quotes, and replace the string: where a quote follows the offset, that is their second one.
    ///
    /// Where the name of a package can stand, they are the packages with their versions, and where a path can, the paths
    /// of all that they define: those of one package, where its name and a slash are written. They replace all that is
    /// written of the name.
    ///
    /// ```text
    /// workspace.names_at(alloc, "package a:b; let x = new c:d { ", 31)?;      // `log`, if c:d imports it
    /// workspace.names_at(alloc, "package a:b; import x: c:d/e; export x[\"", 40)?; // `"f"` from the quote on, if c:d/e has it
    /// workspace.names_at(alloc, "package a:b; let x = new c:", 27)?;          // `c:d`, from 25 on
    /// workspace.names_at(alloc, "package a:b; import x: c:d/", 27)?;          // `c:d/log`, from 23 on
    /// ```
    pub fn names_at(self, alloc: Global, text: &str, offset: usize) -> Result<Offers, AllocError> {
        match foreign_at(alloc, text, offset) {
            Ok(Some(asked)) => self.offered(alloc, &asked, text.get(offset..).unwrap_or("")),
            Ok(None) => self.packages_at(alloc, text, offset),
            Err(error) => Err(error),
        }
    }
}
