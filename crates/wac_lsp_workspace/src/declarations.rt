//! Where what a text names of packages is declared.
use crate::declaring::Declaring;
use crate::denoting::Denoted;
use crate::kinds::accepted;
use crate::named::{Named, named_at};
use crate::offering::named_by;
use crate::roots::Seen;
use crate::searching::declared_at;
use crate::sources::Source;
use std::alloc::{AllocError, Global};
use wac_completion::{Foreign, foreign_name_at};
use wac_lexer::SourceSpan;

/// A place in a document that declares a package.
#[derive(Clone, Copy)]
pub struct Declaration<'w> {
    /// The path of the document's file.
    pub path: &'w str,
    /// The document's name where it is open, letter for letter.
    pub uri: Option<&'w str>,
    /// The document's text.
    pub text: &'w str,
    /// The place in the text.
    pub span: SourceSpan,
}

/// A place in a text that declares a package.
#[derive(Clone, Copy)]
pub(crate) struct Found<'w> {
    pub(crate) declaring: Declaring<'w>,
    pub(crate) span: SourceSpan,
}

/// The name of a document that is open.
fn uri_of(source: &Source) -> Option<&str> {
    match &source.opened {
        Some(opened) => Some(opened.uri.as_str()),
        None => None,
    }
}

/// A place in a document: a component has none.
fn in_document(found: Found<'_>) -> Option<Declaration<'_>> {
    let source = found.declaring.source?;
    Some(Declaration {
        path: source.path.as_str(),
        uri: uri_of(source),
        text: found.declaring.text,
        span: found.span,
    })
}

/// A place in a text, if there is one.
fn place_in<'w>(declaring: Declaring<'w>, span: Option<SourceSpan>) -> Option<Found<'w>> {
    let span = span?;
    Some(Found { declaring, span })
}

/// Where a text declares what is denoted.
fn denoted_in(text: &str, denoted: Denoted<'_>) -> Option<SourceSpan> {
    match denoted.name {
        Some(name) => denoted.place.declares(text, name),
        None => denoted.place.declared(text),
    }
}

/// The package of whose instances something is asked for, with its version.
fn owner_of<'t>(foreign: &Foreign<'t>) -> Option<&'t str> {
    match foreign {
        Foreign::Argument { package, .. } => Some(*package),
        Foreign::Export { origin, .. } => named_by(*origin),
        Foreign::UsedType { .. } => None,
    }
}

impl<'w> Seen<'w> {
    /// Where what is named of a package is declared.
    fn declared(self, alloc: Global, named: &Named<'_>) -> Result<Option<Found<'w>>, AllocError> {
        let key = named.key(alloc)?;
        match self.declaring(&key, None) {
            Some(declaring) => Ok(place_in(declaring, declared_at(declaring.text, named))),
            None => Ok(None),
        }
    }

    /// Where what is denoted is declared: by a text that shows this component, if by no other.
    fn declared_by(
        self,
        alloc: Global,
        denoted: Denoted<'_>,
        owner: Option<&str>,
    ) -> Result<Option<Found<'w>>, AllocError> {
        let key = denoted.place.key(alloc)?;
        match self.declaring(&key, owner) {
            Some(declaring) => Ok(place_in(declaring, denoted_in(declaring.text, denoted))),
            None => Ok(None),
        }
    }

    /// Where the argument or the export that a text names at an offset is declared.
    fn foreign_at(
        self,
        alloc: Global,
        text: &'w str,
        offset: usize,
    ) -> Result<Option<Found<'w>>, AllocError> {
        let found = match foreign_name_at(alloc, accepted(text), offset) {
            Ok(Some(found)) => found,
            Ok(None) => return Ok(None),
            Err(error) => return Err(error),
        };
        match self.denoted_by(alloc, &found) {
            Ok(Some(denoted)) => self.declared_by(alloc, denoted, owner_of(&found.foreign)),
            Ok(None) => Ok(None),
            Err(error) => Err(error),
        }
    }

    /// Where what a text names of a package at an offset is declared, by a document or by a text that shows a component.
    pub(crate) fn found_at(
        self,
        alloc: Global,
        text: &'w str,
        offset: usize,
    ) -> Result<Option<Found<'w>>, AllocError> {
        match named_at(text, offset) {
            Some(named) => self.declared(alloc, &named),
            None => self.foreign_at(alloc, text, offset),
        }
    }

    /// Where what a text names of a package at an offset is declared: the package, an interface, a world or a type, and an
    /// argument of an instance or an export of one: where that has a path, the interface of it, and else the item of the
    /// package's world. There is nothing where no document of the folders declares that, as the package of a component.
    ///
    /// An argument that is an identifier without a colon is what the text itself binds, so nothing is said of it here.
    pub fn declaration_at(
        self,
        alloc: Global,
        text: &'w str,
        offset: usize,
    ) -> Result<Option<Declaration<'w>>, AllocError> {
        match self.found_at(alloc, text, offset) {
            Ok(Some(found)) => Ok(in_document(found)),
            Ok(None) => Ok(None),
            Err(error) => Err(error),
        }
    }
}
