//! Instantiations and accesses, and which one is at a place.

use wac_graph::PackageKey;
use wac_lexer::SourceSpan;

/// An instantiation of a package.
#[derive(Drop)]
pub struct Instantiation {
    /// The package.
    pub key: PackageKey,
    /// The package's name, with the version.
    pub place: SourceSpan,
    /// From `new` to the closing brace.
    pub whole: SourceSpan,
}

/// An access to an export.
#[derive(Drop)]
pub struct Access {
    /// Where the expression begins of which the access is a part.
    pub start: usize,
    /// The access: `.x` or `["x"]`.
    pub place: SourceSpan,
}

/// The instantiations and the accesses of a document, each before those in its parts.
#[derive(Drop)]
pub struct Instantiations {
    pub all: Vec<Instantiation>,
    pub accesses: Vec<Access>,
}

/// Whether a place begins in a span.
fn is_within(place: SourceSpan, whole: SourceSpan) -> bool {
    let start = whole.offset();
    start <= place.offset() && place.offset() < start.saturating_add(whole.len())
}

impl Instantiations {
    /// The innermost instantiation around a place.
    pub fn around(&self, place: SourceSpan) -> Option<&Instantiation> {
        for new in self.all.as_slice().iter().rev() {
            if is_within(place, new.whole) {
                return Some(new);
            }
        }
        None
    }

    /// Where the expression begins of which the access at a place is a part.
    pub fn access_start(&self, place: SourceSpan) -> Option<usize> {
        for access in self.accesses.as_slice() {
            if access.place == place {
                return Some(access.start);
            }
        }
        None
    }
}
