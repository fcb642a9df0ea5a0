//! Why WAC can't say something, and why there are no documents.

use std::alloc::{AllocError, AllocFailed};
use std::fmt;
use wac_components_types::NameId;

/// Why there are no documents.
#[derive(Clone, Copy, Debug, PartialEq, Eq)]
pub enum DocumentsError {
    /// What was given as the package's name is none.
    Name,
    /// There is more to write than the limit of steps allows.
    TooLarge,
    /// Memory ran out.
    Memory,
}

impl fmt::Display for DocumentsError {
    fn fmt<W: fmt::Write>(&self, f: &mut fmt::Formatter<W>) -> fmt::Result {
        match self {
            DocumentsError::Name => f.write_str("not a package name"),
            DocumentsError::TooLarge => f.write_str("too much to write"),
            DocumentsError::Memory => f.write_str("out of memory"),
        }
    }
}

impl std::error::Error for DocumentsError {}

/// Why WAC can't say something.
#[derive(Clone, Copy)]
pub(crate) enum Reason {
    /// A name isn't one of WAC.
    Name(NameId),
    /// A type without a name in this interface or world.
    NoName,
    /// Something of that kind can't stand there.
    Here(&'static str),
    /// A type of that kind can't have a name.
    UnderName(&'static str),
    /// A type of that kind has no parts.
    Empty(&'static str),
    /// It names what is missing itself.
    Missing(NameId),
    /// A constructor that returns something else than its resource.
    Constructor,
    /// The name of the interface isn't one of WAC.
    Use(NameId),
}

impl Reason {
    /// The text before a name, the name, and the text after it.
    pub(crate) fn parts(self) -> (&'static str, Option<NameId>, &'static str) {
        match self {
            Reason::Name(name) => ("name `", Some(name), "`"),
            Reason::NoName => ("type without a name", None, " here"),
            Reason::Here(kind) => (kind, None, " here"),
            Reason::UnderName(kind) => (kind, None, " type under a name"),
            Reason::Empty(kind) => ("empty ", None, kind),
            Reason::Missing(name) => ("`", Some(name), "` is missing"),
            Reason::Constructor => ("constructor that may fail", None, ""),
            Reason::Use(name) => ("use of `", Some(name), "`"),
        }
    }
}

/// Why something isn't written.
#[derive(Clone, Copy)]
pub(crate) enum Fault {
    Reason(Reason),
    TooLarge,
    Memory,
}

impl From<AllocError> for Fault {
    fn from(_refused: AllocError) -> Fault {
        Fault::Memory
    }
}

impl<T: Drop> From<AllocFailed<T>> for Fault {
    fn from(_refused: AllocFailed<T>) -> Fault {
        Fault::Memory
    }
}

impl From<AllocError> for DocumentsError {
    fn from(_refused: AllocError) -> DocumentsError {
        DocumentsError::Memory
    }
}

impl<T: Drop> From<AllocFailed<T>> for DocumentsError {
    fn from(_refused: AllocFailed<T>) -> DocumentsError {
        DocumentsError::Memory
    }
}

/// What is refused as a whole, where something outside of all items can't be said.
impl From<Fault> for DocumentsError {
    fn from(fault: Fault) -> DocumentsError {
        match fault {
            Fault::Reason(_) => DocumentsError::Name,
            Fault::TooLarge => DocumentsError::TooLarge,
            Fault::Memory => DocumentsError::Memory,
        }
    }
}
