//! What is wrong with a component, and where.
ghost use Rattle.std.specs.Prelude.{◌≡◌, MatchOption};

use std::alloc::{AllocError, AllocFailed};
use std::fmt;

/// What is wrong with the bytes.
#[derive(Clone, Copy, Debug, PartialEq, Eq)]
pub enum ErrorKind {
    /// The bytes, a section or a name end too early.
    UnexpectedEnd,
    /// The bytes are no WebAssembly binary.
    Magic,
    /// They are a core module, and no component.
    CoreModule,
    /// They are of another version of the binary format.
    Version,
    /// A number is longer than its type.
    LongNumber,
    /// A count is larger than what is left.
    Count,
    /// Bytes are left in a section.
    SectionSize,
    /// There is no such section.
    Section,
    /// There is no such opcode, sort or flag.
    Opcode,
    /// An index is out of range.
    Index,
    /// An item is of another kind or sort than expected.
    OtherKind,
    /// There is no export or argument of that name.
    UnknownName,
    /// A name is given twice.
    DuplicateName,
    /// A name isn't UTF-8.
    Utf8,
    /// Bodies or types are nested too deep.
    Depth,
    /// There is more to do than the limits allow.
    Work,
    /// It is valid, and isn't decoded: values, start functions, named results, garbage-collected core types.
    Unsupported,
    /// Memory ran out.
    Memory,
}

/// What is wrong with the bytes of a component, and at which byte. Where memory ran out the offset is 0.
#[derive(Clone, Copy, Debug, PartialEq, Eq)]
pub struct DecodeError {
    pub kind: ErrorKind,
    pub offset: usize,
}

impl ErrorKind {
    /// The kind in words.
    pub fn text(self) -> &'static str {
        match self {
            ErrorKind::UnexpectedEnd => "unexpected end",
            ErrorKind::Magic => "not a WebAssembly binary",
            ErrorKind::CoreModule => "a core module, and no component",
            ErrorKind::Version => "another version of the binary format",
            ErrorKind::LongNumber => "number too long",
            ErrorKind::Count => "count larger than what is left",
            ErrorKind::SectionSize => "bytes left in the section",
            ErrorKind::Section => "unknown section",
            other => other.text_of_item(),
        }
    }

    fn text_of_item(self) -> &'static str {
        match self {
            ErrorKind::Opcode => "unknown opcode",
            ErrorKind::Index => "index out of range",
            ErrorKind::OtherKind => "item of another kind",
            ErrorKind::UnknownName => "no item of that name",
            ErrorKind::DuplicateName => "name given twice",
            ErrorKind::Utf8 => "name is not UTF-8",
            ErrorKind::Depth => "nested too deep",
            ErrorKind::Work => "too much work",
            ErrorKind::Unsupported => "not supported",
            _ => "out of memory",
        }
    }
}

impl fmt::Display for DecodeError {
    fn fmt<W: fmt::Write>(&self, f: &mut fmt::Formatter<W>) -> fmt::Result {
        let offset = self.offset;
        let text = self.kind.text();
        write!(f, "error at {offset}: {text}")
    }
}

impl std::error::Error for DecodeError {}

impl From<AllocError> for DecodeError {
    ghost use Rattle.std.specs.Prelude.{◌≡◌};
    ghost use Rattle.wac_components_bytes.specs.declared.error.ErrorKind.TheVariants as kinds;

    ghost from_gives = { λ _ e. e ≡ record { kind = kinds.Memory; offset = 0 } };

    fn from(_refused: AllocError) -> DecodeError {
        DecodeError {
            kind: ErrorKind::Memory,
            offset: 0,
        }
    }
}

impl<T: Drop> From<AllocFailed<T>> for DecodeError {
    ghost use Rattle.std.specs.Prelude.{◌≡◌};
    ghost use Rattle.wac_components_bytes.specs.declared.error.ErrorKind.TheVariants as kinds;

    ghost from_gives = { λ _ e. e ≡ record { kind = kinds.Memory; offset = 0 } };

    fn from(_refused: AllocFailed<T>) -> DecodeError {
        DecodeError {
            kind: ErrorKind::Memory,
            offset: 0,
        }
    }
}

/// The error of a kind at an offset.
pub fn error_at<T>(kind: ErrorKind, offset: usize) -> Result<T, DecodeError>
    ensures { result ≡ Err (record { kind = kind; offset = offset }) }
{
    Err(DecodeError { kind, offset })
}

/// What is found, or the error of a kind at an offset.
pub fn found<T>(item: Option<T>, kind: ErrorKind, offset: usize) -> Result<T, DecodeError>
    ensures { MatchOption item (result ≡ Err (record { kind = kind; offset = offset })) (λ x. result ≡ Ok x) }
{
    match item {
        Some(item) => Ok(item),
        None => error_at(kind, offset),
    }
}
