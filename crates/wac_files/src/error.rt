// Why a file could not be found, read or written.
use crate::copies::KeptCopy;
use std::alloc::AllocError;
use std::io;
use std::io::ErrorKind;
use thiserror::Error;

/// Why a file could not be found, read or written.
#[derive(Clone, Copy, Debug, PartialEq, Eq, Error)]
pub enum FileError {
    /// Nothing is at the path.
    #[error("no such file or folder")]
    NotFound,
    /// The system doesn't permit it.
    #[error("permission denied")]
    PermissionDenied,
    /// The file may not be written.
    #[error("the file is read-only, and was not written")]
    ReadOnly,
    /// A pipe, a socket or a device.
    #[error("neither a file nor a folder")]
    NotAFile,
    /// The file is no longer what was read of it.
    #[error("the file changed meanwhile, and was not written")]
    ChangedMeanwhile,
    /// Files are opened by names in UTF-8 alone.
    #[error("the name is not UTF-8")]
    NameNotUtf8,
    /// The name, or the path, is longer than the system allows.
    #[error("the name is too long")]
    NameTooLong,
    /// The file has more than so many bytes, the most that are read.
    #[error("larger than {0} bytes, the most that is read")]
    TooLarge(u64),
    /// A run ended while it wrote the file, and left a copy of what it held.
    #[error("a run that ended while it wrote the file left what it held in `{0}`: rename that over it, or remove it")]
    Interrupted(KeptCopy),
    /// Writing failed, and so did writing what the file held before, of which there is a copy.
    #[error("writing it failed half-way, and what it held is in `{0}`")]
    HalfWritten(KeptCopy),
    /// Another failure of the system.
    #[error("{0}")]
    System(ErrorKind),
    /// A request for memory failed.
    #[error("out of memory")]
    OutOfMemory,
}

impl FileError {
    /// The error's name in messages.
    pub fn code(self) -> &'static str {
        match self {
            FileError::NotFound => "wac::not-found",
            FileError::PermissionDenied => "wac::permission-denied",
            FileError::ReadOnly => "wac::read-only",
            FileError::NotAFile => "wac::not-a-file",
            FileError::ChangedMeanwhile => "wac::changed-meanwhile",
            FileError::NameNotUtf8 => "wac::name-not-utf-8",
            FileError::NameTooLong => "wac::name-too-long",
            FileError::TooLarge(_) => "wac::too-large",
            FileError::Interrupted(_) => "wac::interrupted",
            FileError::HalfWritten(_) => "wac::half-written",
            FileError::System(_) => "wac::system",
            FileError::OutOfMemory => "wac::out-of-memory",
        }
    }
}

impl From<AllocError> for FileError {
    fn from(_error: AllocError) -> FileError {
        FileError::OutOfMemory
    }
}

impl From<io::Error> for FileError {
    fn from(error: io::Error) -> FileError {
        match error.kind() {
            ErrorKind::NotFound | ErrorKind::NotADirectory => FileError::NotFound,
            ErrorKind::PermissionDenied => FileError::PermissionDenied,
            // The system calls a name invalid that is too long. That one isn't UTF-8 is found by no call of it.
            ErrorKind::InvalidFilename if error.raw_os_error().is_some() => FileError::NameTooLong,
            ErrorKind::InvalidFilename => FileError::NameNotUtf8,
            ErrorKind::OutOfMemory => FileError::OutOfMemory,
            kind => FileError::System(kind),
        }
    }
}
