// Reading the documents of packages.
ghost use Rattle.std.specs.Prelude.{◌≡◌};

use crate::faults::Cause;
use std::alloc::{AllocError, Global};
use wac_files::{FileError, FileSystem, Found};
use wac_first_error::Reading;
use wac_package_errors::flat_text;

/// What was read of a file.
#[derive(Drop)]
pub(crate) enum Source {
    /// A text whose brackets aren't nested too deeply.
    Text(String),
    /// Nothing that can be parsed, for a reason.
    Nothing(Cause),
}

/// The text that bytes are.
fn source_of_bytes(alloc: Global, bytes: Vec<u8>) -> Result<Source, AllocError> {
    let rejected = match flat_text(alloc, bytes.as_slice()) {
        Ok(Reading::Text(text)) => return Ok(Source::Text(String::from_str(alloc, text)?)),
        Ok(Reading::Rejected(diagnostic)) => diagnostic,
        Err(_) => return Err(AllocError),
    };
    Ok(Source::Nothing(Cause::Rejected(rejected, bytes)))
}

/// The text that was read.
fn source_of_read(alloc: Global, read: Result<Vec<u8>, FileError>) -> Result<Source, AllocError> {
    match read {
        Ok(bytes) => source_of_bytes(alloc, bytes),
        Err(error) => Ok(Source::Nothing(Cause::Unread(error))),
    }
}

/// Reads a file that was found.
pub(crate) fn read_source<F: FileSystem>(
    alloc: Global,
    files: &mut F,
    found: &Found,
) -> Result<Source, AllocError>
    ensures { F.replaced files.new ≡ F.replaced files.old }
{
    match found.failure {
        Some(error) => Ok(Source::Nothing(Cause::Unread(error))),
        None => {
            let read = files.read(alloc, found.path.as_str());
            source_of_read(alloc, read)
        }
    }
}
