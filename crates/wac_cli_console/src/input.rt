// Reading standard input.
ghost use Rattle.std.specs.Prelude.{◌≤◌, IfOk, length};

use std::alloc::Global;
use std::io::{ErrorKind, Read};
use wac_files::FileError;

/// The name of standard input where no other is given.
pub const STDIN: &str = "<stdin>";

/// How standard input is read.
#[derive(Clone, Copy, Debug, PartialEq, Eq)]
pub struct InputOptions<'n> {
    /// Its name in messages, in place of `<stdin>`.
    pub name: Option<&'n str>,
    /// The most bytes that it may have.
    pub most: u64,
}

/// All bytes of a reader, which are at most so many: of one that has more no more are kept.
pub fn read_all<I: Read>(alloc: Global, input: &mut I, most: u64) -> Result<Vec<u8>, FileError>
    ensures { IfOk result (λ bytes. length bytes.items ≤ most) }
{
    let mut bytes = Vec::new(alloc);
    let mut part = [0u8; 65536];
    for _ in 0..u64::MAX {
        match input.read(&mut part) {
            Ok(0) => break,
            Ok(len) if len as u64 > most.saturating_sub(bytes.len() as u64) => {
                return Err(FileError::TooLarge(most));
            }
            Ok(len) => bytes.extend_from_slice(&part[..len])?,
            Err(error) if error.kind() == ErrorKind::Interrupted => {}
            Err(error) => return Err(FileError::from(error)),
        }
    }
    Ok(bytes)
}
