// Writing a file in place.
use crate::error::FileError;
use std::alloc::{AllocError, Global};
use std::fs::{Metadata, OpenFile, Permissions};
use std::io;
use std::io::{Read, Seek, SeekFrom, Write};
use std::os::unix::fs::{MetadataExt, PermissionsExt};

// The bits of a mode that have a program run as its file's user, and as its group. Writing to a file clears them.
const SET_USER: u32 = 0o4000;

const SET_GROUP: u32 = 0o2000;

// All bits of a mode.
const MODE: u32 = 0o7777;

/// What only its user may do with a new file.
pub(crate) const PRIVATE: u32 = 0o600;

/// What is written to a file in place of what it holds, so that between two calls all of the old text or all of the new
/// one is there: it is made longer by line ends first, and cut only after it has the new text.
#[derive(Drop)]
pub(crate) struct Rewrite {
    // Line ends for what the file lacks.
    growth: Vec<u8>,
    // The new text, and line ends for what it lacks.
    text: Vec<u8>,
    // How many bytes the new text has.
    len: u64,
    mode: u32,
}

impl Rewrite {
    /// To have a file of this mode, which holds some bytes, hold a text.
    pub(crate) fn new(
        alloc: Global,
        mode: u32,
        held: &[u8],
        text: &[u8],
    ) -> Result<Rewrite, AllocError> {
        let mut growth = Vec::new(alloc);
        growth.resize(text.len().saturating_sub(held.len()), b'\n')?;
        let mut padded = Vec::from_slice(alloc, text)?;
        padded.resize(text.len().max(held.len()), b'\n')?;
        Ok(Rewrite {
            growth,
            text: padded,
            len: text.len() as u64,
            mode,
        })
    }

    /// Writes it.
    pub(crate) fn write<F: Write + Seek + OpenFile>(&self, file: &mut F) -> io::Result<()> {
        file.seek(SeekFrom::End(0))?;
        file.write_all(self.growth.as_slice())?;
        put(file, self.text.as_slice(), self.len, self.mode)
    }

    /// Writes what the file held before.
    pub(crate) fn undo<F: Write + Seek + OpenFile>(
        &self,
        file: &mut F,
        held: &[u8],
    ) -> io::Result<()> {
        put(file, held, held.len() as u64, self.mode)
    }
}

/// Writes bytes from the start of a file, cuts it to a length, and waits until it is on the disk.
fn put<F: Write + Seek + OpenFile>(
    file: &mut F,
    bytes: &[u8],
    len: u64,
    mode: u32,
) -> io::Result<()> {
    file.seek(SeekFrom::Start(0))?;
    file.write_all(bytes)?;
    file.set_len(len)?;
    if mode & (SET_USER | SET_GROUP) != 0 {
        file.set_permissions(Permissions::from_mode(mode & MODE))?;
    }
    file.sync_all()
}

/// Fails where an open file could not get the bits of its mode again that writing to it clears. `copy` is a new file of
/// this run, in the same folder.
pub(crate) fn test_mode<F: OpenFile>(
    file: &F,
    copy: &F,
    metadata: &Metadata,
) -> Result<(), FileError> {
    let mode = metadata.mode();
    if mode & SET_GROUP != 0 && !may_set_group(copy, metadata.gid())? {
        return Err(FileError::PermissionDenied);
    }
    if mode & (SET_USER | SET_GROUP) != 0 {
        file.set_permissions(Permissions::from_mode(mode & MODE))?;
    }
    Ok(())
}

/// Whether this run may set a file's bit for its group. The system clears it for who isn't in the group, and tells no
/// error, so it is tried with a file of this run.
fn may_set_group<F: OpenFile>(copy: &F, group: u32) -> Result<bool, FileError> {
    let metadata = copy.metadata()?;
    if metadata.gid() != group && metadata.uid() != 0 {
        return Ok(false);
    }
    copy.set_permissions(Permissions::from_mode(SET_GROUP | PRIVATE))?;
    let is_set = copy.metadata()?.mode() & SET_GROUP != 0;
    copy.set_permissions(Permissions::from_mode(PRIVATE))?;
    Ok(is_set)
}

/// So many bytes of an open file, or all that it has where it has fewer.
pub(crate) fn read_open<F: Read>(
    alloc: Global,
    file: &mut F,
    len: u64,
) -> Result<Vec<u8>, FileError> {
    let mut bytes = Vec::new(alloc);
    bytes.reserve(usize::try_from(len).unwrap_or(usize::MAX))?;
    if len > 0 {
        file.take(len).read_to_end(&mut bytes)?;
    }
    Ok(bytes)
}
