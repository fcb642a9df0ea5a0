// The files of the system, of which one call fails.
use std::alloc::Allocator;
use std::cell::Cell;
use std::fs::{Files, Metadata, OpenFile, OpenOptions, Permissions};
use std::io;
use std::io::{ErrorKind, Read, Seek, SeekFrom, Write};
use std::path::PathBuf;

/// How many calls there were, and which one fails.
#[derive(Drop)]
pub(crate) struct Calls {
    count: Cell<usize>,
    failing: usize,
}

impl Calls {
    pub(crate) fn failing_at(failing: usize) -> Self {
        Calls {
            count: Cell::new(0),
            failing,
        }
    }

    /// How many calls there were.
    pub(crate) fn count(&self) -> usize {
        self.count.get()
    }

    /// Counts a call, which fails if it is the one that is to.
    fn call(&self) -> io::Result<()> {
        let count = self.count.get();
        self.count.set(count.saturating_add(1));
        if count == self.failing {
            return Err(io::Error::from(ErrorKind::Other));
        }
        Ok(())
    }
}

/// The files of the system, of which one call fails.
#[derive(Drop)]
pub(crate) struct Failing<'a, R: Files + Drop> {
    pub(crate) files: R,
    pub(crate) calls: &'a Calls,
}

/// An open file, of which one call fails.
#[derive(Drop)]
pub(crate) struct FailingFile<'a, F: Drop> {
    file: F,
    calls: &'a Calls,
}

impl<'a, F: Read + Drop> Read for FailingFile<'a, F> {
    fn read(&mut self, buf: &mut [u8]) -> io::Result<usize> {
        self.calls.call()?;
        self.file.read(buf)
    }
}

impl<'a, F: Write + Drop> Write for FailingFile<'a, F> {
    fn write(&mut self, buf: &[u8]) -> io::Result<usize> {
        self.calls.call()?;
        // Half of it at a time, so that a file can be half written.
        let (half, _) = buf.split_at((buf.len() + 1) / 2);
        self.file.write(half)
    }

    fn flush(&mut self) -> io::Result<()> {
        self.file.flush()
    }
}

impl<'a, F: Seek + Drop> Seek for FailingFile<'a, F> {
    fn seek(&mut self, to: SeekFrom) -> io::Result<u64> {
        self.file.seek(to)
    }
}

impl<'a, F: OpenFile + Drop> OpenFile for FailingFile<'a, F> {
    fn metadata(&self) -> io::Result<Metadata> {
        self.calls.call()?;
        self.file.metadata()
    }

    fn set_len(&self, size: u64) -> io::Result<()> {
        self.calls.call()?;
        self.file.set_len(size)
    }

    fn sync_all(&self) -> io::Result<()> {
        self.calls.call()?;
        self.file.sync_all()
    }

    fn sync_data(&self) -> io::Result<()> {
        self.calls.call()?;
        self.file.sync_data()
    }

    fn set_permissions(&self, permissions: Permissions) -> io::Result<()> {
        self.calls.call()?;
        self.file.set_permissions(permissions)
    }
}

impl<'a, R: Files + Drop> Files for Failing<'a, R> {
    type File = FailingFile<'a, R::File>;

    type Dir = R::Dir;

    fn open_file(&self, how: &OpenOptions, path: &str) -> io::Result<FailingFile<'a, R::File>> {
        self.calls.call()?;
        Ok(FailingFile {
            file: self.files.open_file(how, path)?,
            calls: self.calls,
        })
    }

    fn open_dir(&self, path: &str) -> io::Result<R::Dir> {
        self.calls.call()?;
        self.files.open_dir(path)
    }

    fn metadata(&self, path: &str) -> io::Result<Metadata> {
        self.calls.call()?;
        self.files.metadata(path)
    }

    fn symlink_metadata(&self, path: &str) -> io::Result<Metadata> {
        self.calls.call()?;
        self.files.symlink_metadata(path)
    }

    fn copy(&self, from: &str, to: &str) -> io::Result<u64> {
        self.calls.call()?;
        self.files.copy(from, to)
    }

    fn rename(&self, from: &str, to: &str) -> io::Result<()> {
        self.calls.call()?;
        self.files.rename(from, to)
    }

    fn remove_file(&self, path: &str) -> io::Result<()> {
        self.calls.call()?;
        self.files.remove_file(path)
    }

    fn create_dir(&self, path: &str) -> io::Result<()> {
        self.calls.call()?;
        self.files.create_dir(path)
    }

    fn remove_dir(&self, path: &str) -> io::Result<()> {
        self.calls.call()?;
        self.files.remove_dir(path)
    }

    fn remove_dir_all<B: Allocator>(&self, alloc: B, path: &str) -> io::Result<()> {
        self.calls.call()?;
        self.files.remove_dir_all(alloc, path)
    }

    fn canonicalize<B: Allocator>(&self, alloc: B, path: &str) -> io::Result<PathBuf<B>> {
        self.calls.call()?;
        self.files.canonicalize(alloc, path)
    }

    fn lchown(&self, path: &str, uid: Option<u32>, gid: Option<u32>) -> io::Result<()> {
        self.calls.call()?;
        self.files.lchown(path, uid, gid)
    }
}
