// The files of the system.
ghost use Rattle.std.specs.Prelude.{◌≡◌};

use crate::copies::{KeptCopy, Temporary, may_be_cut_off};
use crate::error::FileError;
use crate::log::{Log, Step};
use crate::names::{folder_of, plain};
use crate::rewriting::{PRIVATE, Rewrite, read_open, test_mode};
use crate::sweeping::Sweep;
use crate::system::{FileSystem, Kind};
use std::alloc::{AllocError, Global};
use std::fs::{File, Files, Metadata, OpenFile, OpenOptions};
use std::io::{ErrorKind, Read, Write};
use std::os::unix::fs::{MetadataExt, OpenOptionsExt};

/// The most bytes that a file that is read may have, where no other number is asked for: 64 MiB.
pub const MOST_BYTES: u64 = 64 * 1024 * 1024;

// Where the system shows its processes.
const PROCESSES: &str = "/proc";

// How many names are tried for a copy.
const MOST_NAMES: u32 = 1000;

/// The files of the system.
///
/// A file is written in place, so it keeps its mode, its owner and group, its links and all else that the system has of
/// it. Before that a copy of what it holds is written beside it, under a name that begins with `.wacx-`. The copy is
/// removed when the new text is on the disk, or where a step fails, when the old one is there again.
#[derive(Drop)]
pub struct Disk<R: Files + Drop> {
    files: R,
    // A number that no other run has at the same time, as that of the process.
    run: u32,
    // The most bytes that a file that is read may have.
    most: u64,
    // The devices of the files in which the system shows its own state.
    devices: [Option<u64>; 2],
    // What was found of runs that ended, once it was asked for.
    sweep: Option<Sweep>,
    log: Log,
}

impl<R: Files + Drop> Disk<R> {
    /// The files that `files` reaches. `run` is a number that no other run has at the same time, as that of the process. A
    /// file of more than `most` bytes isn't read.
    pub fn new(files: R, run: u32, most: u64) -> Self {
        let devices = [device_of(&files, PROCESSES), device_of(&files, "/sys")];
        Disk {
            files,
            run,
            most,
            devices,
            sweep: None,
            log: Log::after(&Step::Begins),
        }
    }

    /// What a file is by its metadata. One in which the system shows its own state is taken for a device: reading it may
    /// never end.
    fn kind_of(&self, metadata: &Metadata) -> Kind {
        if metadata.is_dir() {
            Kind::Folder
        } else if metadata.is_symlink() {
            Kind::Link
        } else if metadata.is_file() && !self.devices.contains(&Some(metadata.dev())) {
            Kind::File
        } else {
            Kind::Other
        }
    }

    /// Fails where metadata are not those of a regular file.
    fn test_file(&self, metadata: &Metadata) -> Result<(), FileError> {
        match self.kind_of(metadata) {
            Kind::File => Ok(()),
            Kind::Folder | Kind::Link | Kind::Other => Err(FileError::NotAFile),
        }
    }

    /// Fails where metadata are not those of a regular file that is small enough to be read.
    fn test_readable(&self, metadata: &Metadata) -> Result<(), FileError> {
        self.test_file(metadata)?;
        if metadata.len() > self.most {
            return Err(FileError::TooLarge(self.most));
        }
        Ok(())
    }

    /// All bytes of a regular file. Nothing else is opened.
    fn read_file(&self, alloc: Global, path: &str) -> Result<Vec<u8>, FileError> {
        self.test_readable(&self.files.metadata(path)?)?;
        let mut file = File::open(&self.files, path)?;
        let metadata = file.metadata()?;
        self.test_readable(&metadata)?;
        read_open(alloc, &mut file, metadata.len())
    }

    /// The names in a folder.
    fn names_in(&self, alloc: Global, path: &str) -> Result<Vec<Vec<u8>>, FileError> {
        let mut with_slash = String::from_str(alloc, path)?;
        if !path.ends_with('/') {
            with_slash.push('/')?;
        }
        let dir = self.files.open_dir(with_slash.as_str())?;
        let listed = read_names(alloc, dir)?;
        Ok(split_names(alloc, listed.as_slice())?)
    }

    /// The path without links that leads where a path leads. Where it isn't UTF-8, the path itself.
    fn place_of(&self, alloc: Global, path: &str) -> Result<String, FileError> {
        match self.files.canonicalize(alloc, path) {
            Ok(resolved) => Ok(String::from_str(alloc, resolved.as_str())?),
            Err(error) if error.kind() == ErrorKind::InvalidFilename => {
                self.files.metadata(path)?;
                Ok(plain(alloc, path)?)
            }
            Err(error) => Err(FileError::from(error)),
        }
    }

    /// Opens a regular file that may be written.
    fn open_to_write(&self, path: &str) -> Result<R::File, FileError> {
        let metadata = self.files.metadata(path)?;
        self.test_file(&metadata)?;
        if metadata.permissions().readonly() {
            return Err(FileError::ReadOnly);
        }
        let mut options = OpenOptions::new();
        options.read(true).write(true);
        match options.open(&self.files, path) {
            Ok(file) => Ok(file),
            Err(error) if error.kind() == ErrorKind::PermissionDenied => Err(FileError::ReadOnly),
            Err(error) => Err(FileError::from(error)),
        }
    }

    /// Fails where an open file doesn't hold these bytes.
    fn test_held(&self, alloc: Global, file: &mut R::File, held: &[u8]) -> Result<(), FileError> {
        let metadata = file.metadata()?;
        self.test_file(&metadata)?;
        let len = held.len() as u64;
        if metadata.len() != len || read_open(alloc, file, len)?.as_slice() != held {
            return Err(FileError::ChangedMeanwhile);
        }
        Ok(())
    }

    /// Creates a file for a copy of another, whose number is given, and returns it.
    fn create_in(
        &self,
        alloc: Global,
        folder: &str,
        inode: u64,
    ) -> Result<(KeptCopy, R::File), FileError> {
        let mut options = OpenOptions::new();
        options.write(true).create_new(true).mode(PRIVATE);
        for count in 0..MOST_NAMES {
            let run = self.run;
            let copy = KeptCopy { run, inode, count };
            let path = format!(in alloc; "{folder}{copy}")?;
            match options.open(&self.files, path.as_str()) {
                Ok(file) => return Ok((copy, file)),
                Err(error) if error.kind() == ErrorKind::AlreadyExists => {}
                Err(error) => return Err(FileError::from(error)),
            }
        }
        Err(FileError::System(ErrorKind::AlreadyExists))
    }

    /// Removes a copy. Where that fails it stays, and a later run removes it.
    fn remove(&self, alloc: Global, folder: &str, copy: KeptCopy) -> Result<(), FileError> {
        let path = format!(in alloc; "{folder}{copy}")?;
        let _ = self.files.remove_file(path.as_str());
        Ok(())
    }

    /// Writes a copy of what an open file in a folder holds.
    fn keep(
        &self,
        alloc: Global,
        folder: &str,
        file: &R::File,
        held: &[u8],
    ) -> Result<KeptCopy, FileError> {
        let metadata = file.metadata()?;
        let (copy, mut new) = self.create_in(alloc, folder, metadata.ino())?;
        let kept = match test_mode(file, &new, &metadata) {
            Ok(()) => fill(&mut new, held),
            Err(error) => Err(error),
        };
        if let Err(error) = kept {
            self.remove(alloc, folder, copy)?;
            return Err(error);
        }
        Ok(copy)
    }

    /// Has an open file in a folder, which holds these bytes, hold others in their place.
    fn write_in(
        &self,
        alloc: Global,
        folder: &str,
        file: &mut R::File,
        held: &[u8],
        rewrite: &Rewrite,
    ) -> Result<(), FileError> {
        let copy = self.keep(alloc, folder, file, held)?;
        let written = rewrite.write(file);
        if written.is_err() && rewrite.undo(file, held).is_err() {
            return Err(FileError::HalfWritten(copy));
        }
        self.remove(alloc, folder, copy)?;
        Ok(written?)
    }

    /// Whether a run goes on. One of this number that isn't this one has ended.
    fn is_running(&self, alloc: Global, run: u32) -> Result<bool, AllocError> {
        if run == self.run {
            return Ok(false);
        }
        let path = format!(in alloc; "{PROCESSES}/{run}")?;
        match self.files.symlink_metadata(path.as_str()) {
            Err(error) => Ok(error.kind() != ErrorKind::NotFound),
            Ok(_) => Ok(true),
        }
    }

    /// Removes what runs that ended left in a folder, but for the copies that may have what a file lost.
    fn sweep_folder(
        &self,
        alloc: Global,
        folder: &str,
        sweep: &mut Sweep,
    ) -> Result<(), FileError> {
        let place = if folder.is_empty() { "." } else { folder };
        let names = match self.names_in(alloc, place) {
            Ok(names) => names,
            Err(FileError::OutOfMemory) => return Err(FileError::OutOfMemory),
            // Who may not list a folder may still write its files.
            Err(_) => return Ok(()),
        };
        for name in names.as_slice() {
            if let Some(copy) = self.clear(alloc, folder, name.as_slice(), names.as_slice())? {
                sweep.add(alloc, folder, copy)?;
            }
        }
        Ok(())
    }

    /// Removes a file of a folder that a run which ended left there. Returns the copy that may have what a file lost.
    fn clear(
        &self,
        alloc: Global,
        folder: &str,
        name: &[u8],
        names: &[Vec<u8>],
    ) -> Result<Option<KeptCopy>, FileError> {
        let Some(temporary) = Temporary::of_name(name) else {
            return Ok(None);
        };
        if self.is_running(alloc, temporary.run())? {
            return Ok(None);
        }
        let path = path_in(alloc, folder, name)?;
        if !self.is_file(path.as_str(), None) {
            return Ok(None);
        }
        if let Temporary::Copy(copy) = temporary {
            if let Some(file) = self.file_of(alloc, folder, copy.inode, names)? {
                match self.may_be_needed(alloc, path.as_str(), file.as_str()) {
                    Ok(true) => return Ok(Some(copy)),
                    Ok(false) => {}
                    Err(FileError::OutOfMemory) => return Err(FileError::OutOfMemory),
                    // What can't be compared stays.
                    Err(_) => return Ok(None),
                }
            }
        }
        let _ = self.files.remove_file(path.as_str());
        Ok(None)
    }

    /// Whether a regular file is at a path, of this number if there is one. A link is not followed.
    fn is_file(&self, path: &str, inode: Option<u64>) -> bool {
        match self.files.symlink_metadata(path) {
            Ok(metadata) => {
                metadata.is_file() && inode.is_none_or(|inode| inode == metadata.ino())
            }
            Err(_) => false,
        }
    }

    /// The path of the file of a folder that has this number.
    fn file_of(
        &self,
        alloc: Global,
        folder: &str,
        inode: u64,
        names: &[Vec<u8>],
    ) -> Result<Option<String>, AllocError> {
        for name in names {
            let path = path_in(alloc, folder, name.as_slice())?;
            if self.is_file(path.as_str(), Some(inode)) {
                return Ok(Some(path));
            }
        }
        Ok(None)
    }

    /// Whether a copy may have what a file lost.
    fn may_be_needed(&self, alloc: Global, copy: &str, file: &str) -> Result<bool, FileError> {
        let held = self.read_file(alloc, copy)?;
        let now = self.read_file(alloc, file)?;
        Ok(may_be_cut_off(held.as_slice(), now.as_slice()))
    }

    /// Fails where a run ended while it wrote the file at a path, and removes what runs that ended left in its folder.
    fn sweep_for(&self, alloc: Global, place: &str, sweep: &mut Sweep) -> Result<(), FileError> {
        let folder = folder_of(place);
        if sweep.enter(alloc, folder)? {
            self.sweep_folder(alloc, folder, sweep)?;
        }
        let inode = self.files.metadata(place)?.ino();
        match sweep.copy_of(folder, inode) {
            Some(copy) => Err(FileError::Interrupted(copy)),
            None => Ok(()),
        }
    }
}

impl<R: Files + Drop> FileSystem for Disk<R> {
    ghost replaced = { λ disk. disk.log.replaced };

    fn kind(&mut self, path: &str) -> Result<Kind, FileError> {
        Ok(self.kind_of(&self.files.symlink_metadata(path)?))
    }

    fn target(&mut self, path: &str) -> Result<Kind, FileError> {
        Ok(self.kind_of(&self.files.metadata(path)?))
    }

    fn list(&mut self, alloc: Global, path: &str) -> Result<Vec<Vec<u8>>, FileError> {
        self.names_in(alloc, path)
    }

    fn resolve(&mut self, alloc: Global, path: &str) -> Result<String, FileError> {
        self.place_of(alloc, path)
    }

    fn read(&mut self, alloc: Global, path: &str) -> Result<Vec<u8>, FileError> {
        self.read_file(alloc, path)
    }

    fn sweep(&mut self, alloc: Global, path: &str) -> Result<(), FileError> {
        // Which runs go on is known where the system shows its processes.
        if self.devices[0].is_none() {
            return Ok(());
        }
        let place = self.place_of(alloc, path)?;
        let mut sweep = match self.sweep.take() {
            Some(sweep) => sweep,
            None => Sweep::new(alloc),
        };
        let swept = self.sweep_for(alloc, place.as_str(), &mut sweep);
        self.sweep = Some(sweep);
        swept
    }

    fn replace(
        &mut self,
        alloc: Global,
        path: &str,
        held: &[u8],
        text: &[u8],
    ) -> Result<(), FileError> {
        let place = self.place_of(alloc, path)?;
        let mut file = self.open_to_write(place.as_str())?;
        self.test_held(alloc, &mut file, held)?;
        let rewrite = Rewrite::new(alloc, file.metadata()?.mode(), held, text)?;
        self.write_in(alloc, folder_of(place.as_str()), &mut file, held, &rewrite)?;
        self.log = Log::after(&Step::Replaces(&self.log, path, held, text));
        Ok(())
    }
}

/// Writes bytes to a new file, and waits until they are on the disk.
fn fill<F: Write + OpenFile>(file: &mut F, bytes: &[u8]) -> Result<(), FileError> {
    file.write_all(bytes)?;
    file.sync_all()?;
    Ok(())
}

/// The device of a folder, if it is another one than that of the root.
fn device_of<R: Files>(files: &R, folder: &str) -> Option<u64> {
    let root = files.metadata("/").ok()?.dev();
    let device = files.metadata(folder).ok()?.dev();
    (device != root).then_some(device)
}

/// The path of a name in a folder, whose path ends with a slash.
fn path_in(alloc: Global, folder: &str, name: &[u8]) -> Result<String, AllocError> {
    let mut path = String::from_str(alloc, folder)?;
    // A name that isn't UTF-8 leads nowhere.
    path.push_str(str::from_utf8(name).unwrap_or(""))?;
    Ok(path)
}

/// What a folder holds: names, each ended by NUL.
fn read_names<D: Read + Drop>(alloc: Global, mut dir: D) -> Result<Vec<u8>, FileError> {
    let mut listed = Vec::new(alloc);
    let mut part = [0u8; 8192];
    for _ in 0..u64::MAX {
        match dir.read(&mut part) {
            Ok(0) => break,
            Ok(len) => listed.extend_from_slice(&part[..len])?,
            Err(error) if error.kind() == ErrorKind::Interrupted => {}
            Err(error) => return Err(FileError::from(error)),
        }
    }
    Ok(listed)
}

/// The names of a list in which each is ended by NUL, without `.` and `..`.
fn split_names(alloc: Global, listed: &[u8]) -> Result<Vec<Vec<u8>>, AllocError> {
    let mut names = Vec::new(alloc);
    let mut name = Vec::new(alloc);
    for byte in listed {
        if *byte != 0 {
            name.push(*byte)?;
            continue;
        }
        if name.as_slice() != b".".as_slice() && name.as_slice() != b"..".as_slice() {
            names.push(Vec::from_slice(alloc, name.as_slice())?)?;
        }
        name.clear();
    }
    Ok(names)
}
