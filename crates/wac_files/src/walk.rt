// The files that paths lead to.
ghost use Rattle.std.specs.Prelude.{◌≡◌};

use crate::error::FileError;
use crate::names::{is_hidden, is_wac, join};
use crate::system::{FileSystem, Kind};
use std::alloc::{AllocError, Global};
use std::collections::BTreeSet;
use std::io::ErrorKind;
use std::mem;

/// A path that a command has to do, or why it can't.
#[derive(Debug, Drop)]
pub struct Found {
    /// The path, as it was given or joined from the folder's.
    pub path: String,
    /// Why no file can be read there.
    pub failure: Option<FileError>,
    /// Whether it is a link to a file, which may be anywhere, and was found in a folder.
    pub is_link: bool,
}

/// What paths lead to.
#[derive(Drop)]
pub struct Listing {
    /// The files, in order.
    pub files: Vec<Found>,
    /// What was found in folders that is named as a WAC file is, and is none: pipes, sockets, devices, and links to these
    /// and to nothing.
    pub others: Vec<String>,
}

/// How a path came to be looked at.
#[derive(Clone, Copy, PartialEq, Eq)]
enum Origin {
    Given,
    /// It is in a folder.
    Found,
    /// It is in a folder, and a link.
    Link,
}

impl Origin {
    fn of(is_given: bool) -> Origin {
        if is_given {
            Origin::Given
        } else {
            Origin::Found
        }
    }
}

/// A path that is not looked at yet.
#[derive(Drop)]
struct Pending {
    path: String,
    // Whether the path was given, and not found in a folder.
    is_given: bool,
    failure: Option<FileError>,
}

/// The files that paths lead to, as `find_all` has them.
pub fn find_files<F: FileSystem>(
    alloc: Global,
    files: &mut F,
    paths: &[&str],
) -> Result<Vec<Found>, AllocError>
    ensures { F.replaced files.new ≡ F.replaced files.old }
{
    let Listing { files, .. } = find_all(alloc, files, paths)?;
    Ok(files)
}

/// What paths lead to.
///
/// Given paths are taken in order, whatever their names. A folder stands for the files below it whose names end in
/// `.wac`, in the order of their names' bytes, and then the links to such files, those with a name that begins with a dot
/// left out, as are links to folders. A file that is reached twice is listed once, for the first path. What goes away
/// while it is looked for is left out, unless it was given.
pub fn find_all<F: FileSystem>(
    alloc: Global,
    files: &mut F,
    paths: &[&str],
) -> Result<Listing, AllocError>
    ensures { F.replaced files.new ≡ F.replaced files.old }
{
    let mut walk = Walk::new(alloc);
    for path in paths.iter().rev() {
        let path = String::from_str(alloc, path)?;
        walk.add(path, true, None)?;
    }
    for _ in 0..u64::MAX {
        if !walk.step(alloc, files)? {
            break;
        }
    }
    walk.follow(alloc, files)?;
    let Walk { found, others, .. } = walk;
    Ok(Listing {
        files: found,
        others,
    })
}

/// A walk over paths and folders.
#[derive(Drop)]
struct Walk {
    // What is to be looked at, the next one last.
    pending: Vec<Pending>,
    // The links to files that were found in folders.
    links: Vec<String>,
    found: Vec<Found>,
    others: Vec<String>,
    // The resolved paths of what was found.
    seen: BTreeSet<String>,
}

impl Walk {
    fn new(alloc: Global) -> Self {
        Walk {
            pending: Vec::new(alloc),
            links: Vec::new(alloc),
            found: Vec::new(alloc),
            others: Vec::new(alloc),
            seen: BTreeSet::new(alloc),
        }
    }

    fn add(
        &mut self,
        path: String,
        is_given: bool,
        failure: Option<FileError>,
    ) -> Result<(), AllocError> {
        self.pending.push(Pending {
            path,
            is_given,
            failure,
        })?;
        Ok(())
    }

    /// Looks at the next path. Returns whether there was one.
    fn step<F: FileSystem>(&mut self, alloc: Global, files: &mut F) -> Result<bool, AllocError>
        ensures { F.replaced files.new ≡ F.replaced files.old }
    {
        let Some(pending) = self.pending.pop() else {
            return Ok(false);
        };
        let Pending {
            path,
            is_given,
            failure,
        } = pending;
        if let Some(failure) = failure {
            self.fail(path, failure)?;
            return Ok(true);
        }
        match kind_of(files, path.as_str(), is_given) {
            Ok(Some(Kind::File)) => self.file(alloc, files, path, Origin::of(is_given))?,
            Ok(Some(Kind::Folder)) => self.folder(alloc, files, path, is_given)?,
            Ok(Some(Kind::Link | Kind::Other)) if is_given => {
                self.fail(path, FileError::NotAFile)?;
            }
            Ok(Some(Kind::Link)) => self.links.push(path)?,
            Ok(Some(Kind::Other)) => self.pass_over(path)?,
            Ok(None) => {}
            Err(error) => self.miss(path, error, is_given)?,
        }
        Ok(true)
    }

    /// Lists a path at which no file can be read, unless it was found and went away.
    fn miss(&mut self, path: String, failure: FileError, is_given: bool) -> Result<(), AllocError> {
        if failure == FileError::NotFound && !is_given {
            return Ok(());
        }
        self.fail(path, failure)
    }

    /// Lists the files that the links lead to which were found, unless they are listed.
    fn follow<F: FileSystem>(&mut self, alloc: Global, files: &mut F) -> Result<(), AllocError>
        ensures { F.replaced files.new ≡ F.replaced files.old }
    {
        for path in mem::replace(&mut self.links, Vec::new(alloc)) {
            self.file(alloc, files, path, Origin::Link)?;
        }
        Ok(())
    }

    /// Lists what is no file, unless it was given too.
    fn pass_over(&mut self, path: String) -> Result<(), AllocError> {
        if !self.seen.contains(path.as_str()) {
            self.others.push(path)?;
        }
        Ok(())
    }

    /// Lists a path at which no file can be read.
    fn fail(&mut self, path: String, failure: FileError) -> Result<(), AllocError> {
        if self.seen.contains(path.as_str()) {
            return Ok(());
        }
        self.seen.insert(path.clone()?)?;
        self.found.push(Found {
            path,
            failure: Some(failure),
            is_link: false,
        })?;
        Ok(())
    }

    /// Lists a file, unless it is listed.
    fn file<F: FileSystem>(
        &mut self,
        alloc: Global,
        files: &mut F,
        path: String,
        origin: Origin,
    ) -> Result<(), AllocError>
        ensures { F.replaced files.new ≡ F.replaced files.old }
    {
        let resolved = match files.resolve(alloc, path.as_str()) {
            Ok(resolved) => resolved,
            Err(FileError::OutOfMemory) => return Err(AllocError),
            Err(error) => return self.miss(path, error, origin == Origin::Given),
        };
        if !self.seen.insert(resolved)? {
            return Ok(());
        }
        self.found.push(Found {
            path,
            failure: None,
            is_link: origin == Origin::Link,
        })?;
        Ok(())
    }

    /// Adds what is in a folder to what is to be looked at.
    fn folder<F: FileSystem>(
        &mut self,
        alloc: Global,
        files: &mut F,
        path: String,
        is_given: bool,
    ) -> Result<(), AllocError>
        ensures { F.replaced files.new ≡ F.replaced files.old }
    {
        let mut names = match files.list(alloc, path.as_str()) {
            Ok(names) => names,
            Err(FileError::OutOfMemory) => return Err(AllocError),
            Err(error) => return self.miss(path, error, is_given),
        };
        names.sort()?;
        for name in names.as_slice().iter().rev() {
            if !is_hidden(name.as_slice()) {
                self.entry(alloc, path.as_str(), name.as_slice())?;
            }
        }
        Ok(())
    }

    /// Adds a name in a folder to what is to be looked at.
    fn entry(&mut self, alloc: Global, folder: &str, name: &[u8]) -> Result<(), AllocError> {
        match str::from_utf8(name) {
            Ok(text) => {
                let path = join(alloc, folder, text)?;
                self.add(path, false, None)
            }
            // It is no document, or a folder that no path leads to.
            Err(_) if !is_wac(name) => Ok(()),
            Err(_) => {
                let shown = String::from_utf8_lossy(alloc, name)?;
                let path = join(alloc, folder, shown.as_str())?;
                self.add(path, false, Some(FileError::NameNotUtf8))
            }
        }
    }
}

/// What a path is taken as: a link where it leads to a file and was found. It is `None` for what a folder holds besides
/// folders and what is named as a WAC file is.
fn kind_of<F: FileSystem>(
    files: &mut F,
    path: &str,
    is_given: bool,
) -> Result<Option<Kind>, FileError>
    ensures { F.replaced files.new ≡ F.replaced files.old }
{
    if is_given {
        return Ok(Some(files.target(path)?));
    }
    match files.kind(path)? {
        Kind::Folder => Ok(Some(Kind::Folder)),
        Kind::File if is_wac(path.as_bytes()) => Ok(Some(Kind::File)),
        Kind::Link if is_wac(path.as_bytes()) => match files.target(path) {
            Ok(Kind::File) => Ok(Some(Kind::Link)),
            Ok(Kind::Folder) => Ok(None),
            Ok(Kind::Link | Kind::Other) | Err(FileError::NotFound) => Ok(Some(Kind::Other)),
            // A link that leads to itself.
            Err(FileError::System(ErrorKind::FilesystemLoop)) => Ok(Some(Kind::Other)),
            Err(error) => Err(error),
        },
        Kind::Other if is_wac(path.as_bytes()) => Ok(Some(Kind::Other)),
        Kind::File | Kind::Link | Kind::Other => Ok(None),
    }
}
