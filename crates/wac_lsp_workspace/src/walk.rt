//! The documents below a folder.
ghost use Rattle.std.specs.Prelude.{◌≡◌};

use crate::packages::path_below;
use std::alloc::{AllocError, Global};
use wac_files::{FileError, FileSystem, Kind};

/// How many names are looked at below a folder, at most.
const MOST_NAMES: u32 = 100_000;

/// A walk over the folders below one.
#[derive(Drop)]
struct Walk<'r> {
    // The resolved path of the folder, out of which no link is followed.
    root: &'r str,
    // What is to be looked at, the next one last.
    pending: Vec<String>,
    found: Vec<String>,
}

/// The files below a folder whose names end in `.wac`, in the order of their names' bytes.
///
/// Left out are names that begin with a dot and names that aren't UTF-8, folders called `target` or `node_modules`, links
/// to folders, links to files that aren't below `root`, and what can't be looked at. At most 100,000 names are looked at.
pub(crate) fn documents_below<F: FileSystem>(
    alloc: Global,
    files: &mut F,
    folder: &str,
    root: &str,
) -> Result<Vec<String>, AllocError>
    ensures { F.replaced files.new ≡ F.replaced files.old }
{
    let mut walk = Walk {
        root,
        pending: Vec::new(alloc),
        found: Vec::new(alloc),
    };
    walk.folder(alloc, files, folder)?;
    for _ in 0..MOST_NAMES {
        if !walk.step(alloc, files)? {
            break;
        }
    }
    let Walk { found, .. } = walk;
    Ok(found)
}

/// Whether a name is passed over.
pub(crate) fn is_passed_over(name: &str) -> bool {
    name.starts_with('.') || name == "target" || name == "node_modules"
}

/// Whether a path is that of a document, by its name.
pub(crate) fn is_document(path: &str) -> bool {
    path.ends_with(".wac")
}

/// Whether a path leads to one below another, whose resolved path that is.
pub(crate) fn leads_below<F: FileSystem>(
    alloc: Global,
    files: &mut F,
    path: &str,
    root: &str,
) -> Result<bool, AllocError>
    ensures { F.replaced files.new ≡ F.replaced files.old }
{
    match files.resolve(alloc, path) {
        Ok(resolved) => Ok(path_below(root, resolved.as_str()).is_some()),
        Err(FileError::OutOfMemory) => Err(AllocError),
        Err(_) => Ok(false),
    }
}

/// What a path is taken as: nothing where it is neither a folder nor a document, or leads out of `root`.
fn kind_of<F: FileSystem>(
    alloc: Global,
    files: &mut F,
    path: &str,
    root: &str,
) -> Result<Option<Kind>, AllocError>
    ensures { F.replaced files.new ≡ F.replaced files.old }
{
    match files.kind(path) {
        Ok(Kind::Folder) => Ok(Some(Kind::Folder)),
        Ok(Kind::File) if is_document(path) => Ok(Some(Kind::File)),
        Ok(Kind::Link) if is_document(path) => linked_kind(alloc, files, path, root),
        _ => Ok(None),
    }
}

/// The same of a link.
fn linked_kind<F: FileSystem>(
    alloc: Global,
    files: &mut F,
    path: &str,
    root: &str,
) -> Result<Option<Kind>, AllocError>
    ensures { F.replaced files.new ≡ F.replaced files.old }
{
    match files.target(path) {
        Ok(Kind::File) if leads_below(alloc, files, path, root)? => Ok(Some(Kind::File)),
        _ => Ok(None),
    }
}

impl<'r> Walk<'r> {
    /// Looks at the next path. Returns whether there was one.
    fn step<F: FileSystem>(&mut self, alloc: Global, files: &mut F) -> Result<bool, AllocError>
        ensures { F.replaced files.new ≡ F.replaced files.old }
    {
        let Some(path) = self.pending.pop() else {
            return Ok(false);
        };
        match kind_of(alloc, files, path.as_str(), self.root)? {
            Some(Kind::Folder) => self.folder(alloc, files, path.as_str())?,
            Some(_) => self.found.push(path)?,
            None => {}
        }
        Ok(true)
    }

    /// Adds what is in a folder to what is to be looked at.
    fn folder<F: FileSystem>(
        &mut self,
        alloc: Global,
        files: &mut F,
        path: &str,
    ) -> Result<(), AllocError>
        ensures { F.replaced files.new ≡ F.replaced files.old }
    {
        match files.list(alloc, path) {
            Ok(names) => self.names(alloc, path, names),
            Err(FileError::OutOfMemory) => Err(AllocError),
            Err(_) => Ok(()),
        }
    }

    /// Adds the names in a folder.
    fn names(
        &mut self,
        alloc: Global,
        folder: &str,
        mut names: Vec<Vec<u8>>,
    ) -> Result<(), AllocError> {
        names.sort()?;
        for name in names.as_slice().iter().rev() {
            self.name(alloc, folder, name.as_slice())?;
        }
        Ok(())
    }

    /// Adds a name in a folder, unless it is passed over.
    fn name(&mut self, alloc: Global, folder: &str, name: &[u8]) -> Result<(), AllocError> {
        match str::from_utf8(name) {
            Ok(name) if !is_passed_over(name) => {
                self.pending.push(format!(in alloc; "{folder}/{name}")?)?;
                Ok(())
            }
            _ => Ok(()),
        }
    }
}
