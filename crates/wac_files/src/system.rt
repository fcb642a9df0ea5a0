// What a command asks of files.
ghost use Rattle.std.specs.Prelude.{◌≡◌, List, IfErr, IfOk};
ghost use Rattle.wac_files.specs.Replacements.{Replacement, Appends};

use crate::error::FileError;
use std::alloc::Global;

/// What is at a path.
#[derive(Clone, Copy, Debug, PartialEq, Eq)]
pub enum Kind {
    /// A regular file.
    File,
    /// A folder.
    Folder,
    /// A symbolic link.
    Link,
    /// A pipe, a socket or a device.
    Other,
}

/// What a command asks of files. Paths and names of files are text; a folder can hold other names too.
///
/// It counts what it replaced. The list exists in contracts alone: it takes no memory.
pub trait FileSystem {
    /// What it replaced so far, in order.
    ghost replaced: { Self → List Replacement };

    /// What is at a path. A link at its end is not followed.
    fn kind(&mut self, path: &str) -> Result<Kind, FileError>
        ensures { replaced self.new ≡ replaced self.old };

    /// What a path leads to. Links are followed.
    fn target(&mut self, path: &str) -> Result<Kind, FileError>
        ensures { replaced self.new ≡ replaced self.old };

    /// The names in a folder, in any order, without `.` and `..`.
    fn list(&mut self, alloc: Global, path: &str) -> Result<Vec<Vec<u8>>, FileError>
        ensures { replaced self.new ≡ replaced self.old };

    /// The one path without links that leads where a path leads. It is the same for all paths of a file, but for hard
    /// links.
    fn resolve(&mut self, alloc: Global, path: &str) -> Result<String, FileError>
        ensures { replaced self.new ≡ replaced self.old };

    /// All bytes of the file that a path leads to, if it is no larger than those that are read.
    fn read(&mut self, alloc: Global, path: &str) -> Result<Vec<u8>, FileError>
        ensures { replaced self.new ≡ replaced self.old };

    /// Removes what runs that ended left in the folder of the file that a path leads to. Fails where one may have ended
    /// while it wrote that file, and left a copy of what it held.
    fn sweep(&mut self, alloc: Global, path: &str) -> Result<(), FileError>
        ensures { replaced self.new ≡ replaced self.old };

    /// Has the file that a path leads to, and that held these bytes, hold a text in their place: wholly or not at all.
    fn replace(
        &mut self,
        alloc: Global,
        path: &str,
        held: &[u8],
        text: &[u8],
    ) -> Result<(), FileError>
        ensures done { IfOk result (λ _. Appends (replaced self.old) (replaced self.new) path.now held.now text.now) }
        ensures failed { IfErr result (λ _. replaced self.new ≡ replaced self.old) };
}
