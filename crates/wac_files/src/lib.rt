//! Files as the program `wacx` needs them: what is at a path, which files are below a folder, reading a file whole,
//! and writing one so that it is never half written.
//!
//! [`FileSystem`] is what a command asks of files. [`Disk`] is the real one; [`MemoryFiles`] holds files in memory, and
//! its n-th call can be made to fail. [`find_files`] lists the files that a command's paths lead to, and [`find_all`]
//! says, too, what it passed over.
#![tactic(auto)]

mod copies;
mod disk;
mod error;
mod log;
mod memory;
mod names;
mod rewriting;
mod sweeping;
mod system;
mod walk;

pub use copies::KeptCopy;
pub use disk::{Disk, MOST_BYTES};
pub use error::FileError;
pub use memory::MemoryFiles;
pub use system::{FileSystem, Kind};
pub use walk::{Found, Listing, find_all, find_files};
