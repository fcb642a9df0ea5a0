// What runs that ended left beside files.
use crate::copies::KeptCopy;
use std::alloc::{AllocError, Global};
use std::collections::BTreeSet;

/// A copy that may have what a file of its folder lost.
#[derive(Drop)]
struct Leftover {
    folder: String,
    copy: KeptCopy,
}

/// What was found of runs that ended.
#[derive(Drop)]
pub(crate) struct Sweep {
    // The folders that were looked at.
    folders: BTreeSet<String>,
    leftovers: Vec<Leftover>,
}

impl Sweep {
    pub(crate) fn new(alloc: Global) -> Self {
        Sweep {
            folders: BTreeSet::new(alloc),
            leftovers: Vec::new(alloc),
        }
    }

    /// Notes that a folder is looked at. Returns whether it was not yet.
    pub(crate) fn enter(&mut self, alloc: Global, folder: &str) -> Result<bool, AllocError> {
        if self.folders.contains(folder) {
            return Ok(false);
        }
        self.folders.insert(String::from_str(alloc, folder)?)?;
        Ok(true)
    }

    /// Notes a copy that may have what a file of a folder lost.
    pub(crate) fn add(
        &mut self,
        alloc: Global,
        folder: &str,
        copy: KeptCopy,
    ) -> Result<(), AllocError> {
        let folder = String::from_str(alloc, folder)?;
        self.leftovers.push(Leftover { folder, copy })?;
        Ok(())
    }

    /// The copy that may have what the file of this number in a folder lost.
    pub(crate) fn copy_of(&self, folder: &str, inode: u64) -> Option<KeptCopy> {
        self.leftovers
            .as_slice()
            .iter()
            .find(|left| left.copy.inode == inode && left.folder.as_str() == folder)
            .map(|left| left.copy)
    }
}
