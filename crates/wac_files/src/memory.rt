// Files in memory.
ghost use Rattle.std.specs.Prelude.{◌≡◌};

use crate::disk::MOST_BYTES;
use crate::error::FileError;
use crate::log::{Log, Step};
use crate::system::{FileSystem, Kind};
use std::alloc::{AllocError, Global};
use std::io::ErrorKind;

/// What is at a path.
#[derive(Drop)]
enum Node {
    File(Vec<u8>),
    ReadOnly(Vec<u8>),
    Folder,
    Link(String),
    Other,
}

#[derive(Drop)]
struct Entry {
    path: String,
    node: Node,
}

/// Files in memory, for tests. The n-th call can be made to fail.
///
/// A folder's path has no slash at its end. A link leads to another path that is whole.
#[derive(Drop)]
pub struct MemoryFiles {
    entries: Vec<Entry>,
    calls: usize,
    failing: Option<usize>,
    // The most bytes that a file that is read may have.
    most: u64,
    log: Log,
}

impl MemoryFiles {
    /// No files.
    pub fn new(alloc: Global) -> Self {
        MemoryFiles {
            entries: Vec::new(alloc),
            calls: 0,
            failing: None,
            most: MOST_BYTES,
            log: Log::after(&Step::Begins),
        }
    }

    /// Refuses to read files of more bytes.
    pub fn limit(&mut self, most: u64) {
        self.most = most;
    }

    /// Lets the call fail that comes after so many others.
    pub fn fail_at(&mut self, call: usize) {
        self.calls = 0;
        self.failing = Some(call);
    }

    /// How many calls there were since the last that was to fail was set.
    pub fn calls(&self) -> usize {
        self.calls
    }

    /// Adds a file.
    pub fn file(&mut self, alloc: Global, path: &str, bytes: &[u8]) -> Result<(), AllocError> {
        let bytes = Vec::from_slice(alloc, bytes)?;
        self.add(alloc, path, Node::File(bytes))
    }

    /// Adds a file that may not be written.
    pub fn read_only(&mut self, alloc: Global, path: &str, bytes: &[u8]) -> Result<(), AllocError> {
        let bytes = Vec::from_slice(alloc, bytes)?;
        self.add(alloc, path, Node::ReadOnly(bytes))
    }

    /// Adds a folder.
    pub fn folder(&mut self, alloc: Global, path: &str) -> Result<(), AllocError> {
        self.add(alloc, path, Node::Folder)
    }

    /// Adds a link to another path.
    pub fn link(&mut self, alloc: Global, path: &str, target: &str) -> Result<(), AllocError> {
        let target = String::from_str(alloc, target)?;
        self.add(alloc, path, Node::Link(target))
    }

    /// Adds a pipe.
    pub fn pipe(&mut self, alloc: Global, path: &str) -> Result<(), AllocError> {
        self.add(alloc, path, Node::Other)
    }

    /// What the file at a path holds.
    pub fn bytes(&self, path: &str) -> Option<&[u8]> {
        match self.node(path) {
            Some(Node::File(bytes) | Node::ReadOnly(bytes)) => Some(bytes.as_slice()),
            _ => None,
        }
    }

    fn add(&mut self, alloc: Global, path: &str, node: Node) -> Result<(), AllocError> {
        let path = String::from_str(alloc, path)?;
        self.entries.push(Entry { path, node })?;
        Ok(())
    }

    /// Counts a call, which fails if it is the one that is to.
    fn call(&mut self) -> Result<(), FileError>
        ensures { self.new.log.replaced ≡ self.old.log.replaced }
    {
        let call = self.calls;
        self.calls = self.calls.saturating_add(1);
        if self.failing == Some(call) {
            return Err(FileError::System(ErrorKind::Other));
        }
        Ok(())
    }

    /// What is at a path. A link is not followed.
    fn node(&self, path: &str) -> Option<&Node> {
        self.entries
            .as_slice()
            .iter()
            .find(|entry| entry.path.as_str() == path)
            .map(|entry| &entry.node)
    }

    /// The entry that a path leads to.
    fn entry(&self, path: &str) -> Option<&Entry> {
        self.entries.as_slice().get(self.place(path)?)
    }

    /// Where the entry is that a path leads to. At most one link is followed.
    fn place(&self, path: &str) -> Option<usize> {
        let path = match self.node(path) {
            Some(Node::Link(target)) => target.as_str(),
            _ => path,
        };
        self.entries
            .as_slice()
            .iter()
            .position(|entry| entry.path.as_str() == path)
    }
}

fn kind_of(node: &Node) -> Kind {
    match node {
        Node::File(_) | Node::ReadOnly(_) => Kind::File,
        Node::Folder => Kind::Folder,
        Node::Link(_) => Kind::Link,
        Node::Other => Kind::Other,
    }
}

impl FileSystem for MemoryFiles {
    ghost replaced = { λ files. files.log.replaced };

    fn kind(&mut self, path: &str) -> Result<Kind, FileError> {
        self.call()?;
        match self.node(path) {
            Some(node) => Ok(kind_of(node)),
            None => Err(FileError::NotFound),
        }
    }

    fn target(&mut self, path: &str) -> Result<Kind, FileError> {
        self.call()?;
        match self.entry(path) {
            Some(entry) => Ok(kind_of(&entry.node)),
            None => Err(FileError::NotFound),
        }
    }

    fn list(&mut self, alloc: Global, path: &str) -> Result<Vec<Vec<u8>>, FileError> {
        self.call()?;
        let mut names = Vec::new(alloc);
        for entry in self.entries.as_slice() {
            if let Some(name) = name_in(path, entry.path.as_str()) {
                let name = Vec::from_slice(alloc, name.as_bytes())?;
                if names.push(name).is_err() {
                    return Err(FileError::OutOfMemory);
                }
            }
        }
        Ok(names)
    }

    fn resolve(&mut self, alloc: Global, path: &str) -> Result<String, FileError> {
        self.call()?;
        match self.entry(path) {
            Some(entry) => Ok(String::from_str(alloc, entry.path.as_str())?),
            None => Err(FileError::NotFound),
        }
    }

    fn read(&mut self, alloc: Global, path: &str) -> Result<Vec<u8>, FileError> {
        self.call()?;
        match self.entry(path) {
            Some(entry) => match &entry.node {
                Node::File(bytes) | Node::ReadOnly(bytes) => {
                    if bytes.len() as u64 > self.most {
                        return Err(FileError::TooLarge(self.most));
                    }
                    Ok(Vec::from_slice(alloc, bytes.as_slice())?)
                }
                _ => Err(FileError::NotAFile),
            },
            None => Err(FileError::NotFound),
        }
    }

    fn sweep(&mut self, _alloc: Global, _path: &str) -> Result<(), FileError> {
        self.call()
    }

    fn replace(
        &mut self,
        alloc: Global,
        path: &str,
        held: &[u8],
        text: &[u8],
    ) -> Result<(), FileError> {
        self.call()?;
        let bytes = Vec::from_slice(alloc, text)?;
        let Some(place) = self.place(path) else {
            return Err(FileError::NotFound);
        };
        match self.entries.as_mut_slice().get_mut(place) {
            Some(entry) => replace_node(&mut entry.node, held, bytes)?,
            None => return Err(FileError::NotFound),
        }
        self.log = Log::after(&Step::Replaces(&self.log, path, held, text));
        Ok(())
    }
}

/// Has a file that held these bytes hold a text.
fn replace_node(node: &mut Node, held: &[u8], text: Vec<u8>) -> Result<(), FileError> {
    match node {
        Node::File(bytes) if bytes.as_slice() == held => {
            *bytes = text;
            Ok(())
        }
        Node::File(_) => Err(FileError::ChangedMeanwhile),
        Node::ReadOnly(_) => Err(FileError::ReadOnly),
        _ => Err(FileError::NotAFile),
    }
}

/// The name that a path has in a folder.
fn name_in<'a>(folder: &str, path: &'a str) -> Option<&'a str> {
    let name = if folder == "." {
        path
    } else {
        path.strip_prefix(folder)?.strip_prefix('/')?
    };
    if name.is_empty() || name.contains('/') || name == "." {
        return None;
    }
    Some(name)
}
