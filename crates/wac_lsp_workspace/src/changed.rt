//! Reading files of folders that were changed.
ghost use Rattle.std.specs.Prelude.{◌≡◌};

use crate::contents::{
    ComponentPackage, component_of, line_of, may_be_kept, resolved_folders, text_in, too_many,
};
use crate::packages::path_below;
use crate::roots::Root;
use crate::walk::{is_document, is_passed_over};
use crate::workspace::{Workspace, is_within};
use std::alloc::{AllocError, Global};
use wac_component_packages::{folder_of, is_component_file};
use wac_files::{FileError, FileSystem};

/// A document, as its file is now: without a text where it is gone, or is none.
#[derive(Drop)]
pub(crate) struct DocumentNow {
    pub(crate) path: String,
    pub(crate) text: Option<String>,
}

/// What was read of files that were changed.
#[derive(Drop)]
pub struct FileContents {
    pub(crate) documents: Vec<DocumentNow>,
    pub(crate) components: Vec<ComponentPackage>,
    /// The files that were passed over, with the reasons, a line each.
    pub(crate) passed_over: Vec<String>,
    /// The resolved paths of the folders.
    resolved: Vec<String>,
    bytes: usize,
}

/// What a path is to a workspace.
enum Meaning {
    /// Nothing.
    Nothing,
    /// A document.
    Document,
    /// A component that was read, with the name of its package.
    Component(String),
    /// Something for which the folders have to be read.
    Folders,
}

/// Reads files that were changed, made or removed: `None` where the folders are to be read for them, as where there are other
/// components than before. No other file is read.
pub fn read_files<F: FileSystem>(
    alloc: Global,
    files: &mut F,
    workspace: &Workspace,
    paths: &[String],
) -> Result<Option<FileContents>, AllocError>
    // No file is replaced.
    ensures { F.replaced files.new ≡ F.replaced files.old }
{
    let mut contents = FileContents {
        documents: Vec::new(alloc),
        components: Vec::new(alloc),
        passed_over: Vec::new(alloc),
        resolved: resolved_folders(alloc, files, workspace.folders())?,
        bytes: workspace.saved_bytes(),
    };
    if !workspace.is_read() {
        return Ok(None);
    }
    for path in paths {
        if !contents.path(alloc, files, workspace, path.as_str())? {
            return Ok(None);
        }
    }
    Ok(Some(contents))
}

/// Whether one of the names in a path is passed over.
fn has_passed_over(path: &str) -> bool {
    for name in path.split('/') {
        if is_passed_over(name) {
            return true;
        }
    }
    false
}

/// Whether a path is passed over in each folder of the client in which it is.
fn is_left_out(folders: &[String], path: &str) -> bool {
    for folder in folders {
        if let Some(below) = path_below(folder.as_str(), path) {
            if !has_passed_over(below) {
                return false;
            }
        }
    }
    true
}

/// Whether components may be looked for in a folder of a path.
fn is_of_packages(path: &str) -> bool {
    for name in path.split('/') {
        if name == "deps" || name == "packages" {
            return true;
        }
    }
    false
}

/// The component of a path.
fn component_at<'r>(roots: &'r [Root], path: &str) -> Option<&'r ComponentPackage> {
    for root in roots {
        let found = root
            .components
            .as_slice()
            .iter()
            .find(|component| component.path.as_str() == path);
        if found.is_some() {
            return found;
        }
    }
    None
}

/// What the path of a document is to a workspace.
fn meaning_of_document(workspace: &Workspace, path: &str) -> Meaning {
    if !workspace.holds(path) || is_left_out(workspace.folders(), path) {
        return Meaning::Nothing;
    }
    if workspace.houses(folder_of(path)) {
        Meaning::Document
    } else {
        Meaning::Folders
    }
}

/// What the path of a component is to a workspace.
fn meaning_of_component(
    alloc: Global,
    workspace: &Workspace,
    path: &str,
) -> Result<Meaning, AllocError> {
    match component_at(workspace.roots(), path) {
        Some(component) => Ok(Meaning::Component(String::from_str(alloc, component.key.as_str())?)),
        None if is_of_packages(path) => Ok(Meaning::Folders),
        None => Ok(Meaning::Nothing),
    }
}

/// What a path is to a workspace.
fn meaning_of(alloc: Global, workspace: &Workspace, path: &str) -> Result<Meaning, AllocError> {
    if is_document(path) {
        return Ok(meaning_of_document(workspace, path));
    }
    if is_component_file(path) {
        return meaning_of_component(alloc, workspace, path);
    }
    Ok(Meaning::Folders)
}

impl FileContents {
    /// Reads what is at a path. Returns whether the folders needn't be read for it.
    fn path<F: FileSystem>(
        &mut self,
        alloc: Global,
        files: &mut F,
        workspace: &Workspace,
        path: &str,
    ) -> Result<bool, AllocError>
        ensures { F.replaced files.new ≡ F.replaced files.old }
    {
        match meaning_of(alloc, workspace, path)? {
            Meaning::Nothing => Ok(true),
            Meaning::Folders => Ok(false),
            Meaning::Document => {
                self.document(alloc, files, path)?;
                Ok(true)
            }
            Meaning::Component(key) => self.component(alloc, files, path, key.as_str()),
        }
    }

    /// Reads a component of a package. Returns whether it is there.
    fn component<F: FileSystem>(
        &mut self,
        alloc: Global,
        files: &mut F,
        path: &str,
        key: &str,
    ) -> Result<bool, AllocError>
        ensures { F.replaced files.new ≡ F.replaced files.old }
    {
        match files.read(alloc, path) {
            Ok(bytes) => {
                let component = component_of(alloc, path, key, bytes.as_slice())?;
                self.components.push(component)?;
                Ok(true)
            }
            Err(FileError::OutOfMemory) => Err(AllocError),
            // It is gone, or has no package any more, as another component may have it.
            Err(_) => Ok(false),
        }
    }

    /// Whether a path leads into a folder of the client.
    fn leads_within<F: FileSystem>(
        &self,
        alloc: Global,
        files: &mut F,
        path: &str,
    ) -> Result<bool, AllocError>
        ensures { F.replaced files.new ≡ F.replaced files.old }
    {
        match files.resolve(alloc, path) {
            Ok(resolved) => Ok(is_within(self.resolved.as_slice(), resolved.as_str())),
            Err(FileError::OutOfMemory) => Err(AllocError),
            Err(_) => Ok(false),
        }
    }

    /// Reads a document.
    fn document<F: FileSystem>(
        &mut self,
        alloc: Global,
        files: &mut F,
        path: &str,
    ) -> Result<(), AllocError>
        ensures { F.replaced files.new ≡ F.replaced files.old }
    {
        if !self.leads_within(alloc, files, path)? {
            return self.add(alloc, path, None);
        }
        match files.read(alloc, path) {
            Ok(bytes) => self.add_bytes(alloc, path, bytes.as_slice()),
            Err(error) => {
                self.passed_over.push(line_of(alloc, path, error)?)?;
                self.add(alloc, path, None)
            }
        }
    }

    /// Adds a document of these bytes.
    fn add_bytes(&mut self, alloc: Global, path: &str, bytes: &[u8]) -> Result<(), AllocError> {
        match text_in(alloc, bytes) {
            Ok(Some(text)) => self.add_text(alloc, path, text),
            Ok(None) => self.add(alloc, path, None),
            Err(_) => Err(AllocError),
        }
    }

    /// Adds a document of this text, unless all would have too many bytes.
    fn add_text(&mut self, alloc: Global, path: &str, text: &str) -> Result<(), AllocError> {
        if !may_be_kept(self.bytes, text.len()) {
            self.passed_over.push(too_many(alloc, path)?)?;
            return self.add(alloc, path, None);
        }
        self.bytes = self.bytes.saturating_add(text.len());
        self.add(alloc, path, Some(text))
    }

    /// Adds a document.
    fn add(&mut self, alloc: Global, path: &str, text: Option<&str>) -> Result<(), AllocError> {
        let text = match text {
            Some(text) => Some(String::from_str(alloc, text)?),
            None => None,
        };
        self.documents.push(DocumentNow {
            path: String::from_str(alloc, path)?,
            text,
        })?;
        Ok(())
    }
}
