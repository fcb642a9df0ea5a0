//! Reading the folders of a client.
ghost use Rattle.std.specs.Prelude.{◌≡◌};

use crate::components::{ShownPackage, shown_packages};
use crate::kinds::is_declaration;
use crate::walk::{documents_below, leads_below};
use crate::workspace::{Workspace, is_among, is_within};
use std::alloc::{AllocError, Global};
use std::collections::{BTreeMap, BTreeSet};
use wac_component_packages::{ComponentFile, default_folders, find_components, folder_of};
use wac_component_reading::{Converted, component_package};
use wac_files::{FileError, FileSystem, Kind};
use wac_first_error::Reading;
use wac_graph::Package;
use wac_package_errors::flat_text;

/// How many bytes all documents together may have: 64 MB.
const MOST_BYTES: usize = 67_108_864;

/// A document, as its file has it.
#[derive(Drop)]
pub(crate) struct DocumentFile {
    pub(crate) path: String,
    pub(crate) text: String,
}

/// A component, by its path.
#[derive(Drop)]
pub(crate) struct ComponentPackage {
    pub(crate) path: String,
    /// The name of its package, with the version.
    pub(crate) key: String,
    /// Its package: none where its bytes have an error.
    pub(crate) package: Option<Package>,
    /// What `wacx package` shows of it, its own package first: nothing where its bytes have an error.
    pub(crate) shown: Vec<ShownPackage>,
}

/// The folders in which components are looked for, for the documents of some folders, and what they hold.
#[derive(Drop)]
pub(crate) struct FoundRoot {
    pub(crate) folders: Vec<String>,
    pub(crate) components: Vec<ComponentPackage>,
    /// Files of components from whose paths no name of a package follows.
    pub(crate) misplaced: Vec<String>,
}

/// Components of some folders.
#[derive(Drop)]
struct Gathered {
    components: Vec<ComponentPackage>,
    misplaced: Vec<String>,
}

/// Components that were found below a folder, and the resolved path of the folder in which that is.
#[derive(Clone, Copy)]
struct Below<'f> {
    found: &'f [ComponentFile],
    above: &'f str,
}

/// What was read of folders: their documents, and the components of packages.
#[derive(Drop)]
pub struct FolderContents {
    /// The documents that declare packages, or are to.
    pub(crate) declarations: Vec<DocumentFile>,
    /// All other documents.
    pub(crate) compositions: Vec<DocumentFile>,
    /// Where components are.
    pub(crate) roots: Vec<FoundRoot>,
    /// The number of the root of each folder that has a document: none where no components are looked for.
    pub(crate) homes: BTreeMap<String, Option<usize>>,
    /// The files that were passed over, with the reasons, a line each.
    pub(crate) passed_over: Vec<String>,
    /// The resolved paths of the folders.
    resolved: Vec<String>,
    seen: BTreeSet<String>,
    bytes: usize,
}

/// Reads the folders of a workspace: all `*.wac` below each, and the components of packages in `deps` and `packages` of the
/// nearest folder that has one of them, from a document's upwards to the one that holds `.git`; without a `.git` of the
/// document's own folder alone. Documents there are read where they are in none of the folders, too.
///
/// A component is decoded once, here. A file that can't be read is passed over, and so is each document with which all would
/// have more than 64 MB. No link is followed that leads out of a folder.
pub fn read_folders<F: FileSystem>(
    alloc: Global,
    files: &mut F,
    workspace: &Workspace,
) -> Result<FolderContents, AllocError>
    // No file is replaced.
    ensures { F.replaced files.new ≡ F.replaced files.old }
{
    let mut contents = FolderContents::none(alloc);
    contents.resolved = resolved_folders(alloc, files, workspace.folders())?;
    for folder in workspace.folders() {
        contents.folder(alloc, files, workspace, folder.as_str())?;
    }
    contents.open(alloc, files, workspace)?;
    Ok(contents)
}

/// The resolved paths of folders.
pub(crate) fn resolved_folders<F: FileSystem>(
    alloc: Global,
    files: &mut F,
    folders: &[String],
) -> Result<Vec<String>, AllocError>
    ensures { F.replaced files.new ≡ F.replaced files.old }
{
    let mut resolved = Vec::new(alloc);
    for folder in folders {
        resolved.push(resolved_path(alloc, files, folder.as_str())?)?;
    }
    Ok(resolved)
}

/// The resolved path of a folder: the path itself, where it has none.
fn resolved_path<F: FileSystem>(
    alloc: Global,
    files: &mut F,
    path: &str,
) -> Result<String, AllocError>
    ensures { F.replaced files.new ≡ F.replaced files.old }
{
    match files.resolve(alloc, path) {
        Ok(resolved) => Ok(resolved),
        Err(FileError::OutOfMemory) => Err(AllocError),
        Err(_) => String::from_str(alloc, path),
    }
}

/// The text of bytes, if they are one and its brackets aren't nested too deeply.
pub(crate) fn text_in(alloc: Global, bytes: &[u8]) -> Result<Option<&str>, AllocError> {
    match flat_text(alloc, bytes) {
        Ok(Reading::Text(text)) => Ok(Some(text)),
        Ok(Reading::Rejected(_)) => Ok(None),
        Err(_) => Err(AllocError),
    }
}

/// The text of bytes, if it declares a package and its brackets aren't nested too deeply.
pub(crate) fn declaration_in(alloc: Global, bytes: &[u8]) -> Result<Option<String>, AllocError> {
    match text_in(alloc, bytes) {
        Ok(Some(text)) if is_declaration(text) => Ok(Some(String::from_str(alloc, text)?)),
        Ok(_) => Ok(None),
        Err(_) => Err(AllocError),
    }
}

/// The package of a component, unless its bytes have an error.
fn package_in(alloc: Global, bytes: &[u8]) -> Result<Option<Package>, AllocError> {
    match component_package(alloc, bytes, None)? {
        Converted::Package(package) => Ok(Some(package)),
        Converted::Rejected(_) => Ok(None),
    }
}

/// The component of a package, of its bytes.
pub(crate) fn component_of(
    alloc: Global,
    path: &str,
    key: &str,
    bytes: &[u8],
) -> Result<ComponentPackage, AllocError> {
    let package = package_in(alloc, bytes)?;
    let shown = shown_packages(alloc, bytes, key)?;
    Ok(ComponentPackage {
        path: String::from_str(alloc, path)?,
        key: String::from_str(alloc, key)?,
        package,
        shown,
    })
}

/// The component of a package whose file can't be read: what mentions the package isn't resolved.
fn unread_component(alloc: Global, path: &str, key: &str) -> Result<ComponentPackage, AllocError> {
    Ok(ComponentPackage {
        path: String::from_str(alloc, path)?,
        key: String::from_str(alloc, key)?,
        package: None,
        shown: Vec::new(alloc),
    })
}

/// Whether the component of a package is among some.
fn has_component(components: &[ComponentPackage], key: &str) -> bool {
    components
        .iter()
        .any(|component| component.key.as_str() == key)
}

/// Whether two lists of different folders have the same.
fn are_same(some: &[String], others: &[String]) -> bool {
    for folder in some {
        if !is_among(others, folder.as_str()) {
            return false;
        }
    }
    some.len() == others.len()
}

/// The line that says why a file is passed over. That memory ran out is no fault of the file.
pub(crate) fn line_of(alloc: Global, path: &str, error: FileError) -> Result<String, AllocError> {
    if matches!(error, FileError::OutOfMemory) {
        return Err(AllocError);
    }
    format!(in alloc; "{path}: {error}")
}

/// The line that says that all documents have too many bytes.
pub(crate) fn too_many(alloc: Global, path: &str) -> Result<String, AllocError> {
    format!(in alloc; "{path}: of all documents no more than 64 MB are read")
}

/// Whether a document of so many bytes can be kept beside others of so many.
pub(crate) fn may_be_kept(others: usize, len: usize) -> bool {
    others.saturating_add(len) <= MOST_BYTES
}

impl FolderContents {
    /// Nothing.
    pub(crate) fn none(alloc: Global) -> FolderContents {
        FolderContents {
            declarations: Vec::new(alloc),
            compositions: Vec::new(alloc),
            roots: Vec::new(alloc),
            homes: BTreeMap::new(alloc),
            passed_over: Vec::new(alloc),
            resolved: Vec::new(alloc),
            seen: BTreeSet::new(alloc),
            bytes: 0,
        }
    }

    /// Reads what is below a folder.
    fn folder<F: FileSystem>(
        &mut self,
        alloc: Global,
        files: &mut F,
        workspace: &Workspace,
        folder: &str,
    ) -> Result<(), AllocError>
        ensures { F.replaced files.new ≡ F.replaced files.old }
    {
        let root = resolved_path(alloc, files, folder)?;
        let paths = documents_below(alloc, files, folder, root.as_str())?;
        self.documents(alloc, files, paths.as_slice())?;
        self.house(alloc, files, workspace, folder)?;
        self.house_all(alloc, files, workspace, paths.as_slice())
    }

    /// Finds where the packages of the documents are that are open.
    fn open<F: FileSystem>(
        &mut self,
        alloc: Global,
        files: &mut F,
        workspace: &Workspace,
    ) -> Result<(), AllocError>
        ensures { F.replaced files.new ≡ F.replaced files.old }
    {
        for source in workspace.sources() {
            if source.opened.is_some() {
                self.house(alloc, files, workspace, folder_of(source.path.as_str()))?;
            }
        }
        Ok(())
    }

    /// Finds where the packages of documents are.
    fn house_all<F: FileSystem>(
        &mut self,
        alloc: Global,
        files: &mut F,
        workspace: &Workspace,
        paths: &[String],
    ) -> Result<(), AllocError>
        ensures { F.replaced files.new ≡ F.replaced files.old }
    {
        for path in paths {
            self.house(alloc, files, workspace, folder_of(path.as_str()))?;
        }
        Ok(())
    }

    /// Finds where the packages of the documents in a folder are, unless that was done.
    fn house<F: FileSystem>(
        &mut self,
        alloc: Global,
        files: &mut F,
        workspace: &Workspace,
        folder: &str,
    ) -> Result<(), AllocError>
        ensures { F.replaced files.new ≡ F.replaced files.old }
    {
        if self.homes.contains_key(folder) {
            return Ok(());
        }
        let folders = default_folders(alloc, files, folder)?;
        let root = self.root(alloc, files, workspace, folders)?;
        self.homes.insert(String::from_str(alloc, folder)?, root)?;
        Ok(())
    }

    /// The number of the root with these folders, which are read if they weren't: none where there is no folder.
    fn root<F: FileSystem>(
        &mut self,
        alloc: Global,
        files: &mut F,
        workspace: &Workspace,
        folders: Vec<String>,
    ) -> Result<Option<usize>, AllocError>
        ensures { F.replaced files.new ≡ F.replaced files.old }
    {
        if folders.is_empty() {
            return Ok(None);
        }
        if let Some(number) = self.number_of(folders.as_slice()) {
            return Ok(Some(number));
        }
        self.documents_outside(alloc, files, workspace, folders.as_slice())?;
        let gathered = self.components_in(alloc, files, folders.as_slice())?;
        let Gathered {
            components,
            misplaced,
        } = gathered;
        self.roots.push(FoundRoot {
            folders,
            components,
            misplaced,
        })?;
        Ok(Some(self.roots.len().saturating_sub(1)))
    }

    /// The number of the root with these folders.
    fn number_of(&self, folders: &[String]) -> Option<usize> {
        self.roots
            .as_slice()
            .iter()
            .position(|root| are_same(root.folders.as_slice(), folders))
    }

    /// Reads the documents of folders that are in none of the client's.
    fn documents_outside<F: FileSystem>(
        &mut self,
        alloc: Global,
        files: &mut F,
        workspace: &Workspace,
        folders: &[String],
    ) -> Result<(), AllocError>
        ensures { F.replaced files.new ≡ F.replaced files.old }
    {
        for folder in folders {
            if !workspace.holds(folder.as_str()) {
                self.documents_in(alloc, files, folder.as_str())?;
            }
        }
        Ok(())
    }

    /// Reads the documents of a folder.
    fn documents_in<F: FileSystem>(
        &mut self,
        alloc: Global,
        files: &mut F,
        folder: &str,
    ) -> Result<(), AllocError>
        ensures { F.replaced files.new ≡ F.replaced files.old }
    {
        let root = resolved_path(alloc, files, folder)?;
        let paths = documents_below(alloc, files, folder, root.as_str())?;
        self.documents(alloc, files, paths.as_slice())
    }

    /// Reads documents.
    fn documents<F: FileSystem>(
        &mut self,
        alloc: Global,
        files: &mut F,
        paths: &[String],
    ) -> Result<(), AllocError>
        ensures { F.replaced files.new ≡ F.replaced files.old }
    {
        for path in paths {
            self.document(alloc, files, path.as_str())?;
        }
        Ok(())
    }

    /// The components in folders.
    fn components_in<F: FileSystem>(
        &mut self,
        alloc: Global,
        files: &mut F,
        folders: &[String],
    ) -> Result<Gathered, AllocError>
        ensures { F.replaced files.new ≡ F.replaced files.old }
    {
        let mut gathered = Gathered {
            components: Vec::new(alloc),
            misplaced: Vec::new(alloc),
        };
        for folder in folders {
            let found = find_components(alloc, files, folder.as_str())?;
            let above = resolved_path(alloc, files, folder_of(folder.as_str()))?;
            let below = Below {
                found: found.as_slice(),
                above: above.as_str(),
            };
            self.components(alloc, files, &mut gathered, below)?;
        }
        Ok(gathered)
    }

    /// Reads components that were found below a folder.
    fn components<F: FileSystem>(
        &mut self,
        alloc: Global,
        files: &mut F,
        gathered: &mut Gathered,
        below: Below<'_>,
    ) -> Result<(), AllocError>
        ensures { F.replaced files.new ≡ F.replaced files.old }
    {
        for file in below.found {
            if self.stays_within(alloc, files, file.path.as_str(), below.above)? {
                self.component(alloc, files, gathered, file)?;
            }
        }
        Ok(())
    }

    /// Whether a path is no link, or one that leads into a folder of the client or below this resolved path.
    fn stays_within<F: FileSystem>(
        &self,
        alloc: Global,
        files: &mut F,
        path: &str,
        above: &str,
    ) -> Result<bool, AllocError>
        ensures { F.replaced files.new ≡ F.replaced files.old }
    {
        if !matches!(files.kind(path), Ok(Kind::Link)) {
            return Ok(true);
        }
        if leads_below(alloc, files, path, above)? {
            return Ok(true);
        }
        let resolved = resolved_path(alloc, files, path)?;
        Ok(is_within(self.resolved.as_slice(), resolved.as_str()))
    }

    /// Reads a document, unless it was read.
    fn document<F: FileSystem>(
        &mut self,
        alloc: Global,
        files: &mut F,
        path: &str,
    ) -> Result<(), AllocError>
        ensures { F.replaced files.new ≡ F.replaced files.old }
    {
        if !self.seen.insert(String::from_str(alloc, path)?)? {
            return Ok(());
        }
        match files.read(alloc, path) {
            Ok(bytes) => self.add_document(alloc, path, bytes.as_slice()),
            Err(error) => self.pass_over(alloc, path, error),
        }
    }

    /// Keeps the text of a document, if its bytes are one.
    fn add_document(&mut self, alloc: Global, path: &str, bytes: &[u8]) -> Result<(), AllocError> {
        match text_in(alloc, bytes) {
            Ok(Some(text)) => self.add_text(alloc, path, text),
            Ok(None) => Ok(()),
            Err(_) => Err(AllocError),
        }
    }

    /// Keeps the text of a document, unless all would have too many bytes.
    fn add_text(&mut self, alloc: Global, path: &str, text: &str) -> Result<(), AllocError> {
        if !may_be_kept(self.bytes, text.len()) {
            self.passed_over.push(too_many(alloc, path)?)?;
            return Ok(());
        }
        self.bytes = self.bytes.saturating_add(text.len());
        let kept = DocumentFile {
            path: String::from_str(alloc, path)?,
            text: String::from_str(alloc, text)?,
        };
        if is_declaration(text) {
            self.declarations.push(kept)?;
        } else {
            self.compositions.push(kept)?;
        }
        Ok(())
    }

    /// Reads the component that a file is, unless another one of its package was read.
    fn component<F: FileSystem>(
        &mut self,
        alloc: Global,
        files: &mut F,
        gathered: &mut Gathered,
        file: &ComponentFile,
    ) -> Result<(), AllocError>
        ensures { F.replaced files.new ≡ F.replaced files.old }
    {
        let path = file.path.as_str();
        let Some(key) = &file.key else {
            gathered.misplaced.push(String::from_str(alloc, path)?)?;
            return Ok(());
        };
        if has_component(gathered.components.as_slice(), key.as_str()) {
            return Ok(());
        }
        let component = match files.read(alloc, path) {
            Ok(bytes) => component_of(alloc, path, key.as_str(), bytes.as_slice())?,
            Err(error) => {
                self.pass_over(alloc, path, error)?;
                unread_component(alloc, path, key.as_str())?
            }
        };
        gathered.components.push(component)?;
        Ok(())
    }

    /// Notes that a file couldn't be read.
    fn pass_over(&mut self, alloc: Global, path: &str, error: FileError) -> Result<(), AllocError> {
        self.passed_over.push(line_of(alloc, path, error)?)?;
        Ok(())
    }
}
