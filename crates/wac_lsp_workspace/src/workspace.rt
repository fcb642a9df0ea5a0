//! The packages of the folders that a client has open.
use crate::changed::{DocumentNow, FileContents};
use crate::contents::{ComponentPackage, DocumentFile, FolderContents, FoundRoot, declaration_in};
use crate::kinds::is_declaration;
use crate::mentions::{Concerned, Links};
use crate::packages::{Packages, path_below};
use crate::roots::{Root, Seen};
use crate::sources::{
    Opened, Source, declared_by, place_of, put_closed, put_open, put_saved, with_mentioning,
};
use crate::telling::{composition_fault, declaration_fault};
use std::alloc::{AllocError, Global};
use std::collections::{BTreeMap, BTreeSet};
use wac_component_packages::folder_of;
use wac_diagnostics::Diagnostic;
use wac_package_names::key_named;

/// The folders that a client has open, and the packages that their documents and components have.
///
/// Where a text changes that declares a package, or did before, that package is made anew, and those that mention it, and
/// so on: no file is read for it, and no other package is made.
pub struct Workspace {
    folders: Vec<String>,
    sources: Vec<Source>,
    /// The documents that declare no package, as their files have them.
    compositions: Vec<DocumentFile>,
    /// Where components are.
    roots: Vec<Root>,
    /// The number of the root of each folder that has a document.
    homes: BTreeMap<String, Option<usize>>,
    /// The packages that documents declare.
    declared: Packages,
    /// The packages that are to be made anew.
    pending: Concerned,
    /// The lines that were told of files that were passed over.
    told: BTreeSet<String>,
    /// Whether the folders were read.
    is_read: bool,
}

// Written out, so that those who drop one need not follow its parts.
impl Drop for Workspace {
    fn drop(self) {
        let Workspace {
            folders: _,
            sources: _,
            compositions: _,
            roots: _,
            homes: _,
            declared: _,
            pending: _,
            told: _,
            is_read: _,
        } = self;
    }
}

/// What a workspace made of what was read.
#[derive(Drop)]
pub struct Taken {
    /// The files that were passed over for the first time, with the reasons, a line each.
    pub passed_over: Vec<String>,
    /// The packages that were made anew.
    pub concerned: Concerned,
}

/// The documents of files, with what is open of them.
fn with_open(
    documents: Vec<DocumentFile>,
    sources: Vec<Source>,
    alloc: Global,
) -> Result<Vec<Source>, AllocError> {
    let mut all = Vec::with_capacity(alloc, documents.len())?;
    for document in documents {
        let DocumentFile { path, text } = document;
        let links = Links::of(alloc, text.as_str())?;
        all.push(Source {
            path,
            saved: Some(text),
            opened: None,
            links,
        })?;
    }
    add_all_open(alloc, &mut all, sources)?;
    Ok(all)
}

/// Adds what is open.
fn add_all_open(
    alloc: Global,
    all: &mut Vec<Source>,
    sources: Vec<Source>,
) -> Result<(), AllocError> {
    for source in sources {
        let Source { path, opened, .. } = source;
        if let Some(opened) = opened {
            let _ = put_open(alloc, all, path.as_str(), opened)?;
        }
    }
    Ok(())
}

/// The roots that were found, with the names of their components.
fn with_names(
    alloc: Global,
    folders: &[String],
    found: Vec<FoundRoot>,
) -> Result<Vec<Root>, AllocError> {
    let mut roots = Vec::with_capacity(alloc, found.len())?;
    for root in found {
        let packages = Packages::of_root(alloc, folders, &root)?;
        let FoundRoot {
            folders,
            components,
            ..
        } = root;
        roots.push(Root {
            folders,
            components,
            packages,
        })?;
    }
    Ok(roots)
}

/// Puts a component in the place of the one of its path, where it is.
fn put_component(components: &mut [ComponentPackage], component: ComponentPackage) {
    let place = components
        .iter()
        .position(|other| other.path.as_str() == component.path.as_str());
    if let Some(place) = place {
        if let Some(old) = components.get_mut(place) {
            *old = component;
        }
    }
}

/// Documents without the one of a path.
fn without_path(
    alloc: Global,
    documents: Vec<DocumentFile>,
    path: &str,
) -> Result<Vec<DocumentFile>, AllocError> {
    let mut left = Vec::with_capacity(alloc, documents.len())?;
    for document in documents {
        if document.path.as_str() != path {
            left.push(document)?;
        }
    }
    Ok(left)
}

/// The root among some that has a component of this path.
fn root_of(roots: &[Root], path: &str) -> Option<usize> {
    roots.iter().position(|root| {
        root.components
            .as_slice()
            .iter()
            .any(|component| component.path.as_str() == path)
    })
}

/// How many bytes documents have.
fn bytes_of(documents: &[DocumentFile]) -> usize {
    let mut bytes = 0usize;
    for document in documents {
        bytes = bytes.saturating_add(document.text.len());
    }
    bytes
}

/// How many bytes the files of documents have that declare packages.
fn saved_bytes_of(sources: &[Source]) -> usize {
    let mut bytes = 0usize;
    for source in sources {
        if let Some(saved) = &source.saved {
            bytes = bytes.saturating_add(saved.len());
        }
    }
    bytes
}

/// Whether a path is in one of some folders.
pub(crate) fn is_within(folders: &[String], path: &str) -> bool {
    for folder in folders {
        if path_below(folder.as_str(), path).is_some() {
            return true;
        }
    }
    false
}

/// Whether a folder is one of some.
pub(crate) fn is_among(folders: &[String], folder: &str) -> bool {
    folders.iter().any(|other| other.as_str() == folder)
}

/// Folders without others.
fn without(
    alloc: Global,
    folders: Vec<String>,
    removed: &[String],
) -> Result<Vec<String>, AllocError> {
    let mut left = Vec::new(alloc);
    for folder in folders {
        if !is_among(removed, folder.as_str()) {
            left.push(folder)?;
        }
    }
    Ok(left)
}

/// Adds a folder, unless it is there.
fn add_folder(folders: &mut Vec<String>, folder: String) -> Result<(), AllocError> {
    if !is_among(folders.as_slice(), folder.as_str()) {
        folders.push(folder)?;
    }
    Ok(())
}

/// The sources that are in one of some folders.
fn within(
    alloc: Global,
    folders: &[String],
    sources: Vec<Source>,
) -> Result<Vec<Source>, AllocError> {
    let mut left = Vec::new(alloc);
    for source in sources {
        if is_within(folders, source.path.as_str()) {
            left.push(source)?;
        }
    }
    Ok(left)
}

impl Workspace {
    /// The workspace of folders of which nothing was read. Their paths end with no slash.
    pub fn new(alloc: Global, folders: Vec<String>) -> Workspace {
        Workspace {
            folders,
            sources: Vec::new(alloc),
            compositions: Vec::new(alloc),
            roots: Vec::new(alloc),
            homes: BTreeMap::new(alloc),
            declared: Packages::none(alloc),
            pending: Concerned::none(alloc),
            told: BTreeSet::new(alloc),
            is_read: false,
        }
    }

    /// The paths of the folders.
    pub fn folders(&self) -> &[String] {
        self.folders.as_slice()
    }

    /// Whether a path is in one of the folders.
    pub fn holds(&self, path: &str) -> bool {
        is_within(self.folders.as_slice(), path)
    }

    /// Whether the folders were read.
    pub(crate) fn is_read(&self) -> bool {
        self.is_read
    }

    /// Whether it is known where the packages of the documents in a folder are.
    pub(crate) fn houses(&self, folder: &str) -> bool {
        self.homes.contains_key(folder)
    }

    /// Whether the folders are to be read for a document: it is in one, in which it isn't known where its packages are.
    pub fn is_strange(&self, path: &str) -> bool {
        self.resolves(path) && !self.houses(folder_of(path))
    }

    /// What is known for a document.
    pub fn at(&self, path: &str) -> Seen<'_> {
        match self.root_at(path) {
            Some(root) => Seen {
                sources: self.sources.as_slice(),
                components: root.components.as_slice(),
                packages: &root.packages,
            },
            None => Seen {
                sources: self.sources.as_slice(),
                components: &[],
                packages: &self.declared,
            },
        }
    }

    /// Where the components for a document are.
    fn root_at(&self, path: &str) -> Option<&Root> {
        let number = (*self.homes.get(folder_of(path))?)?;
        self.roots.as_slice().get(number)
    }

    /// Makes packages anew.
    fn renew(&mut self, alloc: Global, concerned: &Concerned) -> Result<(), AllocError> {
        let folders = self.folders.as_slice();
        let sources = self.sources.as_slice();
        self.declared.name_sources(alloc, folders, sources)?;
        self.declared.renew(alloc, sources, concerned)?;
        for root in self.roots.as_mut_slice() {
            let components = root.components.as_slice();
            root.packages.name_sources(alloc, folders, sources)?;
            root.packages
                .renew_with(alloc, &self.declared, components, concerned)?;
        }
        Ok(())
    }

    /// Makes the packages anew that are to be, and those that mention them, and so on: all those that are returned.
    fn renewed(&mut self, alloc: Global) -> Result<Concerned, AllocError> {
        let changed = std::mem::replace(&mut self.pending, Concerned::none(alloc));
        if changed.is_empty() {
            return Ok(changed);
        }
        let concerned = with_mentioning(alloc, self.sources.as_slice(), changed)?;
        self.renew(alloc, &concerned)?;
        Ok(concerned)
    }

    /// Those of some lines that weren't told. They are all told then.
    fn untold(&mut self, alloc: Global, lines: &[String]) -> Result<Vec<String>, AllocError> {
        let mut untold = Vec::new(alloc);
        for line in lines {
            if self.told.insert(String::from_str(alloc, line.as_str())?)? {
                untold.push(String::from_str(alloc, line.as_str())?)?;
            }
        }
        Ok(untold)
    }

    /// Takes what was read of the folders, in place of what was read before. Open texts stay before their files.
    pub fn take(&mut self, alloc: Global, contents: FolderContents) -> Result<Taken, AllocError> {
        let FolderContents {
            declarations,
            compositions,
            roots,
            homes,
            passed_over,
            ..
        } = contents;
        let sources = std::mem::replace(&mut self.sources, Vec::new(alloc));
        self.sources = with_open(declarations, sources, alloc)?;
        self.compositions = compositions;
        self.roots = with_names(alloc, self.folders.as_slice(), roots)?;
        self.homes = homes;
        self.declared = Packages::none(alloc);
        self.pending = Concerned::none(alloc);
        self.is_read = true;
        let concerned = Concerned::all(alloc);
        self.renew(alloc, &concerned)?;
        let passed_over = self.untold(alloc, passed_over.as_slice())?;
        Ok(Taken {
            passed_over,
            concerned,
        })
    }

    /// Takes what was read of changed files. Open texts stay before them.
    pub fn take_files(
        &mut self,
        alloc: Global,
        contents: FileContents,
    ) -> Result<Taken, AllocError> {
        let FileContents {
            documents,
            components,
            passed_over,
            ..
        } = contents;
        self.take_documents(alloc, documents)?;
        self.take_components(alloc, components)?;
        let concerned = self.renewed(alloc)?;
        let passed_over = self.untold(alloc, passed_over.as_slice())?;
        Ok(Taken {
            passed_over,
            concerned,
        })
    }

    /// Takes documents as their files are now.
    fn take_documents(
        &mut self,
        alloc: Global,
        documents: Vec<DocumentNow>,
    ) -> Result<(), AllocError> {
        for document in documents {
            self.take_document(alloc, document)?;
        }
        Ok(())
    }

    /// Takes a document as its file is now.
    fn take_document(&mut self, alloc: Global, document: DocumentNow) -> Result<(), AllocError> {
        let DocumentNow { path, text } = document;
        let compositions = std::mem::replace(&mut self.compositions, Vec::new(alloc));
        self.compositions = without_path(alloc, compositions, path.as_str())?;
        match text {
            Some(text) if !is_declaration(text.as_str()) => {
                self.save(alloc, path.as_str(), None)?;
                self.compositions.push(DocumentFile { path, text })?;
                Ok(())
            }
            text => self.save(alloc, path.as_str(), text),
        }
    }

    /// Takes the text of a file, if it declares a package.
    fn save(&mut self, alloc: Global, path: &str, text: Option<String>) -> Result<(), AllocError> {
        let before = self.own(alloc, path)?;
        if put_saved(alloc, &mut self.sources, path, text)? {
            self.changes(alloc, path, before)?;
        }
        Ok(())
    }

    /// The package that the document of a path declares, by its name.
    fn own(&self, alloc: Global, path: &str) -> Result<Option<String>, AllocError> {
        match declared_by(self.sources.as_slice(), path) {
            Some(own) => Ok(Some(String::from_str(alloc, own)?)),
            None => Ok(None),
        }
    }

    /// Notes that the package is to be made anew that a document declared before, and the one that it declares now.
    fn changes(
        &mut self,
        alloc: Global,
        path: &str,
        before: Option<String>,
    ) -> Result<(), AllocError> {
        if let Some(before) = &before {
            self.pending.add(alloc, before.as_str())?;
        }
        if let Some(now) = declared_by(self.sources.as_slice(), path) {
            self.pending.add(alloc, now)?;
        }
        Ok(())
    }

    /// Takes components as their files are now.
    fn take_components(
        &mut self,
        alloc: Global,
        components: Vec<ComponentPackage>,
    ) -> Result<(), AllocError> {
        for component in components {
            let key = key_named(alloc, component.key.as_str())?;
            self.pending.add(alloc, key.name.as_str())?;
            self.take_component(component);
        }
        Ok(())
    }

    /// Takes a component as its file is now.
    fn take_component(&mut self, component: ComponentPackage) {
        if let Some(number) = root_of(self.roots.as_slice(), component.path.as_str()) {
            if let Some(root) = self.roots.as_mut_slice().get_mut(number) {
                put_component(root.components.as_mut_slice(), component);
            }
        }
    }

    /// Forgets all that was read of the folders, and what is known by it: documents are as those in no folder, until the
    /// folders are read again.
    pub fn forget(&mut self, alloc: Global) {
        let folders = std::mem::replace(&mut self.folders, Vec::new(alloc));
        *self = Workspace::new(alloc, folders);
    }

    /// Takes that the client opened folders and closed others, of which it may have been told before. Their paths end with
    /// no slash. What was open in a folder that was closed is forgotten, unless it is in another one too. Packages are made
    /// anew once the folders are read, and given to `take`; texts that are open in a folder that was opened are to be given
    /// to `put` before.
    pub fn change_folders(
        &mut self,
        alloc: Global,
        added: Vec<String>,
        removed: &[String],
    ) -> Result<(), AllocError> {
        let folders = std::mem::replace(&mut self.folders, Vec::new(alloc));
        self.folders = without(alloc, folders, removed)?;
        for folder in added {
            add_folder(&mut self.folders, folder)?;
        }
        let sources = std::mem::replace(&mut self.sources, Vec::new(alloc));
        self.sources = within(alloc, self.folders.as_slice(), sources)?;
        Ok(())
    }

    /// Takes the text of an open document as `open` does, and makes no packages: they are made by the next call that does.
    pub fn put(
        &mut self,
        alloc: Global,
        path: &str,
        uri: &str,
        text: &str,
    ) -> Result<(), AllocError> {
        if !self.holds(path) {
            return Ok(());
        }
        let before = self.own(alloc, path)?;
        let opened = Opened {
            uri: String::from_str(alloc, uri)?,
            text: declaration_in(alloc, text.as_bytes())?,
        };
        if put_open(alloc, &mut self.sources, path, opened)? {
            self.changes(alloc, path, before)?;
        }
        Ok(())
    }

    /// Takes the text of a document that was opened or changed, which stands before its file. Returns which packages were
    /// made anew. Documents in no folder are passed over.
    ///
    /// `uri` is the client's name of the document.
    pub fn open(
        &mut self,
        alloc: Global,
        path: &str,
        uri: &str,
        text: &str,
    ) -> Result<Concerned, AllocError> {
        self.put(alloc, path, uri, text)?;
        self.renewed(alloc)
    }

    /// Takes that a document was closed: its file stands for itself again. Packages are made anew once that is read, and given
    /// to `take_files`.
    pub fn close(&mut self, alloc: Global, path: &str) -> Result<(), AllocError> {
        let before = self.own(alloc, path)?;
        if put_closed(alloc, &mut self.sources, path)? {
            self.changes(alloc, path, before)?;
        }
        Ok(())
    }

    /// Whether a document is resolved: it is in a folder, and the folders were read.
    pub fn resolves(&self, path: &str) -> bool {
        self.is_read && self.holds(path)
    }

    /// What is wrong with a document of the folders first, as `wacx check` says it, or what of a composition may not be
    /// meant. Nothing is said of documents in no folder.
    ///
    /// `text` is the text that was taken last for this path.
    pub fn diagnose(
        &self,
        alloc: Global,
        path: &str,
        text: &str,
    ) -> Result<Vec<Diagnostic>, AllocError> {
        if !self.resolves(path) {
            return Ok(Vec::new(alloc));
        }
        let known = self.at(path).known();
        match self.document_of(path) {
            Some(document) => {
                declaration_fault(alloc, self.declared.faults(), known, document, text)
            }
            None => composition_fault(alloc, known, text),
        }
    }

    /// The documents that declare packages, or did, and those that are open.
    pub(crate) fn sources(&self) -> &[Source] {
        self.sources.as_slice()
    }

    /// The documents that declare no package, as their files have them.
    pub(crate) fn compositions(&self) -> &[DocumentFile] {
        self.compositions.as_slice()
    }

    /// Where components are.
    pub(crate) fn roots(&self) -> &[Root] {
        self.roots.as_slice()
    }

    /// How many bytes the files of all documents have.
    pub(crate) fn saved_bytes(&self) -> usize {
        let compositions = bytes_of(self.compositions.as_slice());
        compositions.saturating_add(saved_bytes_of(self.sources.as_slice()))
    }

    /// The number of the document of a path, if it declares a package.
    fn document_of(&self, path: &str) -> Option<usize> {
        let number = place_of(self.sources.as_slice(), path)?;
        let _ = self.sources.as_slice().get(number)?.text()?;
        Some(number)
    }
}
