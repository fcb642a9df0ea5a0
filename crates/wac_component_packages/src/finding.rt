// Components below a folder.
ghost use Rattle.std.specs.Prelude.{◌≡◌};

use crate::keys::{key_of, stem_of};
use std::alloc::{AllocError, Global};
use wac_files::{FileError, FileSystem, Kind};

/// A file of a component, and the key of its package, if there is one.
#[derive(Debug, Drop)]
pub struct ComponentFile {
    pub path: String,
    pub key: Option<String>,
}

/// A name in a folder, and the path that it makes.
#[derive(Drop)]
struct Entry {
    name: String,
    path: String,
}

/// The two folders that name a package.
#[derive(Clone, Copy)]
struct PackageFolders<'f> {
    namespace: &'f str,
    name: &'f str,
}

/// The components below a folder, in the order of their names: `namespace/name.wasm` is that of the package
/// `namespace:name`, and `namespace/name/VERSION.wasm` that of `namespace:name@VERSION`. Those in the folder itself have no
/// key. Other files are left out, and so are names that begin with a dot, links to folders, and folders that can't be
/// listed.
pub fn find_components<F: FileSystem>(
    alloc: Global,
    files: &mut F,
    folder: &str,
) -> Result<Vec<ComponentFile>, AllocError>
    ensures { F.replaced files.new ≡ F.replaced files.old }
{
    let mut found = Vec::new(alloc);
    if let Ok(Kind::Folder) = files.target(folder) {
        add_namespaces(alloc, files, &mut found, folder)?;
    }
    Ok(found)
}

/// Adds the components of the namespaces in a folder.
fn add_namespaces<F: FileSystem>(
    alloc: Global,
    files: &mut F,
    found: &mut Vec<ComponentFile>,
    folder: &str,
) -> Result<(), AllocError>
    ensures { F.replaced files.new ≡ F.replaced files.old }
{
    let entries = listed(alloc, files, folder)?;
    for namespace in entries.as_slice() {
        match stem_of(namespace.name.as_str()) {
            None => add_namespace(alloc, files, found, namespace)?,
            Some(_) => add(alloc, files, found, namespace, None)?,
        }
    }
    Ok(())
}

/// Adds the components of a namespace.
fn add_namespace<F: FileSystem>(
    alloc: Global,
    files: &mut F,
    found: &mut Vec<ComponentFile>,
    namespace: &Entry,
) -> Result<(), AllocError>
    ensures { F.replaced files.new ≡ F.replaced files.old }
{
    let entries = entries_of(alloc, files, namespace.path.as_str())?;
    for entry in entries.as_slice() {
        add_package(alloc, files, found, namespace, entry)?;
    }
    Ok(())
}

/// Adds the component that a file in a namespace is, or those that a folder in it holds.
fn add_package<F: FileSystem>(
    alloc: Global,
    files: &mut F,
    found: &mut Vec<ComponentFile>,
    namespace: &Entry,
    entry: &Entry,
) -> Result<(), AllocError>
    ensures { F.replaced files.new ≡ F.replaced files.old }
{
    match stem_of(entry.name.as_str()) {
        None => add_versions(alloc, files, found, namespace, entry),
        Some(name) => {
            let key = key_of(alloc, namespace.name.as_str(), name, None)?;
            add_keyed(alloc, files, found, entry, key)
        }
    }
}

/// Adds the versions of a package, which a namespace and a folder in it name.
fn add_versions<F: FileSystem>(
    alloc: Global,
    files: &mut F,
    found: &mut Vec<ComponentFile>,
    namespace: &Entry,
    name: &Entry,
) -> Result<(), AllocError>
    ensures { F.replaced files.new ≡ F.replaced files.old }
{
    let entries = entries_of(alloc, files, name.path.as_str())?;
    let package = PackageFolders {
        namespace: namespace.name.as_str(),
        name: name.name.as_str(),
    };
    for entry in entries.as_slice() {
        add_version(alloc, files, found, package, entry)?;
    }
    Ok(())
}

/// Adds the component that a file is, where its name is a version of the package that these folders name.
fn add_version<F: FileSystem>(
    alloc: Global,
    files: &mut F,
    found: &mut Vec<ComponentFile>,
    package: PackageFolders<'_>,
    entry: &Entry,
) -> Result<(), AllocError>
    ensures { F.replaced files.new ≡ F.replaced files.old }
{
    match stem_of(entry.name.as_str()) {
        None => Ok(()),
        version => {
            let key = key_of(alloc, package.namespace, package.name, version)?;
            add_keyed(alloc, files, found, entry, key)
        }
    }
}

/// Adds a file of a package, if it has a key.
fn add_keyed<F: FileSystem>(
    alloc: Global,
    files: &mut F,
    found: &mut Vec<ComponentFile>,
    entry: &Entry,
    key: Option<String>,
) -> Result<(), AllocError>
    ensures { F.replaced files.new ≡ F.replaced files.old }
{
    if key.is_none() {
        return Ok(());
    }
    add(alloc, files, found, entry, key)
}

/// Adds a file.
fn add<F: FileSystem>(
    alloc: Global,
    files: &mut F,
    found: &mut Vec<ComponentFile>,
    entry: &Entry,
    key: Option<String>,
) -> Result<(), AllocError>
    ensures { F.replaced files.new ≡ F.replaced files.old }
{
    if let Ok(Kind::File) = files.target(entry.path.as_str()) {
        let path = String::from_str(alloc, entry.path.as_str())?;
        found.push(ComponentFile { path, key })?;
    }
    Ok(())
}

/// What a folder in another holds, in order. There is nothing in what is no folder, as a link to one, or can't be listed.
fn entries_of<F: FileSystem>(
    alloc: Global,
    files: &mut F,
    folder: &str,
) -> Result<Vec<Entry>, AllocError>
    ensures { F.replaced files.new ≡ F.replaced files.old }
{
    match files.kind(folder) {
        Ok(Kind::Folder) => listed(alloc, files, folder),
        _ => Ok(Vec::new(alloc)),
    }
}

/// What a folder holds, in order.
fn listed<F: FileSystem>(
    alloc: Global,
    files: &mut F,
    folder: &str,
) -> Result<Vec<Entry>, AllocError>
    ensures { F.replaced files.new ≡ F.replaced files.old }
{
    match files.list(alloc, folder) {
        Ok(names) => in_order(alloc, folder, names),
        Err(FileError::OutOfMemory) => Err(AllocError),
        Err(_) => Ok(Vec::new(alloc)),
    }
}

/// The names of a folder that are texts and begin with no dot, in the order of their bytes.
fn in_order(
    alloc: Global,
    folder: &str,
    mut names: Vec<Vec<u8>>,
) -> Result<Vec<Entry>, AllocError> {
    names.sort()?;
    let mut entries = Vec::with_capacity(alloc, names.len())?;
    for name in names.as_slice() {
        if let Ok(name) = str::from_utf8(name.as_slice()) {
            if !name.starts_with('.') {
                entries.push(Entry {
                    name: String::from_str(alloc, name)?,
                    path: joined(alloc, folder, name)?,
                })?;
            }
        }
    }
    Ok(entries)
}

/// The path of a name in a folder. Below `.` it is the name alone.
pub(crate) fn joined(alloc: Global, folder: &str, name: &str) -> Result<String, AllocError> {
    if folder == "." || folder == "./" {
        return String::from_str(alloc, name);
    }
    let between = if folder.ends_with('/') { "" } else { "/" };
    format!(in alloc; "{folder}{between}{name}")
}
