// The files of components that are to be read.
ghost use Rattle.std.specs.Prelude.{◌≡◌};

use crate::finding::{ComponentFile, find_components};
use crate::keys::{is_component_file, key_of_path};
use crate::reading::Sought;
use indexmap::IndexMap;
use std::alloc::{AllocError, Global};
use wac_files::{FileError, FileSystem};

/// A file that may be the component of a package.
#[derive(Drop)]
pub struct ComponentSource {
    pub path: String,
    /// The one path without links that leads to the file, if there is one; else its path.
    pub place: String,
    /// The name of the package, with its version.
    pub key: Option<String>,
    /// Whether the file was named, and not found in a folder.
    pub is_named: bool,
}

/// The files that are to be read, and those from whose paths no name of a package follows.
#[derive(Drop)]
pub(crate) struct Listing {
    pub(crate) sources: Vec<ComponentSource>,
    pub(crate) misplaced: Vec<String>,
    // The numbers of the sources, by their places and keys.
    numbers: IndexMap<String, usize>,
}

/// The one path without links that leads where a path leads, if there is one; else the path.
pub fn place_of<F: FileSystem>(
    alloc: Global,
    files: &mut F,
    path: &str,
) -> Result<String, AllocError>
    // No file is replaced.
    ensures { F.replaced files.new ≡ F.replaced files.old }
{
    match files.resolve(alloc, path) {
        Ok(place) => Ok(place),
        Err(FileError::OutOfMemory) => Err(AllocError),
        Err(_) => String::from_str(alloc, path),
    }
}

/// The files that are sought.
pub(crate) fn list_sources<F: FileSystem>(
    alloc: Global,
    files: &mut F,
    sought: Sought<'_>,
) -> Result<Listing, AllocError>
    ensures { F.replaced files.new ≡ F.replaced files.old }
{
    let mut listing = Listing {
        sources: Vec::new(alloc),
        misplaced: Vec::new(alloc),
        numbers: IndexMap::new(alloc),
    };
    listing.add_paths(alloc, files, sought.paths)?;
    listing.add_named(alloc, files, sought.named)?;
    Ok(listing)
}

impl Listing {
    /// Adds what paths lead to.
    fn add_paths<F: FileSystem>(
        &mut self,
        alloc: Global,
        files: &mut F,
        paths: &[&str],
    ) -> Result<(), AllocError>
        ensures { F.replaced files.new ≡ F.replaced files.old }
    {
        for path in paths {
            self.add_path(alloc, files, path)?;
        }
        Ok(())
    }

    /// Adds what a path leads to.
    fn add_path<F: FileSystem>(
        &mut self,
        alloc: Global,
        files: &mut F,
        path: &str,
    ) -> Result<(), AllocError>
        ensures { F.replaced files.new ≡ F.replaced files.old }
    {
        if is_component_file(path) {
            let key = key_of_path(alloc, path)?;
            let path = String::from_str(alloc, path)?;
            return self.add(alloc, files, ComponentFile { path, key }, true);
        }
        let found = find_components(alloc, files, path)?;
        self.add_found(alloc, files, found)
    }

    /// Adds the files that a folder holds.
    fn add_found<F: FileSystem>(
        &mut self,
        alloc: Global,
        files: &mut F,
        found: Vec<ComponentFile>,
    ) -> Result<(), AllocError>
        ensures { F.replaced files.new ≡ F.replaced files.old }
    {
        for file in found {
            if file.key.is_some() {
                self.add(alloc, files, file, false)?;
            } else {
                self.misplaced.push(file.path)?;
            }
        }
        Ok(())
    }

    /// Adds files with the names of their packages.
    fn add_named<F: FileSystem>(
        &mut self,
        alloc: Global,
        files: &mut F,
        named: &[(&str, &str)],
    ) -> Result<(), AllocError>
        ensures { F.replaced files.new ≡ F.replaced files.old }
    {
        for pair in named {
            let (key, path) = *pair;
            let key = Some(String::from_str(alloc, key)?);
            let path = String::from_str(alloc, path)?;
            self.add(alloc, files, ComponentFile { path, key }, true)?;
        }
        Ok(())
    }

    /// Adds a file, unless it is there under the name of this package.
    fn add<F: FileSystem>(
        &mut self,
        alloc: Global,
        files: &mut F,
        file: ComponentFile,
        is_named: bool,
    ) -> Result<(), AllocError>
        ensures { F.replaced files.new ≡ F.replaced files.old }
    {
        let ComponentFile { path, key } = file;
        let place = place_of(alloc, files, path.as_str())?;
        self.put(
            alloc,
            ComponentSource {
                path,
                place,
                key,
                is_named,
            },
        )
    }

    /// Adds a source, unless it is there. Then it is noted if it is named now.
    fn put(&mut self, alloc: Global, source: ComponentSource) -> Result<(), AllocError> {
        let id = id_of(alloc, &source)?;
        if let Some(number) = self.numbers.get(id.as_str()) {
            if let Some(other) = self.sources.get_mut(*number) {
                other.is_named = other.is_named || source.is_named;
            }
            return Ok(());
        }
        self.numbers.insert(id, self.sources.len())?;
        self.sources.push(source)?;
        Ok(())
    }
}

/// What tells two sources apart: the place of the file, and the name of the package.
fn id_of(alloc: Global, source: &ComponentSource) -> Result<String, AllocError> {
    let place = source.place.as_str();
    match &source.key {
        None => String::from_str(alloc, place),
        Some(key) => format!(in alloc; "{key} {place}"),
    }
}
