// Files of packages: which are read, and what they hold.
ghost use Rattle.std.specs.Prelude.{◌≡◌};

use crate::faults::{Cause, PackageFault};
use crate::reading::{Source, read_source};
use std::alloc::{AllocError, Global};
use std::collections::BTreeSet;
use wac_component_packages::{is_component_file, place_of};
use wac_files::{FileSystem, Found, find_files};
use wac_package_errors::Declared;

/// Where a file comes from.
#[derive(Drop)]
pub(crate) struct Origin {
    /// The one path without links that leads to it.
    pub(crate) place: String,
    /// Whether it was named, and not found in a folder.
    pub(crate) is_named: bool,
    /// Whether a package is declared there.
    pub(crate) is_declared: bool,
}

/// The documents that were read, each with the name of its file, and what is wrong with files that couldn't be.
#[derive(Drop)]
pub(crate) struct Sources {
    pub(crate) names: Vec<String>,
    pub(crate) texts: Vec<String>,
    pub(crate) origins: Vec<Origin>,
    pub(crate) faults: Vec<PackageFault>,
}

/// Where paths lead, without links.
fn places_of<F: FileSystem>(
    alloc: Global,
    files: &mut F,
    paths: &[&str],
) -> Result<BTreeSet<String>, AllocError>
    ensures { F.replaced files.new ≡ F.replaced files.old }
{
    let mut places = BTreeSet::new(alloc);
    for path in paths {
        places.insert(place_of(alloc, files, path)?)?;
    }
    Ok(places)
}

/// The paths that aren't those of components' files.
fn without_components<'p>(alloc: Global, paths: &[&'p str]) -> Result<Vec<&'p str>, AllocError> {
    let mut documents = Vec::with_capacity(alloc, paths.len())?;
    for path in paths {
        if !is_component_file(path) {
            documents.push(*path)?;
        }
    }
    Ok(documents)
}

/// The documents that the paths of packages lead to.
pub(crate) fn read_sources<F: FileSystem>(
    alloc: Global,
    files: &mut F,
    paths: &[&str],
) -> Result<Sources, AllocError>
    ensures { F.replaced files.new ≡ F.replaced files.old }
{
    let documents = without_components(alloc, paths)?;
    let named = places_of(alloc, files, documents.as_slice())?;
    let found = find_files(alloc, files, documents.as_slice())?;
    read_each(alloc, files, found.as_slice(), &named)
}

/// The documents of files. Some places were named.
fn read_each<F: FileSystem>(
    alloc: Global,
    files: &mut F,
    found: &[Found],
    named: &BTreeSet<String>,
) -> Result<Sources, AllocError>
    ensures { F.replaced files.new ≡ F.replaced files.old }
{
    let mut sources = Sources {
        names: Vec::new(alloc),
        texts: Vec::new(alloc),
        origins: Vec::new(alloc),
        faults: Vec::new(alloc),
    };
    for one in found {
        sources.read(alloc, files, one, named)?;
    }
    Ok(sources)
}

impl Sources {
    /// Reads a file that was found.
    fn read<F: FileSystem>(
        &mut self,
        alloc: Global,
        files: &mut F,
        found: &Found,
        named: &BTreeSet<String>,
    ) -> Result<(), AllocError>
        ensures { F.replaced files.new ≡ F.replaced files.old }
    {
        let place = place_of(alloc, files, found.path.as_str())?;
        let origin = Origin {
            is_named: named.contains(place.as_str()),
            is_declared: false,
            place,
        };
        match read_source(alloc, files, found) {
            Ok(Source::Text(text)) => self.add_text(alloc, found.path.as_str(), origin, text),
            Ok(Source::Nothing(cause)) => {
                self.add_fault(alloc, found.path.as_str(), origin, cause)
            }
            Err(_) => Err(AllocError),
        }
    }

    /// Adds the text of a file.
    fn add_text(
        &mut self,
        alloc: Global,
        path: &str,
        origin: Origin,
        text: String,
    ) -> Result<(), AllocError> {
        self.names.push(String::from_str(alloc, path)?)?;
        self.texts.push(text)?;
        self.origins.push(origin)?;
        Ok(())
    }

    /// Adds why a file has no text.
    fn add_fault(
        &mut self,
        alloc: Global,
        path: &str,
        origin: Origin,
        cause: Cause,
    ) -> Result<(), AllocError> {
        let Origin {
            place,
            is_named,
            ..
        } = origin;
        self.faults.push(PackageFault {
            path: String::from_str(alloc, path)?,
            place,
            is_named,
            key: None,
            cause,
        })?;
        Ok(())
    }

    /// Notes which of the documents declare packages.
    pub(crate) fn note_declared(&mut self, declared: &Declared) {
        for (key, number) in declared.texts.iter() {
            if let Some(origin) = self.origins.get_mut(*number) {
                origin.is_declared = declared.packages.contains_key(key);
            }
        }
    }

    /// Notes that the document at a place declares a package.
    pub(crate) fn note_place(&mut self, place: &str) {
        for origin in self.origins.as_mut_slice() {
            if origin.place.as_str() == place {
                origin.is_declared = true;
            }
        }
    }

    /// The text of a document, by its number.
    pub(crate) fn text(&self, number: usize) -> &str {
        match self.texts.get(number) {
            Some(text) => text.as_str(),
            None => "",
        }
    }

    /// The documents.
    pub(crate) fn all(&self, alloc: Global) -> Result<Vec<&str>, AllocError> {
        let mut all = Vec::with_capacity(alloc, self.texts.len())?;
        for text in self.texts.as_slice() {
            all.push(text.as_str())?;
        }
        Ok(all)
    }
}
