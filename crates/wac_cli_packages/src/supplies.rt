// The packages for the documents of several folders.
ghost use Rattle.std.specs.Prelude.{◌≡◌};

use crate::options::Given;
use crate::supply::{Supply, folders_for, read_supply};
use indexmap::IndexMap;
use std::alloc::{AllocError, Global};
use wac_component_packages::place_of;
use wac_files::FileSystem;

/// The packages for the documents of several folders, which are read once for all that find them in the same ones.
#[derive(Drop)]
pub(crate) struct Supplies {
    pub(crate) all: Vec<Supply>,
    // The numbers of the supplies, by the folders of documents.
    by_folder: IndexMap<String, usize>,
    // The same, by the first folders in which the packages were found.
    by_place: IndexMap<String, usize>,
}

/// Where the first of folders is: nothing, where there is none.
fn first_place<F: FileSystem>(
    alloc: Global,
    files: &mut F,
    folders: &[String],
) -> Result<String, AllocError>
    ensures { F.replaced files.new ≡ F.replaced files.old }
{
    match folders.first() {
        Some(folder) => place_of(alloc, files, folder.as_str()),
        None => Ok(String::new(alloc)),
    }
}

impl Supplies {
    pub(crate) fn new(alloc: Global) -> Supplies {
        Supplies {
            all: Vec::new(alloc),
            by_folder: IndexMap::new(alloc),
            by_place: IndexMap::new(alloc),
        }
    }

    /// The number of the supply for the documents in a folder.
    pub(crate) fn number_for<F: FileSystem>(
        &mut self,
        alloc: Global,
        files: &mut F,
        given: Given<'_>,
        folder: &str,
    ) -> Result<usize, AllocError>
        ensures { F.replaced files.new ≡ F.replaced files.old }
    {
        if let Some(number) = self.by_folder.get(folder) {
            return Ok(*number);
        }
        let folders = folders_for(alloc, files, given, folder)?;
        let number = self.number_of(alloc, files, given, folders.as_slice())?;
        self.by_folder
            .insert(String::from_str(alloc, folder)?, number)?;
        Ok(number)
    }

    /// The number of the supply of folders.
    fn number_of<F: FileSystem>(
        &mut self,
        alloc: Global,
        files: &mut F,
        given: Given<'_>,
        folders: &[String],
    ) -> Result<usize, AllocError>
        ensures { F.replaced files.new ≡ F.replaced files.old }
    {
        let place = first_place(alloc, files, folders)?;
        if let Some(number) = self.by_place.get(place.as_str()) {
            return Ok(*number);
        }
        let number = self.all.len();
        let supply = read_supply(alloc, files, given, folders, number)?;
        self.all.push(supply)?;
        self.by_place.insert(place, number)?;
        Ok(number)
    }
}
