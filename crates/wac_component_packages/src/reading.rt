// Reading the components of packages.
ghost use Rattle.std.specs.Prelude.{◌≡◌};

use crate::faults::{ComponentFault, Fault, doubled, unnamed};
use crate::keys::package_key;
use crate::listing::{ComponentSource, Listing, list_sources};
use crate::supplying::disagreement;
use indexmap::IndexMap;
use std::alloc::{AllocError, Global};
use wac_component_reading::{Converted, component_package};
use wac_diagnostics::Diagnostic;
use wac_files::FileSystem;
use wac_graph::{Package, PackageKey};

/// Where components are, what their packages are called, and which worlds of them are chosen.
#[derive(Clone, Copy)]
pub struct Sought<'s> {
    /// Files of components, whose names end with `.wasm`, and folders in which they are found. Other files are left out.
    pub paths: &'s [&'s str],
    /// Names of packages, with their versions, each with the path of its component.
    pub named: &'s [(&'s str, &'s str)],
    /// Names of packages, with their versions, each with the world that is chosen. Of two worlds of a package the last is.
    pub worlds: &'s [(&'s str, &'s str)],
    /// Whether a package may have several components, if they agree.
    pub may_agree: bool,
}

/// The components that were read, with their packages, and the other files.
#[derive(Drop)]
pub struct Components {
    /// The components, each of another package.
    pub all: Vec<ComponentSource>,
    /// Their packages.
    pub packages: IndexMap<PackageKey, Package>,
    /// The components of packages that have another one, with which they agree.
    pub again: Vec<ComponentSource>,
    /// The files that give no package.
    pub faults: Vec<ComponentFault>,
    /// The files in the folders themselves, from whose paths no name of a package follows.
    pub misplaced: Vec<String>,
}

/// What the bytes of a file are.
#[derive(Drop)]
enum Made {
    Package(PackageKey, Package),
    /// The package of an earlier file, too.
    Again,
    Faulty(Fault),
}

/// Reads the components of packages. A file that is reached twice under one name is read once.
pub fn read_components<F: FileSystem>(
    alloc: Global,
    files: &mut F,
    sought: Sought<'_>,
) -> Result<Components, AllocError>
    // No file is replaced.
    ensures { F.replaced files.new ≡ F.replaced files.old }
{
    let Listing {
        sources,
        misplaced,
        ..
    } = list_sources(alloc, files, sought)?;
    read_sources(alloc, files, sought, sources, misplaced)
}

/// Reads files that were listed.
fn read_sources<F: FileSystem>(
    alloc: Global,
    files: &mut F,
    sought: Sought<'_>,
    sources: Vec<ComponentSource>,
    misplaced: Vec<String>,
) -> Result<Components, AllocError>
    ensures { F.replaced files.new ≡ F.replaced files.old }
{
    let mut components = Components {
        all: Vec::new(alloc),
        packages: IndexMap::new(alloc),
        again: Vec::new(alloc),
        faults: Vec::new(alloc),
        misplaced,
    };
    for source in sources {
        components.read(alloc, files, sought, source)?;
    }
    Ok(components)
}

impl Components {
    /// Reads a file, and keeps its component, or why there is none.
    fn read<F: FileSystem>(
        &mut self,
        alloc: Global,
        files: &mut F,
        sought: Sought<'_>,
        source: ComponentSource,
    ) -> Result<(), AllocError>
        ensures { F.replaced files.new ≡ F.replaced files.old }
    {
        match files.read(alloc, source.path.as_str()) {
            Ok(bytes) => self.add(alloc, sought, source, bytes.as_slice()),
            Err(error) => self.reject(source, Fault::Unread(error)),
        }
    }

    /// Keeps why a file gives no package.
    fn reject(&mut self, source: ComponentSource, fault: Fault) -> Result<(), AllocError> {
        self.faults.push(ComponentFault { source, fault })?;
        Ok(())
    }

    /// Keeps the component that the bytes of a file are, or what is wrong.
    fn add(
        &mut self,
        alloc: Global,
        sought: Sought<'_>,
        source: ComponentSource,
        bytes: &[u8],
    ) -> Result<(), AllocError> {
        match self.made(alloc, sought, &source, bytes) {
            Ok(Made::Package(key, package)) => self.keep(source, key, package),
            Ok(Made::Again) => {
                self.again.push(source)?;
                Ok(())
            }
            Ok(Made::Faulty(fault)) => self.reject(source, fault),
            Err(_) => Err(AllocError),
        }
    }

    /// Adds a component with its package.
    fn keep(
        &mut self,
        source: ComponentSource,
        key: PackageKey,
        package: Package,
    ) -> Result<(), AllocError> {
        self.packages.insert(key, package)?;
        self.all.push(source)?;
        Ok(())
    }

    /// What the bytes of a file are.
    fn made(
        &self,
        alloc: Global,
        sought: Sought<'_>,
        source: &ComponentSource,
        bytes: &[u8],
    ) -> Result<Made, AllocError> {
        let Some(name) = &source.key else {
            return faulty(unnamed(alloc, source.path.as_str()));
        };
        let name = name.as_str();
        let key = package_key(alloc, name)?;
        match self.path_of(&key) {
            None => made_first(alloc, sought, name, bytes),
            Some(first) if !sought.may_agree => conflicting(doubled(alloc, name, first)),
            Some(first) => self.made_again(alloc, sought, (name, first), bytes),
        }
    }

    /// The same of bytes whose package has another file, of which this is the path.
    fn made_again(
        &self,
        alloc: Global,
        sought: Sought<'_>,
        first: (&str, &str),
        bytes: &[u8],
    ) -> Result<Made, AllocError> {
        let (name, path) = first;
        match made_first(alloc, sought, name, bytes) {
            Ok(Made::Package(key, package)) => match self.packages.get(&key) {
                Some(other) => agreed(disagreement(alloc, (name, path, "has"), &package, other)),
                None => Ok(Made::Again),
            },
            made => made,
        }
    }

    /// The path of the component of a package.
    fn path_of(&self, key: &PackageKey) -> Option<&str> {
        let number = self.packages.get_index_of(key)?;
        let source = self.all.get(number)?;
        Some(source.path.as_str())
    }
}

/// What the bytes of a file are whose package has no other.
fn made_first(
    alloc: Global,
    sought: Sought<'_>,
    key: &str,
    bytes: &[u8],
) -> Result<Made, AllocError> {
    match component_package(alloc, bytes, chosen(sought.worlds, key)) {
        Ok(Converted::Package(package)) => Ok(Made::Package(package_key(alloc, key)?, package)),
        Ok(Converted::Rejected(diagnostic)) => Ok(Made::Faulty(Fault::Rejected(diagnostic))),
        Err(_) => Err(AllocError),
    }
}

/// That this is wrong with a file by itself.
fn faulty(diagnostic: Result<Diagnostic, AllocError>) -> Result<Made, AllocError> {
    Ok(Made::Faulty(Fault::Rejected(diagnostic?)))
}

/// That this is wrong with a file beside another one of its package.
fn conflicting(diagnostic: Result<Diagnostic, AllocError>) -> Result<Made, AllocError> {
    Ok(Made::Faulty(Fault::Conflict(diagnostic?)))
}

/// What a file is beside another one of its package, from which it differs so.
fn agreed(difference: Result<Option<Diagnostic>, AllocError>) -> Result<Made, AllocError> {
    match difference? {
        None => Ok(Made::Again),
        Some(diagnostic) => Ok(Made::Faulty(Fault::Conflict(diagnostic))),
    }
}

/// The world that is chosen for a package.
fn chosen<'w>(worlds: &[(&str, &'w str)], key: &str) -> Option<&'w str> {
    let mut last = None;
    for (package, world) in worlds {
        if *package == key {
            last = Some(*world);
        }
    }
    last
}
