// The packages of files, declared by documents or read from components, and what is wrong with these files.
ghost use Rattle.std.specs.Prelude.{◌≡◌};

use crate::agreeing::{Agreement, compared};
use crate::declarations::{declare, declared_faults};
use crate::faults::{Cause, PackageFault, is_text_of};
use crate::options::{Context, Given};
use crate::sources::{Sources, read_sources};
use std::alloc::{AllocError, Global};
use wac_cli_console::Report;
use wac_component_packages::{
    Added, ComponentFault, ComponentSource, Components, Precedence, Sought, Supplied,
    default_folders, folder_of, read_components, supply_components,
};
use wac_files::FileSystem;
use wac_package_errors::{Declared, KnownPackages, Searched};

/// The packages of files, with the documents among these, and what is wrong with the others.
#[derive(Drop)]
pub(crate) struct Supply {
    /// A number that no other supply of the run has.
    pub(crate) number: usize,
    pub(crate) sources: Sources,
    pub(crate) declared: Declared,
    /// The components with packages.
    pub(crate) good: Vec<ComponentSource>,
    /// The files and folders that were looked at.
    searched: Vec<String>,
    /// The components in these folders from whose paths no name of a package follows.
    misplaced: Vec<String>,
}

/// The files that were read.
#[derive(Drop)]
struct Read {
    sources: Sources,
    /// The components that were found, and those that were named with their packages.
    found: Components,
    chosen: Components,
}

/// The packages for the document at a path.
pub(crate) fn supply_for<F: FileSystem>(
    alloc: Global,
    files: &mut F,
    given: Given<'_>,
    path: &str,
) -> Result<Supply, AllocError>
    ensures { F.replaced files.new ≡ F.replaced files.old }
{
    let folders = folders_for(alloc, files, given, folder_of(path))?;
    read_supply(alloc, files, given, folders.as_slice(), 0)
}

/// The folders in which packages are looked for beside those that are named, for the documents in a folder.
pub(crate) fn folders_for<F: FileSystem>(
    alloc: Global,
    files: &mut F,
    given: Given<'_>,
    folder: &str,
) -> Result<Vec<String>, AllocError>
    ensures { F.replaced files.new ≡ F.replaced files.old }
{
    if given.with_defaults {
        default_folders(alloc, files, folder)
    } else {
        Ok(Vec::new(alloc))
    }
}

/// The packages of the files that are given, and of those in folders.
pub(crate) fn read_supply<F: FileSystem>(
    alloc: Global,
    files: &mut F,
    given: Given<'_>,
    folders: &[String],
    number: usize,
) -> Result<Supply, AllocError>
    ensures { F.replaced files.new ≡ F.replaced files.old }
{
    let paths = all_paths(alloc, given.packages, folders)?;
    match read_all(alloc, files, given, paths.as_slice()) {
        Ok(read) => supply_of(alloc, given, paths.as_slice(), read, number),
        Err(_) => Err(AllocError),
    }
}

/// The paths that are looked at, each once.
fn all_paths<'p>(
    alloc: Global,
    given: &[&'p str],
    folders: &'p [String],
) -> Result<Vec<&'p str>, AllocError> {
    let mut paths = Vec::new(alloc);
    paths.extend_from_slice(given)?;
    for folder in folders {
        let folder = folder.as_str();
        if !paths.as_slice().iter().any(|path| *path == folder) {
            paths.push(folder)?;
        }
    }
    Ok(paths)
}

/// Reads the documents and the components.
fn read_all<F: FileSystem>(
    alloc: Global,
    files: &mut F,
    given: Given<'_>,
    paths: &[&str],
) -> Result<Read, AllocError>
    ensures { F.replaced files.new ≡ F.replaced files.old }
{
    match read_sources(alloc, files, paths) {
        Ok(sources) => read_beside(alloc, files, given, paths, sources),
        Err(_) => Err(AllocError),
    }
}

/// Reads the components.
fn read_beside<F: FileSystem>(
    alloc: Global,
    files: &mut F,
    given: Given<'_>,
    paths: &[&str],
    sources: Sources,
) -> Result<Read, AllocError>
    ensures { F.replaced files.new ≡ F.replaced files.old }
{
    match read_components(alloc, files, sought(given, paths, &[])) {
        Ok(found) => match read_components(alloc, files, sought(given, &[], given.components)) {
            Ok(chosen) => Ok(Read {
                sources,
                found,
                chosen,
            }),
            Err(_) => Err(AllocError),
        },
        Err(_) => Err(AllocError),
    }
}

/// Where components are.
fn sought<'g>(
    given: Given<'g>,
    paths: &'g [&'g str],
    named: &'g [(&'g str, &'g str)],
) -> Sought<'g> {
    Sought {
        paths,
        named,
        worlds: given.worlds,
        may_agree: given.may_agree,
    }
}

/// The supply of files that were read.
fn supply_of(
    alloc: Global,
    given: Given<'_>,
    paths: &[&str],
    read: Read,
    number: usize,
) -> Result<Supply, AllocError> {
    let Read {
        sources,
        found,
        chosen,
    } = read;
    match declared_supply(alloc, given, sources, number) {
        Ok(supply) => {
            let rule = if given.may_agree {
                Precedence::Agree
            } else {
                Precedence::Conflict
            };
            let supply = supply.with_components(alloc, found, rule)?;
            let supply = supply.with_components(alloc, chosen, Precedence::Component)?;
            supply.ended(alloc, given, paths)
        }
        Err(_) => Err(AllocError),
    }
}

/// The supply of the packages that documents declare.
fn declared_supply(
    alloc: Global,
    given: Given<'_>,
    mut sources: Sources,
    number: usize,
) -> Result<Supply, AllocError> {
    let declared = match declare(alloc, &sources, given.worlds) {
        Ok(declared) => declared,
        Err(_) => return Err(AllocError),
    };
    sources.note_declared(&declared);
    Ok(Supply {
        number,
        sources,
        declared,
        good: Vec::new(alloc),
        searched: Vec::new(alloc),
        misplaced: Vec::new(alloc),
    })
}

/// Whether a fault is that of a file in whose place another one is taken, which was named with the package.
fn is_lost(fault: &PackageFault, chosen: &[(&str, &str)]) -> bool {
    if fault.is_named && !fault.is_conflict() {
        return false;
    }
    match &fault.key {
        None => false,
        Some(key) => chosen.iter().any(|(name, _)| is_text_of(name, key)),
    }
}

impl Supply {
    /// The supply with the packages of components.
    fn with_components(
        self,
        alloc: Global,
        mut components: Components,
        rule: Precedence,
    ) -> Result<Supply, AllocError> {
        let Supply {
            number,
            sources,
            declared,
            good,
            searched,
            mut misplaced,
        } = self;
        let Sources {
            mut names,
            texts,
            origins,
            faults,
        } = sources;
        let Declared {
            mut packages,
            texts: mut files,
            faults: rejected,
        } = declared;
        let moved = misplaced.append(&mut components.misplaced);
        let added = {
            let mut supplied = Supplied {
                packages: &mut packages,
                files: &mut files,
                names: &mut names,
                rule,
            };
            supply_components(alloc, components, &mut supplied)
        };
        let sources = Sources {
            names,
            texts,
            origins,
            faults,
        };
        let declared = Declared {
            packages,
            texts: files,
            faults: rejected,
        };
        let supply = Supply {
            number,
            sources,
            declared,
            good,
            searched,
            misplaced,
        };
        if moved.is_err() {
            return Err(AllocError);
        }
        match added {
            Ok(added) => supply.with_added(alloc, added),
            Err(_) => Err(AllocError),
        }
    }

    /// The supply with what became of components.
    fn with_added(mut self, alloc: Global, added: Added) -> Result<Supply, AllocError> {
        match self.keep(alloc, added) {
            Ok(()) => Ok(self),
            Err(_) => Err(AllocError),
        }
    }

    /// Keeps what became of components.
    fn keep(&mut self, alloc: Global, added: Added) -> Result<(), AllocError> {
        let Added { mut good, faults } = added;
        self.good.append(&mut good)?;
        self.keep_faults(alloc, faults)
    }

    /// Keeps what is wrong with components.
    fn keep_faults(
        &mut self,
        alloc: Global,
        faults: Vec<ComponentFault>,
    ) -> Result<(), AllocError> {
        for fault in faults {
            self.sources
                .faults
                .push(PackageFault::of_component(alloc, fault)?)?;
        }
        Ok(())
    }

    /// The supply with what is wrong with its documents, and without the faults of files in whose place others are taken.
    fn ended(
        mut self,
        alloc: Global,
        given: Given<'_>,
        paths: &[&str],
    ) -> Result<Supply, AllocError> {
        match self.end(alloc, given, paths) {
            Ok(()) => Ok(self),
            Err(_) => Err(AllocError),
        }
    }

    fn end(&mut self, alloc: Global, given: Given<'_>, paths: &[&str]) -> Result<(), AllocError> {
        for path in paths {
            self.searched.push(String::from_str(alloc, path)?)?;
        }
        let faults = declared_faults(alloc, &self.sources, &self.declared)?;
        self.add_declared(alloc, given, faults)?;
        self.sources
            .faults
            .retain(|fault| !is_lost(fault, given.components));
        Ok(())
    }

    /// Adds what is wrong with documents. Two of a package may agree.
    fn add_declared(
        &mut self,
        alloc: Global,
        given: Given<'_>,
        faults: Vec<PackageFault>,
    ) -> Result<(), AllocError> {
        for mut fault in faults {
            match self.beside_earlier(alloc, given, &fault) {
                Ok(Agreement::Nothing) => self.sources.faults.push(fault)?,
                Ok(Agreement::Same) => self.sources.note_place(fault.place.as_str()),
                Ok(Agreement::Differs(diagnostic)) => {
                    fault.cause = Cause::Conflict(diagnostic);
                    self.sources.faults.push(fault)?;
                }
                Err(_) => return Err(AllocError),
            }
        }
        Ok(())
    }

    /// What the document of a fault is beside an earlier one of its package, if the two may agree.
    fn beside_earlier(
        &self,
        alloc: Global,
        given: Given<'_>,
        fault: &PackageFault,
    ) -> Result<Agreement, AllocError> {
        match (&fault.cause, &fault.key) {
            (Cause::DeclaredTwice(number), Some(key)) if given.may_agree => {
                let text = match self.declared.faults.get(*number) {
                    Some(fault) => self.sources.text(fault.text),
                    None => "",
                };
                let known = self.context(alloc, given.report).known;
                compared(alloc, known, given.worlds, key, text)
            }
            _ => Ok(Agreement::Nothing),
        }
    }

    /// What is known with these packages.
    pub(crate) fn context(&self, alloc: Global, report: Report) -> Context<'_> {
        Context {
            alloc,
            report,
            known: KnownPackages {
                declared: &self.declared,
                names: self.sources.names.as_slice(),
                searched: Searched::Paths {
                    paths: self.searched.as_slice(),
                    misplaced: self.misplaced.as_slice(),
                },
            },
        }
    }
}
