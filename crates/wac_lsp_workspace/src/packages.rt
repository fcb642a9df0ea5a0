//! The packages that the documents and components of folders have.
use crate::contents::{ComponentPackage, FoundRoot};
use crate::mentions::Concerned;
use crate::sources::{Source, with_mentioned};
use indexmap::IndexMap;
use std::alloc::{AllocError, Global};
use std::collections::BTreeMap;
use wac_declared_packages::copied_package;
use wac_graph::{Package, PackageKey};
use wac_package_errors::{DeclarationFault, Declared, KnownPackages, Searched, declare_all};
use wac_package_names::key_named;

/// The packages that documents and components have.
#[derive(Drop)]
pub(crate) struct Packages {
    /// The numbers of texts are those of `names`.
    declared: Declared,
    /// The names of the components, and after them those of the sources.
    names: Vec<String>,
    /// How many components there are.
    components: usize,
    /// The folders in which components were looked for.
    searched: Vec<String>,
    /// Files of components there from whose paths no name of a package follows.
    misplaced: Vec<String>,
}

/// Texts that declare packages, with the numbers of their sources.
#[derive(Drop)]
struct Listed<'s> {
    texts: Vec<&'s str>,
    numbers: Vec<usize>,
}

/// What is after a folder and a slash in a path.
pub(crate) fn path_below<'p>(folder: &str, path: &'p str) -> Option<&'p str> {
    path.strip_prefix(folder)?.strip_prefix('/')
}

/// The part of a path below the first folder in which it is; the path, where it is in none.
fn below<'p>(folders: &[String], path: &'p str) -> &'p str {
    for folder in folders {
        if let Some(rest) = path_below(folder.as_str(), path) {
            return rest;
        }
    }
    path
}

/// Paths, as the client's folders have them.
fn names_below(
    alloc: Global,
    folders: &[String],
    paths: &[String],
) -> Result<Vec<String>, AllocError> {
    let mut names = Vec::with_capacity(alloc, paths.len())?;
    for path in paths {
        names.push(String::from_str(alloc, below(folders, path.as_str()))?)?;
    }
    Ok(names)
}

/// The texts of the documents that declare some packages.
fn texts_of<'s>(
    alloc: Global,
    sources: &'s [Source],
    needed: &Concerned,
) -> Result<Listed<'s>, AllocError> {
    let mut listed = Listed {
        texts: Vec::new(alloc),
        numbers: Vec::new(alloc),
    };
    for number in 0..sources.len() {
        let source = &sources[number];
        if let Some(text) = source.text() {
            if needed.has(source.links.own.as_str()) {
                listed.texts.push(text)?;
                listed.numbers.push(number)?;
            }
        }
    }
    Ok(listed)
}

/// The packages that texts declare.
fn declare(alloc: Global, texts: &[&str]) -> Result<Declared, AllocError> {
    let worlds = IndexMap::new(alloc);
    declare_all(alloc, texts, &worlds)
}

/// A copy of a package.
fn copied(alloc: Global, package: &Package) -> Result<Package, AllocError> {
    match copied_package(alloc, package) {
        Ok(copy) => Ok(copy),
        // A copy of a package is a package, so only memory runs out.
        Err(_) => Err(AllocError),
    }
}

/// A copy of a key.
fn copied_key(alloc: Global, key: &PackageKey) -> Result<PackageKey, AllocError> {
    let version = match &key.version {
        Some(version) => Some(String::from_str(alloc, version.as_str())?),
        None => None,
    };
    Ok(PackageKey {
        name: String::from_str(alloc, key.name.as_str())?,
        version,
    })
}

/// The packages of a list that a change doesn't concern.
fn packages_left(
    alloc: Global,
    packages: IndexMap<PackageKey, Package>,
    concerned: &Concerned,
) -> Result<IndexMap<PackageKey, Package>, AllocError> {
    let mut left = IndexMap::new(alloc);
    for (key, package) in packages {
        if !concerned.has(key.name.as_str()) {
            left.insert(key, package)?;
        }
    }
    Ok(left)
}

/// The same of the numbers of texts.
fn texts_left(
    alloc: Global,
    texts: IndexMap<PackageKey, usize>,
    concerned: &Concerned,
) -> Result<IndexMap<PackageKey, usize>, AllocError> {
    let mut left = IndexMap::new(alloc);
    for (key, text) in texts {
        if !concerned.has(key.name.as_str()) {
            left.insert(key, text)?;
        }
    }
    Ok(left)
}

/// Whether a change concerns the package of a document, or the document declares none any more.
fn is_concerned(sources: &[Source], number: usize, concerned: &Concerned) -> bool {
    match sources.get(number) {
        Some(source) => source.text().is_none() || concerned.has(source.links.own.as_str()),
        None => true,
    }
}

/// The faults of documents that a change doesn't concern.
fn faults_left(
    alloc: Global,
    faults: Vec<DeclarationFault>,
    sources: &[Source],
    concerned: &Concerned,
) -> Result<Vec<DeclarationFault>, AllocError> {
    let mut left = Vec::new(alloc);
    for fault in faults {
        if !is_concerned(sources, fault.text, concerned) {
            left.push(fault)?;
        }
    }
    Ok(left)
}

/// The numbers of texts in their order, those of so many components last.
fn sorted_texts(
    alloc: Global,
    texts: IndexMap<PackageKey, usize>,
    components: usize,
) -> Result<IndexMap<PackageKey, usize>, AllocError> {
    let mut keys = BTreeMap::new(alloc);
    for (key, number) in texts {
        keys.insert(number.wrapping_sub(components), (key, number))?;
    }
    let mut sorted = IndexMap::new(alloc);
    for (key, number) in keys.into_values() {
        sorted.insert(key, number)?;
    }
    Ok(sorted)
}

/// Packages in the order of their texts.
fn sorted_packages(
    alloc: Global,
    packages: IndexMap<PackageKey, Package>,
    texts: &IndexMap<PackageKey, usize>,
) -> Result<IndexMap<PackageKey, Package>, AllocError> {
    let mut places = BTreeMap::new(alloc);
    for (key, package) in packages {
        let place = texts.get_index_of(&key).unwrap_or(texts.len());
        places.insert(place, (key, package))?;
    }
    let mut sorted = IndexMap::new(alloc);
    for (key, package) in places.into_values() {
        sorted.insert(key, package)?;
    }
    Ok(sorted)
}

impl Packages {
    /// No packages.
    pub(crate) fn none(alloc: Global) -> Packages {
        Packages {
            declared: Declared {
                packages: IndexMap::new(alloc),
                texts: IndexMap::new(alloc),
                faults: Vec::new(alloc),
            },
            names: Vec::new(alloc),
            components: 0,
            searched: Vec::new(alloc),
            misplaced: Vec::new(alloc),
        }
    }

    /// No packages, with the names of the components of a root, as the client's folders have them.
    pub(crate) fn of_root(
        alloc: Global,
        folders: &[String],
        root: &FoundRoot,
    ) -> Result<Packages, AllocError> {
        let mut packages = Packages::none(alloc);
        packages.components = root.components.len();
        for component in root.components.as_slice() {
            packages.name(alloc, folders, component.path.as_str())?;
        }
        packages.searched = names_below(alloc, folders, root.folders.as_slice())?;
        packages.misplaced = names_below(alloc, folders, root.misplaced.as_slice())?;
        Ok(packages)
    }

    /// Adds the name of the next source.
    fn name(&mut self, alloc: Global, folders: &[String], path: &str) -> Result<(), AllocError> {
        let name = below(folders, path);
        self.names.push(String::from_str(alloc, name)?)?;
        Ok(())
    }

    /// Adds the names of the sources that have none.
    pub(crate) fn name_sources(
        &mut self,
        alloc: Global,
        folders: &[String],
        sources: &[Source],
    ) -> Result<(), AllocError> {
        let named = self.names.len().saturating_sub(self.components);
        for number in named..sources.len() {
            self.name(alloc, folders, sources[number].path.as_str())?;
        }
        Ok(())
    }

    /// Forgets the packages that a change concerns.
    fn forget(
        &mut self,
        alloc: Global,
        sources: &[Source],
        concerned: &Concerned,
    ) -> Result<(), AllocError> {
        let packages = std::mem::replace(&mut self.declared.packages, IndexMap::new(alloc));
        self.declared.packages = packages_left(alloc, packages, concerned)?;
        let texts = std::mem::replace(&mut self.declared.texts, IndexMap::new(alloc));
        self.declared.texts = texts_left(alloc, texts, concerned)?;
        let faults = std::mem::replace(&mut self.declared.faults, Vec::new(alloc));
        self.declared.faults = faults_left(alloc, faults, sources, concerned)?;
        Ok(())
    }

    /// Declares the packages of documents anew that a change concerns.
    pub(crate) fn renew(
        &mut self,
        alloc: Global,
        sources: &[Source],
        concerned: &Concerned,
    ) -> Result<(), AllocError> {
        self.forget(alloc, sources, concerned)?;
        let needed = with_mentioned(alloc, sources, concerned)?;
        let listed = texts_of(alloc, sources, &needed)?;
        match declare(alloc, listed.texts.as_slice()) {
            Ok(declared) => self.put(sources, declared, &listed, concerned)?,
            Err(_) => return Err(AllocError),
        }
        self.sort(alloc)
    }

    /// Brings the packages into the order of the documents, those of components last.
    fn sort(&mut self, alloc: Global) -> Result<(), AllocError> {
        let texts = std::mem::replace(&mut self.declared.texts, IndexMap::new(alloc));
        self.declared.texts = sorted_texts(alloc, texts, self.components)?;
        let packages = std::mem::replace(&mut self.declared.packages, IndexMap::new(alloc));
        self.declared.packages = sorted_packages(alloc, packages, &self.declared.texts)?;
        Ok(())
    }

    /// Puts what was declared of packages that a change concerns.
    fn put(
        &mut self,
        sources: &[Source],
        declared: Declared,
        listed: &Listed<'_>,
        concerned: &Concerned,
    ) -> Result<(), AllocError> {
        let Declared {
            packages,
            texts,
            faults,
        } = declared;
        self.put_packages(packages, concerned)?;
        self.put_texts(texts, listed.numbers.as_slice(), concerned)?;
        self.put_faults(sources, faults, listed.numbers.as_slice(), concerned)
    }

    /// Puts packages that a change concerns.
    fn put_packages(
        &mut self,
        packages: IndexMap<PackageKey, Package>,
        concerned: &Concerned,
    ) -> Result<(), AllocError> {
        for (key, package) in packages {
            if concerned.has(key.name.as_str()) {
                self.declared.packages.insert(key, package)?;
            }
        }
        Ok(())
    }

    /// Puts which source declares each package that a change concerns, of texts whose sources have these numbers.
    fn put_texts(
        &mut self,
        texts: IndexMap<PackageKey, usize>,
        numbers: &[usize],
        concerned: &Concerned,
    ) -> Result<(), AllocError> {
        for (key, text) in texts {
            if concerned.has(key.name.as_str()) {
                if let Some(number) = numbers.get(text) {
                    self.declared.texts.insert(key, *number)?;
                }
            }
        }
        Ok(())
    }

    /// Puts the faults of documents that a change concerns, of texts whose sources have these numbers.
    fn put_faults(
        &mut self,
        sources: &[Source],
        faults: Vec<DeclarationFault>,
        numbers: &[usize],
        concerned: &Concerned,
    ) -> Result<(), AllocError> {
        for fault in faults {
            let DeclarationFault { text, error } = fault;
            if let Some(number) = numbers.get(text) {
                if is_concerned(sources, *number, concerned) {
                    self.declared.faults.push(DeclarationFault {
                        text: *number,
                        error,
                    })?;
                }
            }
        }
        Ok(())
    }

    /// Takes the packages that a change concerns anew: those of documents, and those of components that no document
    /// declares.
    pub(crate) fn renew_with(
        &mut self,
        alloc: Global,
        documents: &Packages,
        components: &[ComponentPackage],
        concerned: &Concerned,
    ) -> Result<(), AllocError> {
        self.forget(alloc, &[], concerned)?;
        self.copy_packages(alloc, documents, concerned)?;
        self.copy_texts(alloc, documents, concerned)?;
        for number in 0..components.len() {
            self.add(alloc, number, &components[number], concerned)?;
        }
        self.sort(alloc)
    }

    /// Adds copies of the packages of documents that a change concerns.
    fn copy_packages(
        &mut self,
        alloc: Global,
        documents: &Packages,
        concerned: &Concerned,
    ) -> Result<(), AllocError> {
        for (key, package) in documents.declared.packages.iter() {
            if concerned.has(key.name.as_str()) {
                let key = copied_key(alloc, key)?;
                self.declared.packages.insert(key, copied(alloc, package)?)?;
            }
        }
        Ok(())
    }

    /// Adds which source declares each of them.
    fn copy_texts(
        &mut self,
        alloc: Global,
        documents: &Packages,
        concerned: &Concerned,
    ) -> Result<(), AllocError> {
        for (key, source) in documents.declared.texts.iter() {
            if concerned.has(key.name.as_str()) {
                let number = source.saturating_add(self.components);
                self.declared.texts.insert(copied_key(alloc, key)?, number)?;
            }
        }
        Ok(())
    }

    /// Adds the package of the component of a number, if a change concerns it and no document declares it. That of a
    /// component with an error is noted alone: what mentions it isn't resolved.
    fn add(
        &mut self,
        alloc: Global,
        number: usize,
        component: &ComponentPackage,
        concerned: &Concerned,
    ) -> Result<(), AllocError> {
        let key = key_named(alloc, component.key.as_str())?;
        if !concerned.has(key.name.as_str()) || self.declared.texts.contains_key(&key) {
            return Ok(());
        }
        self.declared.texts.insert(key, number)?;
        match &component.package {
            Some(package) => self.supply(alloc, component.key.as_str(), package),
            None => Ok(()),
        }
    }

    /// Adds a copy of the package of a component.
    fn supply(&mut self, alloc: Global, key: &str, package: &Package) -> Result<(), AllocError> {
        let key = key_named(alloc, key)?;
        let copy = copied(alloc, package)?;
        self.declared.packages.insert(key, copy)?;
        Ok(())
    }

    /// What is known with them.
    pub(crate) fn known(&self) -> KnownPackages<'_> {
        KnownPackages {
            declared: &self.declared,
            names: self.names.as_slice(),
            searched: Searched::Paths {
                paths: self.searched.as_slice(),
                misplaced: self.misplaced.as_slice(),
            },
        }
    }

    /// What is wrong with documents, by the numbers of their sources.
    pub(crate) fn faults(&self) -> &[DeclarationFault] {
        self.declared.faults.as_slice()
    }

    /// The number of the source that declares a package, if a document does.
    pub(crate) fn source_of(&self, key: &PackageKey) -> Option<usize> {
        let number = *self.declared.texts.get(key)?;
        number.checked_sub(self.components)
    }
}
