// Packages of components beside those that documents declare.
use crate::faults::{ComponentFault, Fault};
use crate::keys::package_key;
use crate::listing::ComponentSource;
use crate::reading::Components;
use indexmap::IndexMap;
use std::alloc::{AllocError, Global};
use wac_component_reading::difference;
use wac_diagnostics::Diagnostic;
use wac_graph::{Package, PackageError, PackageKey};

/// The packages that documents declare, and the files of packages, to which those of components are added.
#[derive(Drop)]
pub struct Supplied<'s> {
    pub packages: &'s mut IndexMap<PackageKey, Package>,
    /// The number of the file of a package, also where the file has an error.
    pub files: &'s mut IndexMap<PackageKey, usize>,
    /// The names of the files.
    pub names: &'s mut Vec<String>,
    /// Which of two files of a package is taken.
    pub rule: Precedence,
}

/// Which of two files of a package is taken: one that is there, or the component that is added.
#[derive(Clone, Copy, Debug, PartialEq, Eq)]
pub enum Precedence {
    /// There may be one alone.
    Conflict,
    /// The one that is there, if the two agree.
    Agree,
    /// The component.
    Component,
}

/// What became of components that were added.
#[derive(Drop)]
pub struct Added {
    /// The components whose packages were added, or agree with those that are there, in no order.
    pub good: Vec<ComponentSource>,
    /// The files that give no package.
    pub faults: Vec<ComponentFault>,
}

/// A component with its package.
#[derive(Drop)]
struct Decoded {
    source: ComponentSource,
    key: PackageKey,
    package: Package,
}

/// Adds the packages of components to those that are there. What is wrong with the files that give none is returned, in
/// their order: first what is wrong with each by itself and beside other components, then what is beside documents.
pub fn supply_components(
    alloc: Global,
    components: Components,
    supplied: &mut Supplied<'_>,
) -> Result<Added, AllocError> {
    let Components {
        all,
        packages,
        again,
        faults,
        misplaced: _,
    } = components;
    supplied.name_all(alloc, faults.as_slice())?;
    let mut added = Added {
        good: again,
        faults,
    };
    let mut all = all.into_iter();
    for (key, package) in packages {
        if let Some(source) = all.next() {
            let decoded = Decoded {
                source,
                key,
                package,
            };
            added.supply(alloc, decoded, supplied)?;
        }
    }
    Ok(added)
}

impl Added {
    /// Adds the package of a component, or keeps what is wrong with it.
    fn supply(
        &mut self,
        alloc: Global,
        decoded: Decoded,
        supplied: &mut Supplied<'_>,
    ) -> Result<(), AllocError> {
        match supplied.fault(alloc, &decoded) {
            Ok(None) => self.keep(alloc, decoded, supplied),
            Ok(Some(diagnostic)) => {
                let Decoded { source, .. } = decoded;
                let fault = Fault::Conflict(diagnostic);
                self.faults.push(ComponentFault { source, fault })?;
                Ok(())
            }
            Err(_) => Err(AllocError),
        }
    }

    /// Adds the package of a component, unless the one that is there is taken.
    fn keep(
        &mut self,
        alloc: Global,
        decoded: Decoded,
        supplied: &mut Supplied<'_>,
    ) -> Result<(), AllocError> {
        let Decoded {
            source,
            key,
            package,
        } = decoded;
        if supplied.takes(&key) {
            supplied.add(alloc, source.path.as_str(), key, package)?;
        }
        self.good.push(source)?;
        Ok(())
    }
}

impl Supplied<'_> {
    /// Whether the component of a package is taken.
    fn takes(&self, key: &PackageKey) -> bool {
        self.rule == Precedence::Component || !self.files.contains_key(key)
    }

    /// Adds the package of a component.
    fn add(
        &mut self,
        alloc: Global,
        path: &str,
        key: PackageKey,
        package: Package,
    ) -> Result<(), AllocError> {
        let listed = copied_key(alloc, &key)?;
        self.name(alloc, listed, path)?;
        self.packages.insert(key, package)?;
        Ok(())
    }

    /// Notes which file has a package.
    fn name(&mut self, alloc: Global, key: PackageKey, path: &str) -> Result<(), AllocError> {
        let number = self.names.len();
        self.names.push(String::from_str(alloc, path)?)?;
        self.files.insert(key, number)?;
        Ok(())
    }

    /// Adds the files that give no package, each under the name of its package, unless another file has that.
    fn name_all(&mut self, alloc: Global, faults: &[ComponentFault]) -> Result<(), AllocError> {
        for fault in faults {
            if !matches!(fault.fault, Fault::Conflict(_)) {
                self.name_faulty(alloc, &fault.source)?;
            }
        }
        Ok(())
    }

    /// The same of one, if the name of its package is known.
    fn name_faulty(&mut self, alloc: Global, source: &ComponentSource) -> Result<(), AllocError> {
        let Some(key) = &source.key else {
            return Ok(());
        };
        let key = package_key(alloc, key.as_str())?;
        if self.takes(&key) {
            let _ = self.packages.swap_remove(&key);
            self.name(alloc, key, source.path.as_str())?;
        }
        Ok(())
    }

    /// What is wrong with a component whose package has another file.
    fn fault(&self, alloc: Global, decoded: &Decoded) -> Result<Option<Diagnostic>, AllocError> {
        let (Some(key), Some(name)) = (&decoded.source.key, self.name_of(&decoded.key)) else {
            return Ok(None);
        };
        match self.rule {
            Precedence::Component => Ok(None),
            Precedence::Conflict => Ok(Some(declared(alloc, key.as_str(), name)?)),
            Precedence::Agree => match self.packages.get(&decoded.key) {
                Some(package) => {
                    let told = (key.as_str(), name, "declares");
                    disagreement(alloc, told, &decoded.package, package)
                }
                // The document has an error, and is reported for that.
                None => Ok(None),
            },
        }
    }

    /// The name of the file of a package.
    fn name_of(&self, key: &PackageKey) -> Option<&str> {
        let number = self.files.get(key)?;
        let name = self.names.get(*number)?;
        Some(name.as_str())
    }
}

/// A copy of a key.
fn copied_key(alloc: Global, key: &PackageKey) -> Result<PackageKey, AllocError> {
    let version = match &key.version {
        None => None,
        Some(version) => Some(String::from_str(alloc, version.as_str())?),
    };
    Ok(PackageKey {
        name: String::from_str(alloc, key.name.as_str())?,
        version,
    })
}

/// That a package of a component is declared, too.
fn declared(alloc: Global, key: &str, name: &str) -> Result<Diagnostic, AllocError> {
    let message = format!(in alloc; "`{key}` is declared by {name} too")?;
    let mut diagnostic = Diagnostic::without_place("wac::declared-and-decoded", message);
    diagnostic.help = Some(String::from_str(
        alloc,
        "leave out one of the two, or compare them: --agree",
    )?);
    Ok(diagnostic)
}

/// Where a decoded package differs from another one. Of that the key, the file, and what the file does with it are told.
pub fn disagreement(
    alloc: Global,
    told: (&str, &str, &str),
    decoded: &Package,
    other: &Package,
) -> Result<Option<Diagnostic>, AllocError> {
    let (key, name, does) = told;
    let place = match difference(alloc, decoded, other) {
        Ok(None) => return Ok(None),
        Ok(Some(place)) => place,
        Err(PackageError::Memory(_)) => return Err(AllocError),
        Err(error) => format!(in alloc; "{error}")?,
    };
    let message = format!(in alloc; "`{key}` isn't what {name} {does}: {place}")?;
    Ok(Some(Diagnostic::without_place("wac::package-disagreement", message)))
}
