// What is wrong with files of packages.
use std::alloc::{AllocError, Global};
use wac_component_packages::{ComponentFault, ComponentSource, Fault};
use wac_diagnostics::Diagnostic;
use wac_files::FileError;
use wac_graph::PackageKey;
use wac_package_names::key_named;

/// A file that gives no package.
#[derive(Drop)]
pub(crate) struct PackageFault {
    pub(crate) path: String,
    /// The one path without links that leads to the file.
    pub(crate) place: String,
    /// Whether the file was named, and not found in a folder.
    pub(crate) is_named: bool,
    /// The package, if its name is known.
    pub(crate) key: Option<PackageKey>,
    pub(crate) cause: Cause,
}

/// Why a file gives no package.
#[derive(Drop)]
pub(crate) enum Cause {
    /// It could not be read.
    Unread(FileError),
    /// This is wrong with it; its bytes are shown.
    Rejected(Diagnostic, Vec<u8>),
    /// This is wrong with it beside another file of its package.
    Conflict(Diagnostic),
    /// What it declares has the fault of this number.
    Declared(usize),
    /// The same, which is that another document declares its package too.
    DeclaredTwice(usize),
}

impl PackageFault {
    /// What is wrong with the file of a component.
    pub(crate) fn of_component(
        alloc: Global,
        component: ComponentFault,
    ) -> Result<PackageFault, AllocError> {
        let ComponentFault { source, fault } = component;
        let ComponentSource {
            path,
            place,
            key,
            is_named,
        } = source;
        let key = match key {
            None => None,
            Some(key) => Some(key_named(alloc, key.as_str())?),
        };
        let cause = match fault {
            Fault::Unread(error) => Cause::Unread(error),
            Fault::Rejected(diagnostic) => Cause::Rejected(diagnostic, Vec::new(alloc)),
            Fault::Conflict(diagnostic) => Cause::Conflict(diagnostic),
        };
        Ok(PackageFault {
            path,
            place,
            is_named,
            key,
            cause,
        })
    }

    /// Whether it is that another file has the package too.
    pub(crate) fn is_conflict(&self) -> bool {
        match &self.cause {
            Cause::Conflict(_) | Cause::DeclaredTwice(_) => true,
            Cause::Unread(_) | Cause::Rejected(_, _) | Cause::Declared(_) => false,
        }
    }
}

/// Whether a text is the name of a package, with its version.
pub(crate) fn is_text_of(text: &str, key: &PackageKey) -> bool {
    match (text.split_once('@'), &key.version) {
        (Some((name, version)), Some(own)) => {
            name == key.name.as_str() && version == own.as_str()
        }
        (None, None) => text == key.name.as_str(),
        _ => false,
    }
}
