// Why files of components give no packages.
use crate::listing::ComponentSource;
use std::alloc::{AllocError, Global};
use wac_diagnostics::Diagnostic;
use wac_files::FileError;

/// Why a file gives no package.
#[derive(Drop)]
pub enum Fault {
    /// It could not be read.
    Unread(FileError),
    /// This is wrong with it.
    Rejected(Diagnostic),
    /// This is wrong with it beside another file of its package.
    Conflict(Diagnostic),
}

/// A file that gives no package.
#[derive(Drop)]
pub struct ComponentFault {
    pub source: ComponentSource,
    pub fault: Fault,
}

/// That no key follows from a path.
pub(crate) fn unnamed(alloc: Global, path: &str) -> Result<Diagnostic, AllocError> {
    let message = String::from_str(alloc, "no package's name follows from the path")?;
    let mut diagnostic = Diagnostic::without_place("wac::unnamed-component", message);
    diagnostic.help = Some(format!(in alloc; "name it: --package a:b={path}")?);
    Ok(diagnostic)
}

/// That a package is that of another component, too.
pub(crate) fn doubled(alloc: Global, key: &str, first: &str) -> Result<Diagnostic, AllocError> {
    let message = format!(in alloc; "`{key}` is the package of {first} too")?;
    Ok(Diagnostic::without_place("wac::decoded-twice", message))
}
