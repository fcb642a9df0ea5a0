//! Names that differ in case alone.

use crate::finding::warning;
use indexmap::IndexMap;
use std::alloc::{AllocError, Global};
use wac_diagnostics::Diagnostic;
use wac_graph_outputs::OpenImport;

/// The names that were met, each by its form in lower case.
#[derive(Drop)]
struct Names<'n> {
    first: IndexMap<String, &'n str>,
}

impl<'n> Names<'n> {
    fn new(alloc: Global) -> Self {
        Names {
            first: IndexMap::new(alloc),
        }
    }

    /// The name that was met before and differs in case alone. One that has none is noted.
    fn earlier(&mut self, alloc: Global, name: &'n str) -> Result<Option<&'n str>, AllocError> {
        let form = name.to_ascii_lowercase(alloc)?;
        match self.first.get(form.as_str()).copied() {
            Some(earlier) if earlier == name => Ok(None),
            Some(earlier) => Ok(Some(earlier)),
            None => {
                self.first.insert(form, name)?;
                Ok(None)
            }
        }
    }
}

/// Appends what is said of two names that differ in case alone.
fn push_case(
    alloc: Global,
    found: &mut Vec<Diagnostic>,
    what: &str,
    a: &str,
    b: &str,
) -> Result<(), AllocError> {
    let message = format!(in alloc;
        "{what} `{a}` and `{b}` differ in case alone, which the component model refuses"
    )?;
    found.push(warning("wac::names-differ-in-case", message, None))?;
    Ok(())
}

/// Appends a warning for each imported name that differs in case alone from an earlier one.
pub(crate) fn push_import_cases(
    alloc: Global,
    found: &mut Vec<Diagnostic>,
    imports: &IndexMap<String, OpenImport>,
) -> Result<(), AllocError> {
    let mut names = Names::new(alloc);
    for (name, _) in imports.iter() {
        if let Some(earlier) = names.earlier(alloc, name.as_str())? {
            push_case(alloc, found, "imports", earlier, name.as_str())?;
        }
    }
    Ok(())
}

/// Appends a warning for each exported name that differs in case alone from an earlier one.
pub(crate) fn push_export_cases(
    alloc: Global,
    found: &mut Vec<Diagnostic>,
    exports: &[(String, usize)],
) -> Result<(), AllocError> {
    let mut names = Names::new(alloc);
    for (name, _) in exports {
        if let Some(earlier) = names.earlier(alloc, name.as_str())? {
            push_case(alloc, found, "exports", earlier, name.as_str())?;
        }
    }
    Ok(())
}
