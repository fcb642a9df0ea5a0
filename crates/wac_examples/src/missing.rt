//! Which packages are missing.

use indexmap::IndexMap;
use std::alloc::{AllocError, Global};
use wac_parser::resolution::{Package, PackageKey};
use wac_parser::{Page, packages};

/// A line for each package that a document mentions and that isn't given, and where it is mentioned first.
pub fn missing_packages(
    alloc: Global,
    page: Page<'_, '_>,
    given: &IndexMap<PackageKey, Package>,
) -> Result<String, AllocError> {
    let Page { document } = page;
    let mut lines = String::new(alloc);
    for (key, place) in &packages(alloc, document)? {
        if !given.contains_key(key) {
            match &key.version {
                Some(version) => write!(lines, "{}@{version}", key.name)?,
                None => write!(lines, "{}", key.name)?,
            }
            writeln!(lines, " at {}+{}", place.offset(), place.len())?;
        }
    }
    Ok(lines)
}
