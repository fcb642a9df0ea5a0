//! Packages that documents declare, with the names of these documents.

use crate::unknown::Searched;
use indexmap::IndexMap;
use std::alloc::{AllocError, Global};
use wac_declared_packages::Declared;
use wac_graph::{Package, PackageKey};
use wac_lexer::SourceSpan;
use wac_package_names::{push_key, push_near};

/// Packages that documents declare, with the names of these documents, in the order of their texts.
#[derive(Clone, Copy)]
pub struct KnownPackages<'k> {
    pub declared: &'k Declared,
    pub names: &'k [String],
    /// Where they were looked for.
    pub searched: Searched<'k>,
}

impl<'k> KnownPackages<'k> {
    /// Whether a mentioned package has a file with an error, or a document that mentions such a package.
    pub fn has_faulty(self, mentioned: &IndexMap<PackageKey, SourceSpan>) -> bool {
        for (key, _) in mentioned.iter() {
            if self.declared.texts.contains_key(key) && !self.declared.packages.contains_key(key) {
                return true;
            }
        }
        false
    }

    /// The name of the document that declares a package.
    pub fn document_of(self, key: &PackageKey) -> Option<&'k str> {
        let text = self.declared.texts.get(key)?;
        let name = self.names.get(*text)?;
        Some(name.as_str())
    }

    /// The package of a key.
    pub fn package(self, key: &PackageKey) -> Option<&'k Package> {
        self.declared.packages.get(key)
    }

    /// Appends a package, with the document that declares it.
    pub(crate) fn push_package(self, out: &mut String, key: &PackageKey) -> Result<(), AllocError> {
        out.push_str(if out.is_empty() { "`" } else { ", `" })?;
        push_key(out, key)?;
        out.push_str("` is declared by ")?;
        out.push_str(self.document_of(key).unwrap_or("?"))
    }

    /// What the packages of a name define in place of a name.
    pub(crate) fn definitions_of(
        self,
        alloc: Global,
        package: &str,
        name: &str,
    ) -> Result<Option<String>, AllocError> {
        let mut help = String::new(alloc);
        for (key, found) in self.declared.packages.iter() {
            if key.name.as_str() == package {
                push_definitions(alloc, &mut help, (key, found), name)?;
            }
        }
        if help.is_empty() {
            return Ok(None);
        }
        Ok(Some(help))
    }
}

/// Appends what a package defines in place of a name.
pub(crate) fn push_definitions(
    alloc: Global,
    out: &mut String,
    package: (&PackageKey, &Package),
    name: &str,
) -> Result<(), AllocError> {
    let (key, found) = package;
    out.push_str(if out.is_empty() { "`" } else { "; `" })?;
    push_key(out, key)?;
    out.push_str("` has")?;
    push_near(alloc, out, found.definitions(), name)
}
