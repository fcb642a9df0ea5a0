//! What was mentioned so far.
ghost use Rattle.std.specs.Prelude.{◌≡◌, [], ◌∷◌, OnOk};
ghost use Rattle.std.specs.Str.{bytes_eq};
ghost use Rattle.wac_ast_base.specs.Names.{package_name_of, package_path_of};
ghost use Rattle.wac_graph.specs.Package.{key_of};
ghost use Rattle.wac_resolution_rules.specs.Mentions.{name_mentions, path_mentions};
ghost use Rattle.wac_resolution.specs.Noted.{Notes, mentions_in};

use indexmap::IndexMap;
use std::alloc::{AllocError, Global};
use std::marker::Model;
use wac_ast_base::{PackageName, PackagePath};
use wac_graph::PackageKey;
use wac_lexer::SourceSpan;
use wac_resolution_state::package_key;

/// The foreign packages that were mentioned so far. A contract sees the name of the document's own package, and the first mentions.
#[derive(Drop)]
pub(crate) struct Mentions<'s> {
    alloc: Global,
    own: &'s str,
    first: IndexMap<PackageKey, SourceSpan>,
}

impl<'s> Model for Mentions<'s> {
    ghost use Rattle.wac_resolution.specs.Noted.{Noted, mentions_in};

    ghost Value = { Noted };

    ghost view = { λ m. record { own = m.own.now; first = mentions_in m.first.entries } };
}

impl<'s> Mentions<'s> {
    /// Nothing was mentioned yet in the document of the package of this name.
    pub(crate) fn new(alloc: Global, own: &'s str) -> Self
        ensures own { result.own ≡ own.now }
        ensures none { result.first ≡ [] }
    {
        Mentions {
            alloc,
            own,
            first: IndexMap::new(alloc),
        }
    }

    /// Whether this is the name of the document's own package.
    fn is_own(&self, name: &str) -> bool
        ensures { result ≡ bytes_eq name.now self.now.own }
    {
        name == self.own
    }

    /// Notes a key and its place, unless the key was mentioned before.
    fn note(&mut self, key: PackageKey, span: SourceSpan) -> Result<(), AllocError>
        ensures { OnOk result (Notes self.old self.new ((key_of key, span) ∷ [])) }
    {
        if !self.first.contains_key(&key) {
            self.first.insert(key, span)?;
        }
        Ok(())
    }

    /// Notes the package that a path names.
    pub(crate) fn path(&mut self, path: &PackagePath<'_>) -> Result<(), AllocError>
        ensures { OnOk result (Notes self.old self.new (path_mentions self.old.own (package_path_of path.now))) }
    {
        if self.is_own(path.name) {
            return Ok(());
        }
        let key = package_key(self.alloc, path.name, path.string)?;
        self.note(key, path.package_name_span())
    }

    /// Notes the package of a name.
    #[inline(never)]
    pub(crate) fn name(&mut self, name: &PackageName<'_>) -> Result<(), AllocError>
        ensures { OnOk result (Notes self.old self.new (name_mentions self.old.own (package_name_of name.now))) }
    {
        if self.is_own(name.name) {
            return Ok(());
        }
        let key = package_key(self.alloc, name.name, name.string)?;
        self.note(key, name.span)
    }

    /// Where each package was mentioned first.
    pub(crate) fn into_first(self) -> IndexMap<PackageKey, SourceSpan>
        ensures { mentions_in result.entries ≡ self.entry.first }
    {
        self.first
    }
}
