//! The names of scopes.
ghost use Rattle.std.specs.Prelude.{◌≡◌, ◌++◌, [], OnOk};
ghost use Rattle.wac_graph_types.specs.Scope.{look_up};
ghost use Rattle.wac_names.specs.LookUps.{after, names_at, no_names, with_first, with_names};
ghost use Rattle.wac_names.specs.Traced.{step_of};

use crate::steps::{Level, StepTaken};
use indexmap::IndexMap;
use std::alloc::{AllocError, Global};
use std::marker::Model;
use wac_ast_base::Ident;
use wac_lexer::SourceSpan;

/// The names of a scope, each with where it was bound first. A contract sees them in the order in which they were bound.
#[derive(Drop)]
struct Scope<'a, X> {
    bound: IndexMap<&'a str, X>,
}

impl<'a, X> Model for Scope<'a, X> {
    ghost use Rattle.std.specs.Prelude.{List, ℕ, map};

    ghost Value = { List (List ℕ × X) };

    ghost view = { λ s. map (λ e. (e.0.now, e.1)) s.bound.entries };
}

impl<'a, X: Copy> Scope<'a, X> {
    /// No names.
    fn new(alloc: Global) -> Self
        ensures { result ≡ [] }
    {
        Scope {
            bound: IndexMap::new(alloc),
        }
    }

    /// Where a name is bound.
    fn find(&self, name: &str) -> Option<X>
        ensures { result ≡ look_up name.now self.now }
    {
        self.bound.get(name).copied()
    }

    /// Binds a name, unless it is bound.
    fn bind(&mut self, name: &'a str, place: X) -> Result<(), AllocError>
        ensures { OnOk result (self.new ≡ with_first self.old name.now place) }
    {
        if self.find(name).is_none() {
            self.bound.insert(name, place)?;
        }
        Ok(())
    }

    /// Forgets all names.
    fn clear(&mut self)
        ensures { self.new ≡ [] }
    {
        self.bound.clear();
    }
}

/// The names of all scopes that are open.
#[derive(Drop)]
pub(crate) struct Scopes<'a> {
    root: Scope<'a, SourceSpan>,
    body: Scope<'a, SourceSpan>,
    inner: Scope<'a, SourceSpan>,
}

impl<'a> Model for Scopes<'a> {
    ghost use Rattle.wac_names.specs.LookUps.{Scopes};

    ghost Value = { Scopes };

    ghost view = { λ s. record { root = s.root; body = s.body; inner = s.inner } };
}

impl<'a> Scopes<'a> {
    /// No names.
    pub(crate) fn new(alloc: Global) -> Self
        ensures { result ≡ no_names }
    {
        Scopes {
            root: Scope::new(alloc),
            body: Scope::new(alloc),
            inner: Scope::new(alloc),
        }
    }

    /// Where a name is bound.
    pub(crate) fn find(&self, level: Level, name: &str) -> Option<SourceSpan>
        ensures { result ≡ look_up name.now (names_at self.now level) }
    {
        match level {
            Level::Root => self.root.find(name),
            Level::Body => self.body.find(name),
            Level::Inner => self.inner.find(name),
        }
    }

    /// Where a name is bound, else where it is bound at root.
    pub(crate) fn find_outwards(&self, level: Level, name: &str) -> Option<SourceSpan>
        ensures { result ≡ look_up name.now (names_at self.now level ++ self.now.root) }
    {
        match self.find(level, name) {
            Some(span) => Some(span),
            None => self.root.find(name),
        }
    }

    /// A body begins, without names.
    fn begin(&mut self, level: Level)
        ensures { self.new ≡ with_names self.old level [] }
    {
        match level {
            Level::Root => self.root.clear(),
            Level::Body => self.body.clear(),
            Level::Inner => self.inner.clear(),
        }
    }

    /// Binds a name, unless it is bound.
    fn bind(&mut self, level: Level, id: &Ident<'a>) -> Result<(), AllocError>
        ensures { OnOk result (self.new ≡ with_names self.old level
            (with_first (names_at self.old level) id.now.string.now id.now.span)) }
    {
        match level {
            Level::Root => self.root.bind(id.string, id.span),
            Level::Body => self.body.bind(id.string, id.span),
            Level::Inner => self.inner.bind(id.string, id.span),
        }
    }

    /// The scopes after a step.
    pub(crate) fn take(&mut self, step: &StepTaken<'a>) -> Result<(), AllocError>
        ensures { OnOk result (self.new ≡ after self.old (step_of step.now)) }
    {
        match step {
            StepTaken::Begins(level) => {
                self.begin(*level);
                Ok(())
            }
            StepTaken::Binds(level, id) => self.bind(*level, id),
            StepTaken::LooksUp(_, _) | StepTaken::LooksOutwards(_, _) | StepTaken::Enters(_, _) =>
                Ok(()),
        }
    }
}
