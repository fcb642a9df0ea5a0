//! The bodies of all interfaces, each after those that it uses.

use crate::collection::Collection;
use crate::fault::Fault;
use crate::items::Home;
use crate::scope::{Kind, Scope};
use crate::steps::Steps;
use crate::writer::Writer;
use indexmap::{IndexMap, IndexSet};
use std::alloc::{AllocError, Global};
use wac_components_types::{NameId, Table};
use wac_components_words::path_of;

/// The text between the braces of an interface, by its path.
pub(crate) struct Written {
    pub path: NameId,
    pub text: String,
}

impl Drop for Written {
    fn drop(self) {
        let Written { path: _, text: _ } = self;
    }
}

/// Whether a scope uses types of one of these interfaces, other than that of the path itself.
fn uses_one_of(scope: &Scope, path: NameId, waiting: &IndexSet<NameId>) -> bool {
    for place in 0..scope.entries.len() {
        if let Some((_, entry)) = scope.entry(place) {
            if let Kind::Used(origin) = entry.kind {
                if origin.interface != path && waiting.contains(&origin.interface) {
                    return true;
                }
            }
        }
    }
    false
}

/// The interfaces that wait, with what they have, and the bodies so far.
struct Queue {
    scopes: IndexMap<NameId, Scope>,
    waiting: IndexSet<NameId>,
    bodies: Vec<Written>,
}

impl Drop for Queue {
    fn drop(self) {
        let Queue {
            scopes: _,
            waiting: _,
            bodies: _,
        } = self;
    }
}

impl Queue {
    fn new(alloc: Global) -> Self {
        Queue {
            scopes: IndexMap::new(alloc),
            waiting: IndexSet::new(alloc),
            bodies: Vec::new(alloc),
        }
    }

    fn into_bodies(self) -> Vec<Written> {
        let Queue {
            scopes: _,
            waiting: _,
            bodies,
        } = self;
        bodies
    }

    fn add_scope(&mut self, path: NameId, scope: Scope) -> Result<(), AllocError> {
        self.scopes.insert(path, scope)?;
        Ok(())
    }

    /// Adds the interface of a number.
    fn add(
        &mut self,
        steps: &mut Steps,
        table: &Table,
        collection: &Collection,
        number: usize,
    ) -> Result<(), Fault> {
        let Some(path) = collection.path(number) else {
            return Ok(());
        };
        steps.take(collection.source_count() as u64)?;
        self.waiting.insert(path)?;
        let scope = collection.scope(table, number)?;
        let size = scope.entries.len() as u64;
        self.add_scope(path, scope)?;
        steps.take(size.saturating_add(1))
    }

    /// Adds all interfaces of a collection.
    fn add_all(
        &mut self,
        steps: &mut Steps,
        table: &Table,
        collection: &Collection,
    ) -> Result<(), Fault> {
        for number in 0..collection.paths.len() {
            self.add(steps, table, collection, number)?;
        }
        Ok(())
    }

    /// Whether an interface uses none of those that wait.
    fn is_ready(&self, steps: &mut Steps, path: NameId) -> Result<bool, Fault> {
        match self.scopes.get(&path) {
            None => Ok(false),
            Some(scope) => {
                steps.take((scope.entries.len() as u64).saturating_add(1))?;
                Ok(!uses_one_of(scope, path, &self.waiting))
            }
        }
    }

    /// The first interface that uses none of those that wait, else the first that waits.
    fn next(&self, steps: &mut Steps) -> Result<Option<NameId>, Fault> {
        for place in 0..self.waiting.len() {
            if let Some(path) = self.waiting.get_index(place).copied() {
                if self.is_ready(steps, path)? {
                    return Ok(Some(path));
                }
            }
        }
        Ok(self.waiting.first().copied())
    }

    /// What an interface has, which waits no longer.
    fn take(&mut self, steps: &mut Steps, path: NameId) -> Result<Option<Scope>, Fault> {
        steps.take(self.waiting.len() as u64)?;
        self.waiting.shift_remove(&path);
        Ok(self.scopes.swap_remove(&path))
    }

    fn add_body(&mut self, alloc: Global, path: NameId, text: &str) -> Result<(), AllocError> {
        let text = String::from_str(alloc, text)?;
        self.bodies.push(Written { path, text })?;
        Ok(())
    }
}

impl<'d> Writer<'d> {
    /// Writes the body of an interface.
    fn interface_body(
        &mut self,
        path: NameId,
        scope: &mut Scope,
        home: &mut Home,
    ) -> Result<(), Fault> {
        let text = self.table.name(path);
        self.begin(1);
        self.set_place(text)?;
        if let Some(parts) = path_of(text) {
            home.package = parts.key(self.alloc())?;
        }
        self.body(scope, home)
    }

    /// Writes the body of an interface that has that, and remembers which of its types aren't written.
    fn interface(&mut self, path: NameId, scope: Scope, home: &mut Home) -> Result<(), Fault> {
        let mut scope = scope;
        match self.interface_body(path, &mut scope, home) {
            Ok(()) => remember(home, path, scope.into_lost()),
            Err(fault) => Err(fault),
        }
    }

    /// Writes the body of the interface that comes next.
    fn next_body(&mut self, queue: &mut Queue, home: &mut Home) -> Result<(), Fault> {
        let Some(path) = queue.next(&mut self.line.steps)? else {
            return Ok(());
        };
        if let Some(scope) = queue.take(&mut self.line.steps, path)? {
            self.interface(path, scope, home)?;
            queue.add_body(self.line.alloc, path, self.text.as_str())?;
        }
        Ok(())
    }

    fn all_bodies(&mut self, queue: &mut Queue, home: &mut Home) -> Result<(), Fault> {
        for _ in 0..queue.waiting.len() {
            self.next_body(queue, home)?;
        }
        Ok(())
    }

    /// The bodies of all interfaces, each after those that it uses as far as there is no circle.
    pub(crate) fn bodies(
        &mut self,
        collection: &Collection,
        home: &mut Home,
    ) -> Result<Vec<Written>, Fault> {
        let mut queue = Queue::new(self.alloc());
        queue.add_all(&mut self.line.steps, self.table, collection)?;
        self.all_bodies(&mut queue, home)?;
        Ok(queue.into_bodies())
    }
}

/// Remembers which types of an interface aren't written.
fn remember(home: &mut Home, path: NameId, lost: IndexSet<NameId>) -> Result<(), Fault> {
    if lost.is_empty() {
        return Ok(());
    }
    home.gone.insert(path, lost)?;
    Ok(())
}
