//! The interfaces that a component mentions.

use crate::fault::Fault;
use crate::scope::Scope;
use crate::steps::Steps;
use indexmap::IndexSet;
use std::alloc::Global;
use wac_components::Decoded;
use wac_components_types::{ComponentId, InstanceId, Item, NameId, Table};
use wac_components_words::path_of;

/// An instance of an interface, by the interface's number.
#[derive(Clone, Copy)]
struct Source {
    interface: usize,
    instance: InstanceId,
}

/// The interfaces that have a path, and their instances: those that are exported come first.
pub(crate) struct Collection {
    alloc: Global,
    pub paths: IndexSet<NameId>,
    sources: Vec<Source>,
}

impl Drop for Collection {
    fn drop(self) {
        let Collection {
            alloc: _,
            paths: _,
            sources: _,
        } = self;
    }
}

impl Collection {
    fn new(alloc: Global) -> Self {
        Collection {
            alloc,
            paths: IndexSet::new(alloc),
            sources: Vec::new(alloc),
        }
    }

    fn add(&mut self, path: NameId, instance: InstanceId) -> Result<(), Fault> {
        let (interface, _) = self.paths.insert_full(path)?;
        self.sources.push(Source {
            interface,
            instance,
        })?;
        Ok(())
    }

    /// What the interface of a number has: what its first instance exports, and then what only later ones do.
    pub(crate) fn scope(&self, table: &Table, interface: usize) -> Result<Scope, Fault> {
        let mut scope = Scope::new(self.alloc);
        for source in &self.sources {
            if source.interface == interface {
                scope.add_exports(table, source.instance)?;
            }
        }
        Ok(scope)
    }

    /// How many instances there are.
    pub(crate) fn source_count(&self) -> usize {
        self.sources.len()
    }

    /// The path of the interface of a number.
    pub(crate) fn path(&self, interface: usize) -> Option<NameId> {
        self.paths.get_index(interface).copied()
    }
}

impl Collection {
    /// Adds an item, if it is an instance of an interface that has a path.
    fn add_item(
        &mut self,
        steps: &mut Steps,
        table: &Table,
        name: NameId,
        item: Item,
    ) -> Result<(), Fault> {
        let Item::Instance(instance) = item else {
            return Ok(());
        };
        let text = table.name(name);
        steps.take(text.len() as u64)?;
        if path_of(text).is_some() {
            self.add(name, instance)?;
        }
        Ok(())
    }

    /// Adds the interfaces that a package defines.
    fn add_defined(&mut self, steps: &mut Steps, decoded: &Decoded) -> Result<(), Fault> {
        for definition in &decoded.definitions {
            self.add_item(steps, &decoded.table, definition.path, definition.item)?;
        }
        Ok(())
    }

    /// Adds the interfaces of the worlds that a package defines.
    fn add_worlds(&mut self, steps: &mut Steps, decoded: &Decoded) -> Result<(), Fault> {
        for definition in &decoded.definitions {
            if let Item::Component(component) = definition.item {
                self.add_world(steps, &decoded.table, component)?;
            }
        }
        Ok(())
    }

    /// Adds the interfaces of a world.
    fn add_world(
        &mut self,
        steps: &mut Steps,
        table: &Table,
        component: ComponentId,
    ) -> Result<(), Fault> {
        let Some(found) = table.component(component) else {
            return Ok(());
        };
        let (instance, imports) = (found.instance, found.imports.len());
        self.add_exports(steps, table, instance)?;
        for place in 0..imports {
            if let Some((name, item)) = table.import_at(component, place) {
                self.add_item(steps, table, name, item)?;
            }
        }
        Ok(())
    }

    fn add_exports(
        &mut self,
        steps: &mut Steps,
        table: &Table,
        instance: InstanceId,
    ) -> Result<(), Fault> {
        for place in 0..table.export_count(instance) {
            if let Some((name, item)) = table.export_at(instance, place) {
                self.add_item(steps, table, name, item)?;
            }
        }
        Ok(())
    }

    fn add_all(&mut self, steps: &mut Steps, decoded: &Decoded) -> Result<(), Fault> {
        if decoded.definitions.is_empty() {
            return self.add_world(steps, &decoded.table, decoded.component);
        }
        self.add_defined(steps, decoded)?;
        self.add_worlds(steps, decoded)
    }
}

/// The interfaces that a decoded component mentions.
pub(crate) fn collected(
    alloc: Global,
    steps: &mut Steps,
    decoded: &Decoded,
) -> Result<Collection, Fault> {
    let mut all = Collection::new(alloc);
    match all.add_all(steps, decoded) {
        Ok(()) => Ok(all),
        Err(fault) => Err(fault),
    }
}
