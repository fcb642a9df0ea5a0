//! What an interface or a world has, and by which names types are called there.

use crate::fault::{Fault, Reason};
use indexmap::{IndexMap, IndexSet};
use std::alloc::{AllocError, Global};
use wac_components_types::{
    ComponentId, InstanceId, Item, NameId, Names, Origin, Owner, Reference, Table, TypeDef, TypeId,
    reference_of,
};

/// What an item is.
#[derive(Clone, Copy)]
pub(crate) enum Kind {
    /// A type that is another name of one of the scope.
    Alias(NameId),
    /// A type that is used from another interface.
    Used(Origin),
    Resource,
    /// Another type, by its structure.
    Type(TypeId),
    Func(TypeId),
    Instance(InstanceId),
    /// What WAC doesn't declare.
    Other(&'static str),
}

/// An item, and the number of the names that it is written with.
#[derive(Clone, Copy)]
pub(crate) struct Entry {
    pub kind: Kind,
    pub names: usize,
}

/// What an interface or the imports of a world have.
pub(crate) struct Scope {
    pub alloc: Global,
    pub names: Vec<Names>,
    pub entries: IndexMap<NameId, Entry>,
    /// The types that aren't written.
    pub lost: IndexSet<NameId>,
}

impl Drop for Scope {
    fn drop(self) {
        let Scope {
            alloc: _,
            names: _,
            entries: _,
            lost: _,
        } = self;
    }
}

/// A scope, and the number of the names by which types are called in it.
#[derive(Clone, Copy)]
pub(crate) struct View<'s> {
    pub table: &'s Table,
    pub scope: &'s Scope,
    pub names: usize,
}

impl<'s> View<'s> {
    /// The same with the names of that number.
    pub(crate) fn with(self, names: usize) -> Self {
        View {
            table: self.table,
            scope: self.scope,
            names,
        }
    }

    /// The name by which a type is called.
    pub(crate) fn name_of(self, ty: TypeId) -> Option<NameId> {
        match self.scope.names.get(self.names) {
            Some(all) => all.of(self.table, ty),
            None => None,
        }
    }
}

/// What a type is as an item of an owner.
fn kind_of_type(table: &Table, names: &Names, ty: TypeId, owner: Owner) -> Kind {
    let base = table.base(ty);
    match table.base_def(ty) {
        Some(TypeDef::Func(_)) | Some(TypeDef::Body(_, _)) | None => return Kind::Type(base),
        _ => {}
    }
    match reference_of(table, names, ty, owner) {
        Some(Reference::Named(name)) => Kind::Alias(name),
        Some(Reference::Used(origin)) => Kind::Used(origin),
        None => match table.base_def(ty) {
            Some(TypeDef::Resource) => Kind::Resource,
            _ => Kind::Type(base),
        },
    }
}

fn kind_of(table: &Table, names: &Names, item: Item, owner: Owner) -> Kind {
    match item {
        Item::Type(ty) => kind_of_type(table, names, ty, owner),
        Item::Func(ty) => Kind::Func(ty),
        Item::Instance(instance) => Kind::Instance(instance),
        Item::Module => Kind::Other("module"),
        Item::Component(_) | Item::Unevaluated(_) => Kind::Other("component"),
    }
}

impl Scope {
    pub(crate) fn new(alloc: Global) -> Self {
        Scope {
            alloc,
            names: Vec::new(alloc),
            entries: IndexMap::new(alloc),
            lost: IndexSet::new(alloc),
        }
    }

    /// The types that aren't written, alone.
    pub(crate) fn into_lost(self) -> IndexSet<NameId> {
        let Scope {
            alloc: _,
            names: _,
            entries: _,
            lost,
        } = self;
        lost
    }

    /// Adds an item, unless there is one of that name.
    fn add(
        &mut self,
        table: &Table,
        name: NameId,
        item: Item,
        owner: Owner,
    ) -> Result<(), AllocError> {
        if self.entries.contains_key(&name) {
            return Ok(());
        }
        let number = self.names.len().saturating_sub(1);
        if let Some(names) = self.names.get(number) {
            let kind = kind_of(table, names, item, owner);
            let entry = Entry {
                kind,
                names: number,
            };
            self.entries.insert(name, entry)?;
        }
        Ok(())
    }

    /// Begins names, which are the last from now on.
    fn begin_names(&mut self) -> Result<(), AllocError> {
        self.names.reserve(1)?;
        self.names.push_reserved(Names::new(self.alloc));
        Ok(())
    }

    /// Adds the names of what an instance exports to the last names.
    fn name_exports(&mut self, table: &Table, instance: InstanceId) -> Result<(), AllocError> {
        match self.names.last_mut() {
            Some(names) => names.add_exports(table, instance),
            None => Ok(()),
        }
    }

    /// Adds the names of what a component imports to the last names.
    fn name_imports(&mut self, table: &Table, component: ComponentId) -> Result<(), AllocError> {
        match self.names.last_mut() {
            Some(names) => names.add_imports(table, component),
            None => Ok(()),
        }
    }

    /// Adds what an instance exports.
    pub(crate) fn add_exports(
        &mut self,
        table: &Table,
        instance: InstanceId,
    ) -> Result<(), AllocError> {
        self.begin_names()?;
        self.name_exports(table, instance)?;
        for place in 0..table.export_count(instance) {
            if let Some((name, item)) = table.export_at(instance, place) {
                self.add(table, name, item, Owner::Instance(instance))?;
            }
        }
        Ok(())
    }

    /// Adds what a component imports, and its exports' names.
    pub(crate) fn add_imports(
        &mut self,
        table: &Table,
        component: ComponentId,
        count: usize,
    ) -> Result<(), AllocError> {
        self.begin_names()?;
        self.name_imports(table, component)?;
        for place in 0..count {
            if let Some((name, item)) = table.import_at(component, place) {
                self.add(table, name, item, Owner::Component(component))?;
            }
        }
        Ok(())
    }

    /// Adds the names with which the exports of a component are written, and returns their number.
    pub(crate) fn add_world_names(
        &mut self,
        table: &Table,
        component: ComponentId,
        instance: InstanceId,
    ) -> Result<usize, AllocError> {
        let number = self.names.len();
        self.begin_names()?;
        self.name_exports(table, instance)?;
        self.name_imports(table, component)?;
        Ok(number)
    }

    /// Notes that a type isn't written.
    pub(crate) fn lose(&mut self, name: NameId) -> Result<(), AllocError> {
        self.lost.insert(name)?;
        Ok(())
    }

    /// The item at a place.
    pub(crate) fn entry(&self, place: usize) -> Option<(NameId, Entry)> {
        match self.entries.get_index(place) {
            Some((name, entry)) => Some((*name, *entry)),
            None => None,
        }
    }

    /// Tests that a type of that name is written.
    pub(crate) fn test(&self, name: NameId) -> Result<(), Fault> {
        if self.lost.contains(&name) {
            Err(Fault::Reason(Reason::Missing(name)))
        } else {
            Ok(())
        }
    }
}
