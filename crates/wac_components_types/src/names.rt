//! By which name a type is called in an interface or a world.

use crate::{ComponentId, InstanceId, Item, NameId, Owner, Table, TypeDef, TypeId};
use indexmap::IndexMap;
use std::alloc::{AllocError, Global};
use wac_graph_types::ExternKind;

/// The names of types in one interface or world: those that it gives, and those of what these are names of.
///
/// ```text
/// let mut names = Names::new(alloc);
/// names.add_exports(table, instance)?;
/// names.of(table, ty)     // the name by which the instance's interface calls the type
/// ```
pub struct Names {
    own: IndexMap<usize, NameId>,
    by_target: IndexMap<usize, NameId>,
}

impl Drop for Names {
    fn drop(self) {
        let Names {
            own: _,
            by_target: _,
        } = self;
    }
}

/// Where a type was first: the side and the name of the interface, and the type's name there.
#[derive(Clone, Copy)]
pub struct Origin {
    /// Whether a world imports or exports the interface.
    pub kind: ExternKind,
    pub interface: NameId,
    pub name: NameId,
}

/// How many names a chain may have: the depth of types is limited to fewer.
const LONGEST_CHAIN: usize = 1000;

/// What a type is another name of, if it is one.
///
/// ```text
/// target(table, ty)       // of `type size = u64` the type u64
/// ```
pub fn target(table: &Table, ty: TypeId) -> Option<TypeId> {
    match table.ty(ty) {
        Some(entry) => match entry.def {
            TypeDef::Named(named) => Some(named.target),
            _ => None,
        },
        None => None,
    }
}

fn is_primitive(table: &Table, ty: TypeId) -> bool {
    match table.ty(ty) {
        Some(entry) => match entry.def {
            TypeDef::Primitive(_) => true,
            _ => false,
        },
        None => true,
    }
}

fn import_count(table: &Table, component: ComponentId) -> usize {
    match table.component(component) {
        Some(found) => found.imports.len(),
        None => 0,
    }
}

impl Names {
    /// No names.
    pub fn new(alloc: Global) -> Names {
        Names {
            own: IndexMap::new(alloc),
            by_target: IndexMap::new(alloc),
        }
    }

    fn add_own(&mut self, name: NameId, item: Item) -> Result<(), AllocError> {
        if let Item::Type(ty) = item {
            self.own.insert(ty.0, name)?;
        }
        Ok(())
    }

    /// Adds the names of what a type is another name of, where they have none.
    fn add_targets(&mut self, table: &Table, name: NameId, item: Item) -> Result<(), AllocError> {
        let Item::Type(ty) = item else {
            return Ok(());
        };
        let mut current = ty;
        for _ in 0..LONGEST_CHAIN {
            match target(table, current) {
                None => return Ok(()),
                Some(next) => {
                    if !is_primitive(table, next) && !self.by_target.contains_key(&next.0) {
                        self.by_target.insert(next.0, name)?;
                    }
                    current = next;
                }
            }
        }
        Ok(())
    }

    /// Adds what an instance exports.
    pub fn add_exports(&mut self, table: &Table, instance: InstanceId) -> Result<(), AllocError> {
        for place in 0..table.export_count(instance) {
            if let Some((name, item)) = table.export_at(instance, place) {
                self.add_own(name, item)?;
                self.add_targets(table, name, item)?;
            }
        }
        Ok(())
    }

    /// Adds what a component imports.
    pub fn add_imports(&mut self, table: &Table, component: ComponentId) -> Result<(), AllocError> {
        for place in 0..import_count(table, component) {
            if let Some((name, item)) = table.import_at(component, place) {
                self.add_own(name, item)?;
                self.add_targets(table, name, item)?;
            }
        }
        Ok(())
    }

    /// The name that is given to exactly this type.
    pub fn own(&self, ty: TypeId) -> Option<NameId> {
        self.own.get(&ty.0).copied()
    }

    /// The name of a type among those that are given, along its chain.
    fn own_of(&self, table: &Table, ty: TypeId) -> Option<NameId> {
        let mut current = ty;
        for _ in 0..LONGEST_CHAIN {
            if let Some(name) = self.own(current) {
                return Some(name);
            }
            current = target(table, current)?;
        }
        None
    }

    /// The name of what a type is another name of too, along its chain.
    fn shared_of(&self, table: &Table, ty: TypeId) -> Option<NameId> {
        let mut current = ty;
        for _ in 0..LONGEST_CHAIN {
            if let Some(name) = self.by_target.get(&current.0) {
                return Some(*name);
            }
            current = target(table, current)?;
        }
        None
    }

    /// The name by which a type is called: one that is given to it or to what it is another name of, else one of those
    /// that are names of the same.
    pub fn of(&self, table: &Table, ty: TypeId) -> Option<NameId> {
        match self.own_of(table, ty) {
            Some(name) => Some(name),
            None => self.shared_of(table, ty),
        }
    }
}

/// Where a type was first, if that is an interface with a name, and not this owner.
///
/// ```text
/// origin_of(table, ty, Some(Owner::Instance(instance)))   // of `use types.{size}` the interface and the name there
/// ```
pub fn origin_of(table: &Table, ty: TypeId, owner: Option<Owner>) -> Option<Origin> {
    let mut current = ty;
    let mut first = None;
    for _ in 0..LONGEST_CHAIN {
        if let Some(found) = origin_of_name(table, current, owner) {
            first = Some(found);
        }
        match target(table, current) {
            Some(next) => current = next,
            None => return first,
        }
    }
    first
}

/// The interface and the name of a named type, if it belongs to an interface with a name, and not to this owner.
fn origin_of_name(table: &Table, ty: TypeId, owner: Option<Owner>) -> Option<Origin> {
    let entry = table.ty(ty)?;
    let TypeDef::Named(named) = entry.def else {
        return None;
    };
    if owner == Some(named.owner) {
        return None;
    }
    let Owner::Instance(instance) = named.owner else {
        return None;
    };
    let (kind, interface) = table.instance(instance)?.name?;
    Some(Origin {
        kind,
        interface,
        name: named.name,
    })
}
