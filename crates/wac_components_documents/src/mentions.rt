//! Which types of its scope a type names.

use crate::fault::Fault;
use crate::resources::{Member, Members};
use crate::scope::{Kind, View};
use crate::steps::Steps;
use indexmap::IndexSet;
use std::alloc::Global;
use wac_components_types::{NameId, Parts, Table, TypeDef, TypeId, origin_of};

/// The names that were met, and the types that are still to be looked at.
pub(crate) struct Mentions {
    names: IndexSet<NameId>,
    stack: Vec<TypeId>,
}

impl Drop for Mentions {
    fn drop(self) {
        let Mentions { names: _, stack: _ } = self;
    }
}

impl Mentions {
    fn into_names(self) -> IndexSet<NameId> {
        let Mentions { names, stack: _ } = self;
        names
    }

    fn add(&mut self, ty: Option<TypeId>) -> Result<(), Fault> {
        if let Some(ty) = ty {
            self.stack.push(ty)?;
        }
        Ok(())
    }

    fn add_parts(&mut self, table: &Table, parts: Parts) -> Result<(), Fault> {
        for place in 0..parts.count {
            if let Some(part) = table.part(parts.first.saturating_add(place)) {
                self.add(part.ty)?;
            }
        }
        Ok(())
    }

    /// Adds what a type's structure is made of.
    fn add_structure(&mut self, table: &Table, def: TypeDef) -> Result<(), Fault> {
        match def {
            TypeDef::Record(parts) | TypeDef::Variant(parts) => self.add_parts(table, parts),
            TypeDef::Tuple(parts) => self.add_parts(table, parts),
            TypeDef::List(ty) | TypeDef::Option(ty) => self.add(Some(ty)),
            TypeDef::FixedList(ty, _) => self.add(Some(ty)),
            TypeDef::Own(ty) | TypeDef::Borrow(ty) => self.add(Some(ty)),
            TypeDef::Stream(ty) | TypeDef::Future(ty) => self.add(ty),
            TypeDef::Map(key, value) => {
                self.add(Some(key))?;
                self.add(Some(value))
            }
            TypeDef::Result(ok, err) => {
                self.add(ok)?;
                self.add(err)
            }
            TypeDef::Func(func) => {
                self.add_parts(table, func.params)?;
                self.add(func.result)
            }
            _ => Ok(()),
        }
    }
}

impl Mentions {
    fn new(alloc: Global) -> Self {
        Mentions {
            names: IndexSet::new(alloc),
            stack: Vec::new(alloc),
        }
    }

    fn add_name(&mut self, name: NameId) -> Result<(), Fault> {
        self.names.insert(name)?;
        Ok(())
    }

    /// Looks at a type in use: its name in the scope, or what its structure is made of.
    fn look_at(&mut self, ty: TypeId, view: View<'_>) -> Result<(), Fault> {
        if let Some(name) = view.name_of(ty) {
            return self.add_name(name);
        }
        match (origin_of(view.table, ty, None), view.table.base_def(ty)) {
            (None, Some(def)) => self.add_structure(view.table, def),
            _ => Ok(()),
        }
    }

    /// Looks at all types that are still to be looked at.
    fn look_at_all(&mut self, steps: &mut Steps, view: View<'_>) -> Result<(), Fault> {
        for _ in 0..steps.left() {
            steps.take(1)?;
            match self.stack.pop() {
                None => return Ok(()),
                Some(ty) => self.look_at(ty, view)?,
            }
        }
        Err(Fault::TooLarge)
    }

    /// Adds what the structure of a type mentions.
    fn add_type(&mut self, steps: &mut Steps, ty: TypeId, view: View<'_>) -> Result<(), Fault> {
        if let Some(def) = view.table.base_def(ty) {
            self.add_structure(view.table, def)?;
        }
        self.look_at_all(steps, view)
    }

    /// Adds what a function mentions, if it is one of that resource.
    fn add_member(
        &mut self,
        steps: &mut Steps,
        resource: NameId,
        member: Member,
        view: View<'_>,
    ) -> Result<(), Fault> {
        steps.take(1)?;
        if member.resource != resource {
            return Ok(());
        }
        self.add_type(steps, member.ty, view.with(member.names))
    }

    /// Adds what the functions of a resource mention.
    fn add_members(
        &mut self,
        steps: &mut Steps,
        resource: NameId,
        members: &Members,
        view: View<'_>,
    ) -> Result<(), Fault> {
        for place in 0..members.of_resources.len() {
            if let Some(member) = members.of_resources.get(place).copied() {
                self.add_member(steps, resource, member, view)?;
            }
        }
        Ok(())
    }

    /// Adds what the declaration of a type mentions.
    fn add_declaration(
        &mut self,
        steps: &mut Steps,
        declared: (NameId, Kind),
        members: &Members,
        view: View<'_>,
    ) -> Result<(), Fault> {
        let (name, kind) = declared;
        match kind {
            Kind::Alias(other) => self.add_name(other),
            Kind::Type(ty) => self.add_type(steps, ty, view),
            Kind::Resource => self.add_members(steps, name, members, view),
            _ => Ok(()),
        }
    }
}

/// The names of other types that the declaration of a type mentions, and those of a resource's functions.
pub(crate) fn mentioned_by(
    steps: &mut Steps,
    declared: (NameId, Kind),
    members: &Members,
    view: View<'_>,
) -> Result<IndexSet<NameId>, Fault> {
    let mut all = Mentions::new(view.scope.alloc);
    match all.add_declaration(steps, declared, members, view) {
        Ok(()) => Ok(all.into_names()),
        Err(fault) => Err(fault),
    }
}
