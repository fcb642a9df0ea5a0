//! Resources, and which functions are theirs.

use crate::fault::{Fault, Reason};
use crate::line::Line;
use crate::pieces::func_of;
use crate::scope::{Kind, Scope, View};
use crate::steps::Steps;
use crate::writer::Writer;
use indexmap::IndexMap;
use std::alloc::{AllocError, Global};
use wac_components_types::{Func, NameId, Table, TypeDef, TypeId};

/// What a function of a resource is.
#[derive(Clone, Copy, PartialEq, Eq)]
pub(crate) enum MemberKind {
    Constructor,
    Method,
    Static,
}

/// A function of a resource, by the place of its item.
#[derive(Clone, Copy)]
pub(crate) struct Member {
    pub kind: MemberKind,
    pub resource: NameId,
    pub name: NameId,
    pub ty: TypeId,
    pub names: usize,
}

/// The functions of the resources of a scope, and those that are of none.
pub(crate) struct Members {
    pub of_resources: Vec<Member>,
    /// The places of the other functions.
    pub others: Vec<usize>,
}

impl Drop for Members {
    fn drop(self) {
        let Members {
            of_resources: _,
            others: _,
        } = self;
    }
}

/// What a function's name says of whose it is: which kind, the resource, and its name there.
fn split_member(text: &str) -> Option<(MemberKind, &str, &str)> {
    if let Some(resource) = text.strip_prefix("[constructor]") {
        return Some((MemberKind::Constructor, resource, ""));
    }
    if let Some(rest) = text.strip_prefix("[method]") {
        let (resource, name) = rest.split_once('.')?;
        return Some((MemberKind::Method, resource, name));
    }
    let rest = text.strip_prefix("[static]")?;
    let (resource, name) = rest.split_once('.')?;
    Some((MemberKind::Static, resource, name))
}

impl Members {
    fn new(alloc: Global) -> Self {
        Members {
            of_resources: Vec::new(alloc),
            others: Vec::new(alloc),
        }
    }

    /// Adds the item at a place: as a function of a resource, or as another one.
    fn add(&mut self, member: Option<Member>, place: usize) -> Result<(), AllocError> {
        match member {
            Some(member) => self.of_resources.push(member)?,
            None => self.others.push(place)?,
        }
        Ok(())
    }
}

/// The resources of a scope, by their texts.
struct Resources {
    all: IndexMap<String, NameId>,
}

impl Drop for Resources {
    fn drop(self) {
        let Resources { all: _ } = self;
    }
}

impl Resources {
    fn add(&mut self, alloc: Global, text: &str, name: NameId) -> Result<(), AllocError> {
        let text = String::from_str(alloc, text)?;
        self.all.insert(text, name)?;
        Ok(())
    }

    fn get(&self, text: &str) -> Option<NameId> {
        self.all.get(text).copied()
    }
}

impl Scope {
    /// The resource that is declared at a place.
    fn resource_at(&self, place: usize) -> Option<NameId> {
        let (name, entry) = self.entry(place)?;
        match entry.kind {
            Kind::Resource => Some(name),
            _ => None,
        }
    }

    /// The resources that are declared here.
    fn resources(&self, table: &Table) -> Result<Resources, AllocError> {
        let mut resources = Resources {
            all: IndexMap::new(self.alloc),
        };
        for place in 0..self.entries.len() {
            if let Some(name) = self.resource_at(place) {
                resources.add(self.alloc, table.name(name), name)?;
            }
        }
        Ok(resources)
    }

    /// Which functions are of which of these resources.
    fn members_of(&self, table: &Table, resources: &Resources) -> Result<Members, AllocError> {
        let mut members = Members::new(self.alloc);
        for place in 0..self.entries.len() {
            members.add(self.member(table, resources, place), place)?;
        }
        Ok(members)
    }

    /// The function at a place, if it is one of these resources.
    fn member(&self, table: &Table, resources: &Resources, place: usize) -> Option<Member> {
        let (name, entry) = self.entry(place)?;
        let Kind::Func(ty) = entry.kind else {
            return None;
        };
        let (kind, text, _) = split_member(table.name(name))?;
        let resource = resources.get(text)?;
        Some(Member {
            kind,
            resource,
            name,
            ty,
            names: entry.names,
        })
    }

    /// Takes a step for each byte of the names.
    fn take_names(&self, table: &Table, steps: &mut Steps) -> Result<(), Fault> {
        for place in 0..self.entries.len() {
            if let Some((name, _)) = self.entry(place) {
                steps.take(table.name(name).len() as u64)?;
            }
        }
        Ok(())
    }

    /// Which functions are of which resources.
    pub(crate) fn members(&self, table: &Table, steps: &mut Steps) -> Result<Members, Fault> {
        self.take_names(table, steps)?;
        let resources = self.resources(table)?;
        match self.members_of(table, &resources) {
            Ok(members) => Ok(members),
            Err(_) => Err(Fault::Memory),
        }
    }
}

impl<'d> Writer<'d> {
    /// Writes a resource with its functions. Whether its name can be written.
    pub(crate) fn resource(
        &mut self,
        name: NameId,
        members: &Members,
        scope: &Scope,
    ) -> Result<bool, Fault> {
        let head = self.line.resource_head(self.table, name);
        if !self.is_written(head, name)? {
            return Ok(false);
        }
        self.open()?;
        self.members_of(name, members, scope)?;
        self.close("}")?;
        Ok(true)
    }

    /// Writes the functions of a resource.
    fn members_of(
        &mut self,
        resource: NameId,
        members: &Members,
        scope: &Scope,
    ) -> Result<(), Fault> {
        for place in 0..members.of_resources.len() {
            if let Some(member) = members.of_resources.get(place).copied() {
                self.member(resource, member, scope)?;
            }
        }
        Ok(())
    }

    /// Writes a function, if it is one of that resource.
    fn member(&mut self, resource: NameId, member: Member, scope: &Scope) -> Result<(), Fault> {
        self.take(1)?;
        if member.resource != resource {
            return Ok(());
        }
        let view = View {
            table: self.table,
            scope,
            names: member.names,
        };
        let written = self.line.member(member, view);
        match self.settle(written, member.name) {
            Ok(_) => Ok(()),
            Err(fault) => Err(fault),
        }
    }
}

/// Whether a function returns a resource of its own, and nothing else.
fn makes(func: Func, resource: NameId, view: View<'_>) -> bool {
    let Some(result) = func.result else {
        return false;
    };
    match view.table.base_def(result) {
        Some(TypeDef::Own(ty)) => {
            view.name_of(result).is_none() && view.name_of(ty) == Some(resource)
        }
        _ => false,
    }
}

impl Line {
    fn resource_head(&mut self, table: &Table, name: NameId) -> Result<(), Fault> {
        self.push("resource ")?;
        self.push_name(table, name)?;
        self.push(" {")
    }

    /// Writes a function of a resource.
    fn member(&mut self, member: Member, view: View<'_>) -> Result<(), Fault> {
        let func = func_of(view.table, member.ty)?;
        match member.kind {
            MemberKind::Constructor => self.constructor(func, member.resource, view),
            MemberKind::Method => {
                self.member_name(view.table, member.name, ": ")?;
                self.signature(func, 1, view)
            }
            MemberKind::Static => {
                self.member_name(view.table, member.name, ": static ")?;
                self.signature(func, 0, view)
            }
        }
    }

    /// Writes the name that a function has in its resource, and what is after it.
    fn member_name(&mut self, table: &Table, name: NameId, after: &str) -> Result<(), Fault> {
        match split_member(table.name(name)) {
            None => Err(Fault::Reason(Reason::Name(name))),
            Some((_, _, text)) => {
                self.push_identifier(text, name)?;
                self.push(after)
            }
        }
    }

    /// Writes the type of a function whose parameters are those from a place on, and ends the item.
    pub(crate) fn signature(
        &mut self,
        func: Func,
        first: usize,
        view: View<'_>,
    ) -> Result<(), Fault> {
        self.write_func(func, first, view)?;
        self.push(";")
    }

    fn constructor(&mut self, func: Func, resource: NameId, view: View<'_>) -> Result<(), Fault> {
        if !makes(func, resource, view) {
            return Err(Fault::Reason(Reason::Constructor));
        }
        self.push("constructor")?;
        self.write_params(func, 0, view)?;
        self.push(";")
    }
}
