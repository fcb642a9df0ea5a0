//! The items of an interface.

use crate::fault::{Fault, Reason};
use crate::line::Line;
use crate::order::{Turn, turns};
use crate::pieces::func_of;
use crate::resources::Members;
use crate::scope::{Entry, Kind, Scope, View};
use crate::writer::Writer;
use indexmap::{IndexMap, IndexSet};
use wac_components_types::{NameId, Origin, Table, TypeId};

/// Where a body stands: the key of its package, and which types of which interfaces aren't written.
pub(crate) struct Home {
    pub package: String,
    pub gone: IndexMap<NameId, IndexSet<NameId>>,
}

impl Drop for Home {
    fn drop(self) {
        let Home {
            package: _,
            gone: _,
        } = self;
    }
}

impl Home {
    /// Tests that an interface has a type that is used from it.
    fn test(&self, origin: Origin) -> Result<(), Fault> {
        match self.gone.get(&origin.interface) {
            Some(names) if names.contains(&origin.name) => {
                Err(Fault::Reason(Reason::Missing(origin.name)))
            }
            _ => Ok(()),
        }
    }
}

impl Line {
    /// Writes an item of a `use`: a name of another interface, and the name that it gets.
    fn use_item(
        &mut self,
        table: &Table,
        name: NameId,
        origin: Origin,
        home: &Home,
    ) -> Result<(), Fault> {
        self.push_path(table, origin.interface, home.package.as_str())?;
        self.text.clear();
        home.test(origin)?;
        self.push_name(table, origin.name)?;
        self.push_new_name(table, name, origin)
    }

    fn push_new_name(&mut self, table: &Table, name: NameId, origin: Origin) -> Result<(), Fault> {
        if origin.name == name {
            return Ok(());
        }
        self.push(" as ")?;
        self.push_name(table, name)
    }

    /// Writes the front of a `use`.
    fn begin_use(&mut self, table: &Table, interface: NameId, package: &str) -> Result<(), Fault> {
        self.push("use ")?;
        self.push_path(table, interface, package)?;
        self.push(".{ ")
    }

    /// Writes a function with its name.
    pub(crate) fn function(
        &mut self,
        word: &str,
        name: NameId,
        ty: TypeId,
        view: View<'_>,
    ) -> Result<(), Fault> {
        let func = func_of(view.table, ty)?;
        self.function_head(view.table, word, name)?;
        self.signature(func, 0, view)
    }

    fn function_head(&mut self, table: &Table, word: &str, name: NameId) -> Result<(), Fault> {
        self.push(word)?;
        self.push_name(table, name)?;
        self.push(": ")
    }
}

impl<'d> Writer<'d> {
    /// Writes the items of an interface.
    pub(crate) fn body(&mut self, scope: &mut Scope, home: &Home) -> Result<(), Fault> {
        let members = scope.members(self.table, &mut self.line.steps)?;
        self.all_items(scope, &members, home)
    }

    /// Writes the items of an interface whose functions are these, and then what it can't have.
    fn all_items(
        &mut self,
        scope: &mut Scope,
        members: &Members,
        home: &Home,
    ) -> Result<(), Fault> {
        self.items("", scope, members, home)?;
        self.others(scope)
    }

    /// Writes what is used, then the types, then the functions, each after that word.
    pub(crate) fn items(
        &mut self,
        word: &str,
        scope: &mut Scope,
        members: &Members,
        home: &Home,
    ) -> Result<(), Fault> {
        self.uses(scope, home)?;
        self.declarations(scope, members)?;
        self.functions(word, scope, members)
    }

    /// Writes what is used from other interfaces, an item for each.
    fn uses(&mut self, scope: &mut Scope, home: &Home) -> Result<(), Fault> {
        let interfaces = used_interfaces(scope)?;
        for place in 0..interfaces.len() {
            if let Some(interface) = interfaces.get_index(place).copied() {
                self.use_of_interface(interface, scope, home)?;
            }
        }
        Ok(())
    }

    fn use_of_interface(
        &mut self,
        interface: NameId,
        scope: &mut Scope,
        home: &Home,
    ) -> Result<(), Fault> {
        self.used.clear();
        for place in 0..scope.entries.len() {
            if let Some((name, origin)) = used_at(scope, place, interface) {
                if !self.used_item(name, origin, home)? {
                    scope.lose(name)?;
                }
            }
        }
        self.end_use(interface, home.package.as_str())
    }

    /// Adds an item to the `use`. Whether it is there.
    fn used_item(&mut self, name: NameId, origin: Origin, home: &Home) -> Result<bool, Fault> {
        let written = self.line.use_item(self.table, name, origin, home);
        if self.is_written(written, name)? {
            self.end_used_item()?;
            Ok(true)
        } else {
            Ok(false)
        }
    }

    /// Adds the item that was written to the `use`.
    fn end_used_item(&mut self) -> Result<(), Fault> {
        let before = if self.used.is_empty() { "" } else { ", " };
        self.used.push_str(before)?;
        self.used.push_str(self.line.text.as_str())?;
        self.line.text.clear();
        Ok(())
    }

    /// Writes the `use` of an interface, if it has items.
    fn end_use(&mut self, interface: NameId, package: &str) -> Result<(), Fault> {
        if self.used.is_empty() {
            return Ok(());
        }
        self.line.begin_use(self.table, interface, package)?;
        self.line.push(self.used.as_str())?;
        self.line.push(" };")?;
        self.end_item()
    }

    /// Writes the types that are declared.
    fn declarations(&mut self, scope: &mut Scope, members: &Members) -> Result<(), Fault> {
        let turns = turns(&mut self.line.steps, self.table, members, scope)?;
        for number in 0..turns.len() {
            if let Some(turn) = turns.get(number).copied() {
                self.turn(turn, scope, members)?;
            }
        }
        Ok(())
    }

    /// Writes a type whose turn it is.
    fn turn(&mut self, turn: Turn, scope: &mut Scope, members: &Members) -> Result<(), Fault> {
        if turn.in_circle {
            self.comment("in a circle of names, which WAC refuses: ", turn.name)?;
        }
        if !self.declaration(turn.name, turn.place, scope, members)? {
            scope.lose(turn.name)?;
        }
        Ok(())
    }

    /// Writes a type. Whether it is there.
    fn declaration(
        &mut self,
        name: NameId,
        place: usize,
        scope: &Scope,
        members: &Members,
    ) -> Result<bool, Fault> {
        match scope.entry(place) {
            None => Ok(false),
            Some((_, entry)) => match entry.kind {
                Kind::Resource => self.resource(name, members, scope),
                _ => self.declared_type(name, entry, scope),
            },
        }
    }

    /// Writes a type that is no resource. Whether it is there.
    fn declared_type(&mut self, name: NameId, entry: Entry, scope: &Scope) -> Result<bool, Fault> {
        let view = View {
            table: self.table,
            scope,
            names: entry.names,
        };
        let written = self.line.write_declared(name, entry.kind, view);
        self.settle(written, name)
    }

    /// Writes the functions that are of no resource, each after that word.
    fn functions(&mut self, word: &str, scope: &Scope, members: &Members) -> Result<(), Fault> {
        for number in 0..members.others.len() {
            if let Some(place) = members.others.get(number).copied() {
                self.function_at(word, scope, place)?;
            }
        }
        Ok(())
    }

    /// Writes the item at a place, if it is a function.
    fn function_at(&mut self, word: &str, scope: &Scope, place: usize) -> Result<(), Fault> {
        match scope.entry(place) {
            None => Ok(()),
            Some((name, entry)) => match entry.kind {
                Kind::Func(ty) => {
                    let view = View {
                        table: self.table,
                        scope,
                        names: entry.names,
                    };
                    self.function(word, name, ty, view)
                }
                _ => Ok(()),
            },
        }
    }

    /// Writes a function with its name.
    pub(crate) fn function(
        &mut self,
        word: &str,
        name: NameId,
        ty: TypeId,
        view: View<'_>,
    ) -> Result<(), Fault> {
        let written = self.line.function(word, name, ty, view);
        match self.settle(written, name) {
            Ok(_) => Ok(()),
            Err(fault) => Err(fault),
        }
    }

    /// Writes the comments for the items that an interface can't have.
    fn others(&mut self, scope: &Scope) -> Result<(), Fault> {
        for place in 0..scope.entries.len() {
            self.other(scope, place)?;
        }
        Ok(())
    }

    /// Writes the comment for an item that an interface can't have.
    fn other(&mut self, scope: &Scope, place: usize) -> Result<(), Fault> {
        match scope.entry(place) {
            None => Ok(()),
            Some((name, entry)) => match entry.kind {
                Kind::Instance(_) => self.refuse(name, Reason::Here("instance")),
                Kind::Other(kind) => self.refuse(name, Reason::Here(kind)),
                _ => Ok(()),
            },
        }
    }
}

/// The interfaces from which types are used, in the order of their first mention.
fn used_interfaces(scope: &Scope) -> Result<IndexSet<NameId>, Fault> {
    let mut all = IndexSet::new(scope.alloc);
    for place in 0..scope.entries.len() {
        if let Some((_, entry)) = scope.entry(place) {
            if let Kind::Used(origin) = entry.kind {
                all.insert(origin.interface)?;
            }
        }
    }
    Ok(all)
}

/// The type at a place, if it is used from that interface.
fn used_at(scope: &Scope, place: usize, interface: NameId) -> Option<(NameId, Origin)> {
    let (name, entry) = scope.entry(place)?;
    match entry.kind {
        Kind::Used(origin) if origin.interface == interface => Some((name, origin)),
        _ => None,
    }
}
