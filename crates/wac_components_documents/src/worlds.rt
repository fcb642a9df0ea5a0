//! Worlds.

use crate::fault::{Fault, Reason};
use crate::items::Home;
use crate::line::Line;
use crate::scope::{Kind, Scope, View};
use crate::writer::Writer;
use wac_components_types::{ComponentId, InstanceId, Item, NameId, Table};
use wac_components_words::{identifier, path_of};

impl Line {
    /// Writes the first line of a world of that name.
    fn world_head(&mut self, name: &str) -> Result<(), Fault> {
        self.push("world ")?;
        if let Some(word) = identifier(self.alloc, name)? {
            self.push(word.as_str())?;
        }
        self.push(" {")
    }

    fn named_interface(
        &mut self,
        table: &Table,
        word: &str,
        name: NameId,
        package: &str,
    ) -> Result<(), Fault> {
        self.push(word)?;
        self.push_path(table, name, package)?;
        self.push(";")
    }

    fn inline_head(&mut self, table: &Table, word: &str, name: NameId) -> Result<(), Fault> {
        self.push(word)?;
        self.push_name(table, name)?;
        self.push(": interface {")
    }
}

impl<'d> Writer<'d> {
    /// Writes a world of that name.
    pub(crate) fn world(
        &mut self,
        name: &str,
        component: ComponentId,
        home: &Home,
    ) -> Result<(), Fault> {
        if self.table.component(component).is_none() {
            return Ok(());
        }
        self.line.world_head(name)?;
        self.open()?;
        self.world_items(component, home)?;
        self.close("}")
    }

    /// Writes what a world imports and exports.
    fn world_items(&mut self, component: ComponentId, home: &Home) -> Result<(), Fault> {
        let mut scope = Scope::new(self.alloc());
        self.items_in(&mut scope, component, home)
    }

    /// Writes what a world imports and exports, where that scope is still empty.
    fn items_in(
        &mut self,
        scope: &mut Scope,
        component: ComponentId,
        home: &Home,
    ) -> Result<(), Fault> {
        let table = self.table;
        let Some(found) = table.component(component) else {
            return Ok(());
        };
        let (instance, imports) = (found.instance, found.imports.len());
        scope.add_imports(table, component, imports)?;
        let names = scope.add_world_names(table, component, instance)?;
        self.imports(scope, home)?;
        self.exports(instance, names, scope, home)
    }

    /// Writes what a world imports: interfaces, then its types, then functions.
    fn imports(&mut self, scope: &mut Scope, home: &Home) -> Result<(), Fault> {
        self.imported_interfaces(scope, home)?;
        let members = scope.members(self.table, &mut self.line.steps)?;
        self.items("import ", scope, &members, home)
    }

    /// Writes the imports that are no types and no functions.
    fn imported_interfaces(&mut self, scope: &Scope, home: &Home) -> Result<(), Fault> {
        for place in 0..scope.entries.len() {
            self.import_at(scope, place, home)?;
        }
        Ok(())
    }

    /// Writes an import that is no type and no function.
    fn import_at(&mut self, scope: &Scope, place: usize, home: &Home) -> Result<(), Fault> {
        let Some((name, entry)) = scope.entry(place) else {
            return Ok(());
        };
        match entry.kind {
            Kind::Instance(instance) => self.interface_of("import ", name, instance, home),
            Kind::Other(kind) => self.refuse(name, Reason::Here(kind)),
            _ => Ok(()),
        }
    }

    /// Writes what a world exports.
    fn exports(
        &mut self,
        instance: InstanceId,
        names: usize,
        scope: &Scope,
        home: &Home,
    ) -> Result<(), Fault> {
        let table = self.table;
        let view = View {
            table,
            scope,
            names,
        };
        for place in 0..table.export_count(instance) {
            if let Some((name, item)) = table.export_at(instance, place) {
                self.export(name, item, view, home)?;
            }
        }
        Ok(())
    }

    fn export(
        &mut self,
        name: NameId,
        item: Item,
        view: View<'_>,
        home: &Home,
    ) -> Result<(), Fault> {
        match item {
            Item::Instance(instance) => self.interface_of("export ", name, instance, home),
            Item::Func(ty) => self.function("export ", name, ty, view),
            Item::Type(_) => self.refuse(name, Reason::Here("type")),
            Item::Module => self.refuse(name, Reason::Here("module")),
            Item::Component(_) | Item::Unevaluated(_) => {
                self.refuse(name, Reason::Here("component"))
            }
        }
    }

    /// Writes an instance that a world imports or exports: by its path, or with its items.
    fn interface_of(
        &mut self,
        word: &str,
        name: NameId,
        instance: InstanceId,
        home: &Home,
    ) -> Result<(), Fault> {
        if path_of(self.table.name(name)).is_none() {
            return self.inline_interface(word, name, instance, home);
        }
        let package = home.package.as_str();
        let written = self.line.named_interface(self.table, word, name, package);
        match self.settle(written, name) {
            Ok(_) => Ok(()),
            Err(fault) => Err(fault),
        }
    }

    /// Writes an instance with its items.
    fn inline_interface(
        &mut self,
        word: &str,
        name: NameId,
        instance: InstanceId,
        home: &Home,
    ) -> Result<(), Fault> {
        let head = self.line.inline_head(self.table, word, name);
        if !self.is_written(head, name)? {
            return Ok(());
        }
        self.open()?;
        self.inline_items(instance, home)?;
        self.close("};")
    }

    /// Writes the items of an instance.
    fn inline_items(&mut self, instance: InstanceId, home: &Home) -> Result<(), Fault> {
        let mut scope = Scope::new(self.alloc());
        match scope.add_exports(self.table, instance) {
            Ok(()) => self.body(&mut scope, home),
            Err(_) => Err(Fault::Memory),
        }
    }
}
