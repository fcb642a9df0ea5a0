//! Prints what is decoded.

use crate::words::{primitive_name, quoted, side};
use indexmap::IndexSet;
use std::alloc::{AllocError, AllocFailed, Global};
use std::fmt;
use wac_components::Decoded;
use wac_components_types::{
    ComponentId, Func, InstanceId, Item, NameId, Named, Names, Origin, Owner, Part, Parts,
    Reference, Table, TypeDef, TypeId, origin_of, reference_of,
};

/// Why no JSON is made.
#[derive(Clone, Copy, Debug, PartialEq, Eq)]
pub enum JsonError {
    /// There is more to print than the limit of steps allows.
    TooLarge,
    /// Memory ran out.
    Memory,
}

impl fmt::Display for JsonError {
    fn fmt<W: fmt::Write>(&self, f: &mut fmt::Formatter<W>) -> fmt::Result {
        match self {
            JsonError::TooLarge => f.write_str("too much to print"),
            JsonError::Memory => f.write_str("out of memory"),
        }
    }
}

impl std::error::Error for JsonError {}

impl From<AllocError> for JsonError {
    fn from(_refused: AllocError) -> JsonError {
        JsonError::Memory
    }
}

impl<T: Drop> From<AllocFailed<T>> for JsonError {
    fn from(_refused: AllocFailed<T>) -> JsonError {
        JsonError::Memory
    }
}

/// How parts are printed.
#[derive(Clone, Copy)]
enum Style {
    /// A name and a type each, as a list of two.
    Pairs,
    Names,
    Types,
}

/// What is to be printed.
#[derive(Clone, Copy)]
enum Task {
    Text(&'static str),
    Name(NameId),
    Number(u32),
    /// A type in use, in the scope of that number.
    Type(Option<TypeId>, usize),
    Structure(TypeId, usize),
    /// The parts from that place on.
    Parts(Parts, usize, Style, usize),
    /// The exports of an instance from that place on.
    Exports(InstanceId, usize, usize),
    /// The imports of a component from that place on.
    Imports(ComponentId, usize, usize),
    Instance(InstanceId),
    Component(ComponentId),
    Func(TypeId, usize),
    /// The definition from that place on.
    Definitions(usize),
}

/// What is printed so far, and what is left, the next at the end.
struct Printer<'d> {
    alloc: Global,
    table: &'d Table,
    text: String,
    tasks: Vec<Task>,
    scopes: Vec<Names>,
    resources: IndexSet<usize>,
}

impl<'d> Drop for Printer<'d> {
    fn drop(self) {
        let Printer {
            alloc: _,
            table: _,
            text: _,
            tasks: _,
            scopes: _,
            resources: _,
        } = self;
    }
}

/// What is decoded as one line of JSON, without blanks, printed in at most so many steps.
///
/// ```text
/// let text = to_json(alloc, &decoded, 10_000_000)?;   // {"imports":[],"exports":[]}
/// ```
pub fn to_json(alloc: Global, decoded: &Decoded, steps: u64) -> Result<String, JsonError> {
    let mut printer = Printer {
        alloc,
        table: &decoded.table,
        text: String::new(alloc),
        tasks: Vec::new(alloc),
        scopes: Vec::new(alloc),
        resources: IndexSet::new(alloc),
    };
    if decoded.definitions.is_empty() {
        printer.tasks.push(Task::Component(decoded.component))?;
    } else {
        printer.tasks.push(Task::Definitions(0))?;
        printer.text.push_str("{\"definitions\":[")?;
    }
    printer.run(decoded, steps)?;
    Ok(printer.into_text())
}

impl<'d> Printer<'d> {
    fn into_text(self) -> String {
        let Printer {
            alloc: _,
            table: _,
            text,
            tasks: _,
            scopes: _,
            resources: _,
        } = self;
        text
    }

    fn run(&mut self, decoded: &Decoded, steps: u64) -> Result<(), JsonError> {
        for _ in 0..steps {
            match self.tasks.pop() {
                None => return Ok(()),
                Some(Task::Definitions(place)) => self.definition(decoded, place)?,
                Some(task) => self.step(task)?,
            }
        }
        Err(JsonError::TooLarge)
    }

    fn step(&mut self, task: Task) -> Result<(), JsonError> {
        match task {
            Task::Text(text) => self.write(text),
            Task::Name(name) => self.name(name),
            Task::Number(number) => self.number(number as usize),
            Task::Type(ty, scope) => self.type_in_use(ty, scope),
            Task::Structure(ty, scope) => self.structure(ty, scope),
            Task::Parts(parts, place, style, scope) => self.parts(parts, place, style, scope),
            other => self.step_of_items(other),
        }
    }

    fn step_of_items(&mut self, task: Task) -> Result<(), JsonError> {
        match task {
            Task::Exports(instance, place, scope) => self.exports(instance, place, scope),
            Task::Imports(component, place, scope) => self.imports(component, place, scope),
            Task::Instance(instance) => self.instance(instance),
            Task::Component(component) => self.component(component),
            Task::Func(ty, scope) => self.func_of(ty, scope),
            _ => Ok(()),
        }
    }

    fn write(&mut self, text: &str) -> Result<(), JsonError> {
        self.text.push_str(text)?;
        Ok(())
    }

    fn number(&mut self, number: usize) -> Result<(), JsonError> {
        let text = number.to_string(self.alloc)?;
        self.text.push_str(text.as_str())?;
        Ok(())
    }

    /// A name as a JSON string.
    fn name(&mut self, name: NameId) -> Result<(), JsonError> {
        let text = quoted(self.alloc, self.table.name(name))?;
        self.write(text.as_str())
    }

    /// Prints a text now, and these tasks next, in order.
    fn text_then(&mut self, text: &str, tasks: &[Task]) -> Result<(), JsonError> {
        self.text.push_str(text)?;
        for task in tasks.iter().rev() {
            self.tasks.push(*task)?;
        }
        Ok(())
    }

    /// The number of a resource, which is new where it wasn't printed before.
    fn resource(&mut self, ty: TypeId) -> Result<(), JsonError> {
        let (number, _) = self.resources.insert_full(ty.0)?;
        self.write("\"resource\":")?;
        self.number(number)
    }

    fn name_in(&self, ty: TypeId, scope: usize) -> Option<NameId> {
        match self.scopes.get(scope) {
            Some(names) => names.of(self.table, ty),
            None => None,
        }
    }

    /// A type in use: its name here, its name elsewhere, else its structure.
    fn type_in_use(&mut self, ty: Option<TypeId>, scope: usize) -> Result<(), JsonError> {
        let Some(ty) = ty else {
            return self.write("null");
        };
        if let Some(TypeDef::Primitive(primitive)) = self.def(ty) {
            return self.write(primitive_name(primitive));
        }
        if let Some(name) = self.name_in(ty, scope) {
            return self.text_then("{\"named\":", &[Task::Name(name), Task::Text("}")]);
        }
        if let Some(far) = origin_of(self.table, ty, None) {
            return self.far_name(far);
        }
        let base = self.table.base(ty);
        if self.table.base_def(ty) == Some(TypeDef::Resource) {
            self.write("{")?;
            self.resource(base)?;
            return self.write("}");
        }
        self.structure(base, scope)
    }

    fn far_name(&mut self, far: Origin) -> Result<(), JsonError> {
        self.text_then(
            "{\"named\":",
            &[
                Task::Name(far.name),
                Task::Text(",\"in\":"),
                Task::Name(far.interface),
                Task::Text(",\"of\":"),
                Task::Text(side(far.kind)),
                Task::Text("}"),
            ],
        )
    }

    fn def(&self, ty: TypeId) -> Option<TypeDef> {
        match self.table.ty(ty) {
            Some(entry) => Some(entry.def),
            None => None,
        }
    }

    /// One type after a word.
    fn wrapped(&mut self, text: &str, ty: Option<TypeId>, scope: usize) -> Result<(), JsonError> {
        self.text_then(text, &[Task::Type(ty, scope), Task::Text("}")])
    }

    /// Parts after a word.
    fn listed(
        &mut self,
        text: &str,
        parts: Parts,
        style: Style,
        scope: usize,
    ) -> Result<(), JsonError> {
        self.text_then(
            text,
            &[Task::Parts(parts, 0, style, scope), Task::Text("}")],
        )
    }

    /// A type by its structure.
    fn structure(&mut self, ty: TypeId, scope: usize) -> Result<(), JsonError> {
        let Some(def) = self.def(ty) else {
            return self.write("null");
        };
        match def {
            TypeDef::Primitive(primitive) => self.write(primitive_name(primitive)),
            TypeDef::Record(parts) => self.listed("{\"record\":", parts, Style::Pairs, scope),
            TypeDef::Variant(parts) => self.listed("{\"variant\":", parts, Style::Pairs, scope),
            TypeDef::Flags(parts) => self.listed("{\"flags\":", parts, Style::Names, scope),
            TypeDef::Enum(parts) => self.listed("{\"enum\":", parts, Style::Names, scope),
            TypeDef::Tuple(parts) => self.listed("{\"tuple\":", parts, Style::Types, scope),
            other => self.structure_of_one(other, scope),
        }
    }

    fn structure_of_one(&mut self, def: TypeDef, scope: usize) -> Result<(), JsonError> {
        match def {
            TypeDef::List(ty) => self.wrapped("{\"list\":", Some(ty), scope),
            TypeDef::Option(ty) => self.wrapped("{\"option\":", Some(ty), scope),
            TypeDef::Stream(ty) => self.wrapped("{\"stream\":", ty, scope),
            TypeDef::Future(ty) => self.wrapped("{\"future\":", ty, scope),
            TypeDef::Own(ty) => self.wrapped("{\"own\":", Some(ty), scope),
            TypeDef::Borrow(ty) => self.wrapped("{\"borrow\":", Some(ty), scope),
            other => self.structure_of_two(other, scope),
        }
    }

    fn structure_of_two(&mut self, def: TypeDef, scope: usize) -> Result<(), JsonError> {
        match def {
            TypeDef::Result(ok, err) => self.text_then(
                "{\"result\":{\"ok\":",
                &[
                    Task::Type(ok, scope),
                    Task::Text(",\"err\":"),
                    Task::Type(err, scope),
                    Task::Text("}}"),
                ],
            ),
            TypeDef::FixedList(ty, length) => self.text_then(
                "{\"fixed-list\":[",
                &[
                    Task::Type(Some(ty), scope),
                    Task::Text(","),
                    Task::Number(length),
                    Task::Text("]}"),
                ],
            ),
            TypeDef::Map(key, value) => self.text_then(
                "{\"map\":[",
                &[
                    Task::Type(Some(key), scope),
                    Task::Text(","),
                    Task::Type(Some(value), scope),
                    Task::Text("]}"),
                ],
            ),
            _ => self.write("null"),
        }
    }

    /// The parts from a place on.
    fn parts(
        &mut self,
        parts: Parts,
        place: usize,
        style: Style,
        scope: usize,
    ) -> Result<(), JsonError> {
        self.write(if place == 0 { "[" } else { "" })?;
        if place >= parts.count {
            return self.write("]");
        }
        self.write(if place == 0 { "" } else { "," })?;
        let next = Task::Parts(parts, place.saturating_add(1), style, scope);
        match self.table.part(parts.first.saturating_add(place)) {
            Some(part) => self.part(part, style, scope, next),
            None => self.write("]"),
        }
    }

    fn part(
        &mut self,
        part: Part,
        style: Style,
        scope: usize,
        next: Task,
    ) -> Result<(), JsonError> {
        let name = match part.name {
            Some(name) => Task::Name(name),
            None => Task::Text("null"),
        };
        let ty = Task::Type(part.ty, scope);
        match style {
            Style::Names => self.text_then("", &[name, next]),
            Style::Types => self.text_then("", &[ty, next]),
            Style::Pairs => {
                self.text_then("[", &[name, Task::Text(","), ty, Task::Text("]"), next])
            }
        }
    }

    fn func_of(&mut self, ty: TypeId, scope: usize) -> Result<(), JsonError> {
        match self.table.base_def(ty) {
            Some(TypeDef::Func(func)) => self.func(func, scope),
            _ => self.write("null"),
        }
    }

    fn func(&mut self, func: Func, scope: usize) -> Result<(), JsonError> {
        let end = if func.is_async {
            ",\"async\":true}"
        } else {
            "}"
        };
        self.text_then(
            "{\"params\":",
            &[
                Task::Parts(func.params, 0, Style::Pairs, scope),
                Task::Text(",\"result\":"),
                Task::Type(func.result, scope),
                Task::Text(end),
            ],
        )
    }

    fn exports(
        &mut self,
        instance: InstanceId,
        place: usize,
        scope: usize,
    ) -> Result<(), JsonError> {
        self.write(if place == 0 { "[" } else { "" })?;
        let Some((name, item)) = self.table.export_at(instance, place) else {
            return self.write("]");
        };
        self.write(if place == 0 { "" } else { "," })?;
        self.tasks
            .push(Task::Exports(instance, place.saturating_add(1), scope))?;
        self.item(name, item, Owner::Instance(instance), scope)
    }

    fn imports(
        &mut self,
        component: ComponentId,
        place: usize,
        scope: usize,
    ) -> Result<(), JsonError> {
        self.write(if place == 0 { "[" } else { "" })?;
        let Some((name, item)) = self.table.import_at(component, place) else {
            return self.write("]");
        };
        self.write(if place == 0 { "" } else { "," })?;
        self.tasks
            .push(Task::Imports(component, place.saturating_add(1), scope))?;
        self.item(name, item, Owner::Component(component), scope)
    }

    /// An import or an export. What is left of it is printed next.
    fn item(
        &mut self,
        name: NameId,
        item: Item,
        owner: Owner,
        scope: usize,
    ) -> Result<(), JsonError> {
        self.write("{\"name\":")?;
        self.name(name)?;
        match item {
            Item::Func(ty) => {
                self.text_then(",\"func\":", &[Task::Func(ty, scope), Task::Text("}")])
            }
            Item::Instance(instance) => self.text_then(
                ",\"instance\":",
                &[Task::Instance(instance), Task::Text("}")],
            ),
            Item::Component(component) => self.text_then(
                ",\"component\":",
                &[Task::Component(component), Task::Text("}")],
            ),
            Item::Type(ty) => {
                self.text_then(",\"type\":", &[Task::Text("}")])?;
                self.type_item(ty, owner, scope)
            }
            _ => self.write(",\"module\":null}"),
        }
    }

    /// A type as an item.
    fn type_item(&mut self, ty: TypeId, owner: Owner, scope: usize) -> Result<(), JsonError> {
        let named = match self.def(ty) {
            Some(TypeDef::Named(named)) => Some(named),
            _ => None,
        };
        match self.table.base_def(ty) {
            Some(TypeDef::Resource) => {
                let before = self.reference(ty, owner, scope)?;
                self.write(if before { "," } else { "{" })?;
                self.resource(self.table.base(ty))?;
                self.write("}")
            }
            Some(TypeDef::Func(func)) => {
                self.text_then("{\"func\":", &[Task::Text("}")])?;
                self.func(func, scope)
            }
            Some(TypeDef::Body(_, _)) => self.body(named),
            _ => {
                if self.reference(ty, owner, scope)? {
                    self.write("}")
                } else {
                    self.structure(self.table.base(ty), scope)
                }
            }
        }
    }

    fn body(&mut self, named: Option<Named>) -> Result<(), JsonError> {
        let body = match named {
            Some(named) => named.body,
            None => None,
        };
        match body {
            Some(Owner::Instance(instance)) => self.text_then(
                "{\"instance\":",
                &[Task::Instance(instance), Task::Text("}")],
            ),
            Some(Owner::Component(component)) => self.text_then(
                "{\"component\":",
                &[Task::Component(component), Task::Text("}")],
            ),
            None => self.write("null"),
        }
    }

    fn reference_of(&self, ty: TypeId, owner: Owner, scope: usize) -> Option<Reference> {
        let names = self.scopes.get(scope)?;
        reference_of(self.table, names, ty, owner)
    }

    /// The beginning of a type that is another one's name, without its end. Whether it is one.
    fn reference(&mut self, ty: TypeId, owner: Owner, scope: usize) -> Result<bool, JsonError> {
        match self.reference_of(ty, owner, scope) {
            Some(Reference::Named(name)) => {
                self.write("{\"named\":")?;
                self.name(name)?;
                Ok(true)
            }
            Some(Reference::Used(far)) => {
                self.used(far)?;
                Ok(true)
            }
            None => Ok(false),
        }
    }

    fn used(&mut self, far: Origin) -> Result<(), JsonError> {
        self.write("{\"use\":{\"interface\":")?;
        self.name(far.interface)?;
        self.write(",\"name\":")?;
        self.name(far.name)?;
        self.write(",\"of\":")?;
        self.write(side(far.kind))?;
        self.write("}")
    }

    fn instance(&mut self, instance: InstanceId) -> Result<(), JsonError> {
        let scope = self.scopes.len();
        let mut names = Names::new(self.alloc);
        names.add_exports(self.table, instance)?;
        self.scopes.push(names)?;
        self.tasks.push(Task::Exports(instance, 0, scope))?;
        Ok(())
    }

    /// A world. Its exports call types by the names of its imports too.
    fn component(&mut self, component: ComponentId) -> Result<(), JsonError> {
        let Some(found) = self.table.component(component) else {
            return self.write("null");
        };
        let instance = found.instance;
        let scope = self.scopes.len();
        let mut imports = Names::new(self.alloc);
        imports.add_imports(self.table, component)?;
        self.scopes.push(imports)?;
        let mut all = Names::new(self.alloc);
        all.add_exports(self.table, instance)?;
        all.add_imports(self.table, component)?;
        self.scopes.push(all)?;
        self.text_then(
            "{\"imports\":",
            &[
                Task::Imports(component, 0, scope),
                Task::Text(",\"exports\":"),
                Task::Exports(instance, 0, scope.saturating_add(1)),
                Task::Text("}"),
            ],
        )
    }

    /// The definition at a place, and those after it.
    fn definition(&mut self, decoded: &Decoded, place: usize) -> Result<(), JsonError> {
        let Some(found) = decoded.definitions.get(place).copied() else {
            return self.write("]}");
        };
        self.write(if place == 0 {
            "{\"name\":"
        } else {
            ",{\"name\":"
        })?;
        self.name(found.name)?;
        self.write(",\"path\":")?;
        self.name(found.path)?;
        self.tasks.push(Task::Definitions(place.saturating_add(1)))?;
        match found.item {
            Item::Instance(instance) => self.text_then(
                ",\"interface\":",
                &[Task::Instance(instance), Task::Text("}")],
            ),
            Item::Component(component) => self.text_then(
                ",\"world\":",
                &[Task::Component(component), Task::Text("}")],
            ),
            _ => self.write("}"),
        }
    }
}
