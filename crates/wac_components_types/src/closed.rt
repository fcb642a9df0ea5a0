//! Whether each number in a table names an entry of it.
ghost use Rattle.std.specs.Prelude.{◌≡◌};
ghost use Rattle.std.specs.List.{list_all};
ghost use Rattle.indexmap.specs.IndexMap.{keys, values};
ghost use Rattle.wac_components_types.specs.Closed as closed;

use crate::item::{Item, NameId, TypeId};
use crate::table::{Component, Instance};
use crate::ty::{Func, Named, Owner, Part, Parts, TypeDef, TypeEntry};
use indexmap::IndexMap;
use wac_graph_types::ExternKind;

/// How many names, types, parts, instances and components a table has.
#[derive(Clone, Copy, Debug, PartialEq, Eq)]
pub struct Counts {
    pub names: usize,
    pub types: usize,
    pub parts: usize,
    pub instances: usize,
    pub components: usize,
}

impl Counts {
    /// Whether a number names a name.
    pub fn has_name(self, name: NameId) -> bool
        ensures { result ≡ closed.has_name self name }
    {
        name.0 < self.names
    }

    fn has_type(self, ty: TypeId) -> bool
        ensures { result ≡ closed.has_type self ty }
    {
        ty.0 < self.types
    }

    fn has_type_if_any(self, ty: Option<TypeId>) -> bool
        ensures { result ≡ closed.has_type_if_any self ty }
    {
        match ty {
            None => true,
            Some(ty) => self.has_type(ty),
        }
    }

    fn has_name_if_any(self, name: Option<NameId>) -> bool
        ensures { result ≡ closed.has_name_if_any self name }
    {
        match name {
            None => true,
            Some(name) => self.has_name(name),
        }
    }

    fn has_part(self, part: Part) -> bool
        ensures { result ≡ closed.has_part self part }
    {
        self.has_name_if_any(part.name) && self.has_type_if_any(part.ty)
    }

    fn has_parts(self, parts: Parts) -> bool
        ensures { result ≡ closed.has_parts self parts }
    {
        parts.first <= self.parts && parts.count <= self.parts - parts.first
    }

    fn has_owner(self, owner: Owner) -> bool
        ensures { result ≡ closed.has_owner self owner }
    {
        match owner {
            Owner::Instance(instance) => instance.0 < self.instances,
            Owner::Component(component) => component.0 < self.components,
        }
    }

    fn has_owner_if_any(self, owner: Option<Owner>) -> bool
        ensures { result ≡ closed.has_owner_if_any self owner }
    {
        match owner {
            None => true,
            Some(owner) => self.has_owner(owner),
        }
    }

    fn has_named(self, named: Named) -> bool
        ensures { result ≡ closed.has_named self named }
    {
        (self.has_name(named.name) && self.has_owner(named.owner))
            && (self.has_type(named.target) && self.has_owner_if_any(named.body))
    }

    fn has_func(self, func: Func) -> bool
        ensures { result ≡ closed.has_func self func }
    {
        self.has_parts(func.params) && self.has_type_if_any(func.result)
    }

    /// Whether what a type is made of is there.
    fn has_def(self, def: TypeDef) -> bool
        ensures { result ≡ closed.has_def self def }
    {
        match def {
            TypeDef::Primitive(_) => true,
            TypeDef::Resource => true,
            TypeDef::Named(named) => self.has_named(named),
            TypeDef::Record(parts) => self.has_parts(parts),
            TypeDef::Variant(parts) => self.has_parts(parts),
            TypeDef::Tuple(parts) => self.has_parts(parts),
            TypeDef::Flags(parts) => self.has_parts(parts),
            TypeDef::Enum(parts) => self.has_parts(parts),
            TypeDef::List(ty) => self.has_type(ty),
            TypeDef::FixedList(ty, _) => self.has_type(ty),
            TypeDef::Map(key, value) => self.has_type(key) && self.has_type(value),
            TypeDef::Option(ty) => self.has_type(ty),
            TypeDef::Result(ok, err) => self.has_type_if_any(ok) && self.has_type_if_any(err),
            TypeDef::Own(ty) => self.has_type(ty),
            TypeDef::Borrow(ty) => self.has_type(ty),
            TypeDef::Stream(ty) => self.has_type_if_any(ty),
            TypeDef::Future(ty) => self.has_type_if_any(ty),
            TypeDef::Func(func) => self.has_func(func),
            TypeDef::Body(_, _) => true,
        }
    }

    fn has_entry(self, entry: TypeEntry) -> bool
        ensures { result ≡ closed.has_entry self entry }
    {
        self.has_def(entry.def) && self.has_type(entry.base)
    }

    /// Whether an item names an entry, if it names one: a module has none, and a component that isn't evaluated is named
    /// by its body.
    pub fn has_item(self, item: Item) -> bool
        ensures { result ≡ closed.has_item self item }
    {
        match item {
            Item::Module => true,
            Item::Func(ty) => self.has_type(ty),
            Item::Type(ty) => self.has_type(ty),
            Item::Instance(instance) => instance.0 < self.instances,
            Item::Component(component) => component.0 < self.components,
            Item::Unevaluated(_) => true,
        }
    }

    fn has_mark(self, mark: Option<(ExternKind, NameId)>) -> bool
        ensures { result ≡ closed.has_mark self mark }
    {
        match mark {
            None => true,
            Some((_, name)) => self.has_name(name),
        }
    }

    fn has_names_of(self, items: &IndexMap<NameId, Item>) -> bool
        ensures { result ≡ list_all (closed.has_name self) (keys items.now) }
    {
        items.keys().all(|name| self.has_name(*name))
    }

    fn has_values_of(self, items: &IndexMap<NameId, Item>) -> bool
        ensures { result ≡ list_all (closed.has_item self) (values items.now) }
    {
        items.values().all(|item| self.has_item(*item))
    }

    fn has_items(self, items: &IndexMap<NameId, Item>) -> bool
        ensures { result ≡ closed.has_items self items.now }
    {
        self.has_names_of(items) && self.has_values_of(items)
    }

    fn has_instance(self, instance: &Instance) -> bool
        ensures { result ≡ closed.has_instance self instance.now }
    {
        self.has_mark(instance.name) && self.has_items(&instance.exports)
    }

    fn has_component(self, component: &Component) -> bool
        ensures { result ≡ closed.has_component self component.now }
    {
        component.instance.0 < self.instances && self.has_items(&component.imports)
    }

    pub(crate) fn has_entries(self, entries: &[TypeEntry]) -> bool
        ensures { result ≡ list_all (closed.has_entry self) entries.now }
    {
        entries.iter().all(|entry| self.has_entry(*entry))
    }

    pub(crate) fn has_each_part(self, parts: &[Part]) -> bool
        ensures { result ≡ list_all (closed.has_part self) parts.now }
    {
        parts.iter().all(|part| self.has_part(*part))
    }

    pub(crate) fn has_instances(self, instances: &[Instance]) -> bool
        ensures { result ≡ list_all (closed.has_instance self) instances.now }
    {
        instances.iter().all(|instance| self.has_instance(instance))
    }

    pub(crate) fn has_components(self, components: &[Component]) -> bool
        ensures { result ≡ list_all (closed.has_component self) components.now }
    {
        components
            .iter()
            .all(|component| self.has_component(component))
    }
}
