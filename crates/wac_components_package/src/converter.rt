//! The order in which things are converted: each after what it names.

use crate::conversion::ConversionError;
use indexmap::IndexMap;
use std::alloc::Global;
use wac_components_types::{
    ComponentId, InstanceId, Item, NameId, Owner, Parts, Table, TypeDef, TypeId,
};
use wac_graph_types::{InterfaceId, ItemKind, Type, Types, ValueType, WorldId};

/// What is to be converted. What is `Ready` has all that it names converted.
#[derive(Clone, Copy)]
pub(crate) enum Visit {
    Type(TypeId),
    ReadyType(TypeId),
    Instance(InstanceId),
    ReadyInstance(InstanceId),
    Component(ComponentId),
    ReadyComponent(ComponentId),
}

/// What is converted so far, by the numbers of the table, and what is left, the next at the end.
pub(crate) struct Converter<'t> {
    pub alloc: Global,
    pub table: &'t Table,
    pub types: Types,
    pub kinds: IndexMap<usize, ItemKind>,
    pub interfaces: IndexMap<usize, InterfaceId>,
    pub worlds: IndexMap<usize, WorldId>,
    /// The name of the type whose interface an instance is.
    pub names: IndexMap<usize, NameId>,
    pub visits: Vec<Visit>,
    pub modules: usize,
    /// How many bytes of names may still be copied.
    pub letters: u64,
}

impl<'t> Drop for Converter<'t> {
    fn drop(self) {
        let Converter {
            alloc: _,
            table: _,
            types: _,
            kinds: _,
            interfaces: _,
            worlds: _,
            names: _,
            visits: _,
            modules: _,
            letters: _,
        } = self;
    }
}

impl<'t> Converter<'t> {
    /// A converter of a table, which copies at most so many bytes of names.
    pub(crate) fn new(alloc: Global, table: &'t Table, letters: u64) -> Self {
        Converter {
            alloc,
            table,
            types: Types::new(alloc),
            kinds: IndexMap::new(alloc),
            interfaces: IndexMap::new(alloc),
            worlds: IndexMap::new(alloc),
            names: IndexMap::new(alloc),
            visits: Vec::new(alloc),
            modules: 0,
            letters,
        }
    }

    pub(crate) fn into_types(self) -> Types {
        let Converter {
            alloc: _,
            table: _,
            types,
            kinds: _,
            interfaces: _,
            worlds: _,
            names: _,
            visits: _,
            modules: _,
            letters: _,
        } = self;
        types
    }

    /// Converts a component with all that it names.
    pub(crate) fn convert(
        &mut self,
        component: ComponentId,
        steps: u64,
    ) -> Result<WorldId, ConversionError> {
        self.visits.push(Visit::Component(component))?;
        for _ in 0..steps {
            match self.visits.pop() {
                Some(visit) => self.visit(visit)?,
                None => {
                    return match self.worlds.get(&component.0) {
                        Some(world) => Ok(*world),
                        None => Err(ConversionError::Unsupported),
                    };
                }
            }
        }
        Err(ConversionError::TooLarge)
    }

    fn visit(&mut self, visit: Visit) -> Result<(), ConversionError> {
        match visit {
            Visit::Type(ty) => self.visit_type(ty),
            Visit::ReadyType(ty) => self.convert_type(ty),
            Visit::Instance(instance) => self.visit_instance(instance),
            Visit::ReadyInstance(instance) => self.convert_instance(instance),
            Visit::Component(component) => self.visit_component(component),
            Visit::ReadyComponent(component) => self.convert_component(component),
        }
    }

    fn visit_type(&mut self, ty: TypeId) -> Result<(), ConversionError> {
        if self.kinds.contains_key(&ty.0) {
            return Ok(());
        }
        self.visits.push(Visit::ReadyType(ty))?;
        let Some(entry) = self.table.ty(ty) else {
            return Err(ConversionError::Unsupported);
        };
        match entry.def {
            TypeDef::Record(parts) => self.visit_parts(parts),
            TypeDef::Variant(parts) => self.visit_parts(parts),
            TypeDef::Tuple(parts) => self.visit_parts(parts),
            TypeDef::Func(func) => {
                self.visit_optional(func.result)?;
                self.visit_parts(func.params)
            }
            TypeDef::Named(named) => match named.body {
                Some(Owner::Instance(instance)) => {
                    self.names.insert(instance.0, named.name)?;
                    self.visits.push(Visit::Instance(instance))?;
                    Ok(())
                }
                Some(Owner::Component(component)) => {
                    self.visits.push(Visit::Component(component))?;
                    Ok(())
                }
                None => self.visit_target(named.target),
            },
            other => self.visit_one(other),
        }
    }

    fn visit_one(&mut self, def: TypeDef) -> Result<(), ConversionError> {
        match def {
            TypeDef::List(ty) => self.visit_optional(Some(ty)),
            TypeDef::Option(ty) => self.visit_optional(Some(ty)),
            TypeDef::Own(ty) => self.visit_optional(Some(ty)),
            TypeDef::Borrow(ty) => self.visit_optional(Some(ty)),
            TypeDef::Stream(ty) => self.visit_optional(ty),
            TypeDef::Future(ty) => self.visit_optional(ty),
            TypeDef::Result(ok, err) => {
                self.visit_optional(ok)?;
                self.visit_optional(err)
            }
            _ => Ok(()),
        }
    }

    fn visit_optional(&mut self, ty: Option<TypeId>) -> Result<(), ConversionError> {
        if let Some(ty) = ty {
            self.visits.push(Visit::Type(ty))?;
        }
        Ok(())
    }

    /// What a type is another name of; a resource is converted with its first name.
    fn visit_target(&mut self, target: TypeId) -> Result<(), ConversionError> {
        match self.table.ty(target) {
            Some(entry) if entry.def != TypeDef::Resource => self.visit_optional(Some(target)),
            _ => Ok(()),
        }
    }

    fn visit_parts(&mut self, parts: Parts) -> Result<(), ConversionError> {
        for place in 0..parts.count {
            if let Some(part) = self.table.part(parts.first.saturating_add(place)) {
                self.visit_optional(part.ty)?;
            }
        }
        Ok(())
    }

    fn visit_item(&mut self, item: Item) -> Result<(), ConversionError> {
        match item {
            Item::Func(ty) => self.visits.push(Visit::Type(ty))?,
            Item::Type(ty) => self.visits.push(Visit::Type(ty))?,
            Item::Instance(instance) => self.visits.push(Visit::Instance(instance))?,
            Item::Component(component) => self.visits.push(Visit::Component(component))?,
            _ => {}
        }
        Ok(())
    }

    /// The exports of an instance, the first of which is visited first.
    fn visit_exports(&mut self, instance: InstanceId) -> Result<(), ConversionError> {
        let count = self.table.export_count(instance);
        for place in 0..count {
            let back = count.saturating_sub(place).saturating_sub(1);
            if let Some((_, item)) = self.table.export_at(instance, back) {
                self.visit_item(item)?;
            }
        }
        Ok(())
    }

    fn visit_instance(&mut self, instance: InstanceId) -> Result<(), ConversionError> {
        if self.interfaces.contains_key(&instance.0) {
            return Ok(());
        }
        self.visits.push(Visit::ReadyInstance(instance))?;
        self.visit_exports(instance)
    }

    fn visit_component(&mut self, component: ComponentId) -> Result<(), ConversionError> {
        if self.worlds.contains_key(&component.0) {
            return Ok(());
        }
        self.visits.push(Visit::ReadyComponent(component))?;
        let Some(found) = self.table.component(component) else {
            return Err(ConversionError::Unsupported);
        };
        let instance = found.instance;
        let count = found.imports.len();
        self.visit_exports(instance)?;
        for place in 0..count {
            let back = count.saturating_sub(place).saturating_sub(1);
            if let Some((_, item)) = self.table.import_at(component, back) {
                self.visit_item(item)?;
            }
        }
        Ok(())
    }

    /// The kind of a converted type.
    pub(crate) fn kind(&self, ty: TypeId) -> Option<ItemKind> {
        self.kinds.get(&ty.0).copied()
    }

    /// A converted type of values.
    pub(crate) fn value(&self, ty: TypeId) -> Result<ValueType, ConversionError> {
        match self.kind(ty) {
            Some(ItemKind::Ty(Type::Value(value))) => Ok(value),
            _ => Err(ConversionError::Unsupported),
        }
    }

    /// The kind of an interface as a type.
    pub(crate) fn interface_type(&self, instance: InstanceId) -> Option<ItemKind> {
        match self.interfaces.get(&instance.0) {
            Some(id) => Some(ItemKind::Ty(Type::Interface(*id))),
            None => None,
        }
    }

    /// The kind of a world as a type.
    pub(crate) fn world_type(&self, component: ComponentId) -> Option<ItemKind> {
        match self.worlds.get(&component.0) {
            Some(id) => Some(ItemKind::Ty(Type::World(*id))),
            None => None,
        }
    }

    /// The text of a name, copied, if it may be.
    pub(crate) fn text(&mut self, name: NameId) -> Result<String, ConversionError> {
        let text = self.table.name(name);
        let length = text.len() as u64;
        if self.letters < length {
            return Err(ConversionError::TooLarge);
        }
        self.letters -= length;
        Ok(String::from_str(self.alloc, text)?)
    }
}
