//! Interfaces and worlds.

use crate::conversion::ConversionError;
use crate::converter::Converter;
use indexmap::IndexMap;
use std::alloc::Global;
use wac_components_types::{ComponentId, InstanceId, Item, NameId, Owner, TypeDef, TypeId};
use wac_graph_types::{Interface, ItemKind, ModuleTypeId, Type, UsedType, World};

/// The items of an interface or a world, and the types that it has from other interfaces.
#[derive(Drop)]
struct Items {
    all: IndexMap<String, ItemKind>,
    uses: IndexMap<String, UsedType>,
}

impl Items {
    fn new(alloc: Global) -> Self {
        Items {
            all: IndexMap::new(alloc),
            uses: IndexMap::new(alloc),
        }
    }
}

impl<'t> Converter<'t> {
    /// The kind of an item, all of which is converted.
    fn item_kind(&mut self, item: Item) -> Result<ItemKind, ConversionError> {
        let kind = match item {
            Item::Func(ty) => match self.kind(ty) {
                Some(ItemKind::Ty(Type::Func(id))) => Some(ItemKind::Func(id)),
                _ => None,
            },
            Item::Type(ty) => self.kind(ty),
            Item::Instance(instance) => match self.interfaces.get(&instance.0) {
                Some(id) => Some(ItemKind::Instance(*id)),
                None => None,
            },
            Item::Component(component) => match self.worlds.get(&component.0) {
                Some(id) => Some(ItemKind::Component(*id)),
                None => None,
            },
            Item::Module => {
                self.modules = self.modules.saturating_add(1);
                Some(ItemKind::Module(ModuleTypeId(self.modules)))
            }
            Item::Unevaluated(_) => None,
        };
        match kind {
            Some(kind) => Ok(kind),
            None => Err(ConversionError::Unsupported),
        }
    }

    /// Adds a type that an interface or a world has from another interface.
    fn add_use(
        &mut self,
        uses: &mut IndexMap<String, UsedType>,
        name: NameId,
        ty: TypeId,
        owner: Owner,
    ) -> Result<(), ConversionError> {
        let Some((interface, source)) = self.origin(ty, owner) else {
            return Ok(());
        };
        let Some(entry) = self.table.ty(source) else {
            return Ok(());
        };
        let TypeDef::Named(named) = entry.def else {
            return Ok(());
        };
        let other_name = if named.name == name {
            None
        } else {
            Some(self.text(named.name)?)
        };
        let key = self.text(name)?;
        uses.insert(
            key,
            UsedType {
                interface,
                name: other_name,
            },
        )?;
        Ok(())
    }

    /// Adds the kind of an item under its name.
    fn add_kind(
        &mut self,
        all: &mut IndexMap<String, ItemKind>,
        name: NameId,
        item: Item,
    ) -> Result<(), ConversionError> {
        let kind = self.item_kind(item)?;
        let name = self.text(name)?;
        all.insert(name, kind)?;
        Ok(())
    }

    /// Adds an item of an interface or a world, and the type that it is, where it is one of another interface.
    fn add_item(
        &mut self,
        items: &mut Items,
        owner: Owner,
        name: NameId,
        item: Item,
    ) -> Result<(), ConversionError> {
        self.add_kind(&mut items.all, name, item)?;
        match item {
            Item::Type(ty) => self.add_use(&mut items.uses, name, ty, owner),
            _ => Ok(()),
        }
    }

    /// What an instance exports.
    fn exported_items(&mut self, instance: InstanceId) -> Result<Items, ConversionError> {
        let mut items = Items::new(self.alloc);
        for place in 0..self.table.export_count(instance) {
            if let Some((name, item)) = self.table.export_at(instance, place) {
                self.add_item(&mut items, Owner::Instance(instance), name, item)?;
            }
        }
        Ok(items)
    }

    /// What a component imports, of which there are `count`.
    fn imported_items(
        &mut self,
        component: ComponentId,
        count: usize,
    ) -> Result<Items, ConversionError> {
        let mut items = Items::new(self.alloc);
        for place in 0..count {
            if let Some((name, item)) = self.table.import_at(component, place) {
                self.add_item(&mut items, Owner::Component(component), name, item)?;
            }
        }
        Ok(items)
    }

    /// Converts an instance, all of whose exports are converted.
    pub(crate) fn convert_instance(&mut self, instance: InstanceId) -> Result<(), ConversionError> {
        if self.interfaces.contains_key(&instance.0) {
            return Ok(());
        }
        match self.interface(instance) {
            Ok(interface) => self.add_interface(instance, interface),
            Err(error) => Err(error),
        }
    }

    /// The interface that an instance is.
    fn interface(&mut self, instance: InstanceId) -> Result<Interface, ConversionError> {
        let id = self.id_of(instance)?;
        let Items { all, uses } = self.exported_items(instance)?;
        Ok(Interface {
            id,
            uses,
            exports: all,
        })
    }

    /// Adds the interface of an instance.
    fn add_interface(
        &mut self,
        instance: InstanceId,
        interface: Interface,
    ) -> Result<(), ConversionError> {
        let id = self.types.add_interface(interface)?;
        self.interfaces.insert(instance.0, id)?;
        Ok(())
    }

    /// The name of an interface: that of the type whose it is, or the one under which a world has it, where that is a
    /// path.
    fn id_of(&mut self, instance: InstanceId) -> Result<Option<String>, ConversionError> {
        let found = match self.table.instance(instance) {
            Some(found) => found.name,
            None => None,
        };
        match found {
            Some((_, name)) if self.table.name(name).contains('/') => Ok(Some(self.text(name)?)),
            _ => match self.names.get(&instance.0).copied() {
                Some(name) => Ok(Some(self.text(name)?)),
                None => Ok(None),
            },
        }
    }

    /// Converts a component, all of whose imports and exports are converted.
    pub(crate) fn convert_component(
        &mut self,
        component: ComponentId,
    ) -> Result<(), ConversionError> {
        if self.worlds.contains_key(&component.0) {
            return Ok(());
        }
        let Some(found) = self.table.component(component) else {
            return Err(ConversionError::Unsupported);
        };
        let instance = found.instance;
        let count = found.imports.len();
        match self.imported_items(component, count) {
            Ok(imports) => self.add_world(component, instance, imports),
            Err(error) => Err(error),
        }
    }

    /// Adds the world of a component, which imports these items and exports what its instance does.
    fn add_world(
        &mut self,
        component: ComponentId,
        instance: InstanceId,
        imports: Items,
    ) -> Result<(), ConversionError> {
        let exports = self.exports(instance)?;
        let Items { all, uses } = imports;
        let id = self.types.add_world(World {
            id: None,
            uses,
            imports: all,
            exports,
        })?;
        self.worlds.insert(component.0, id)?;
        Ok(())
    }

    /// What an instance exports, without the types that it has from other interfaces.
    fn exports(
        &mut self,
        instance: InstanceId,
    ) -> Result<IndexMap<String, ItemKind>, ConversionError> {
        let mut all = IndexMap::new(self.alloc);
        for place in 0..self.table.export_count(instance) {
            if let Some((name, item)) = self.table.export_at(instance, place) {
                self.add_kind(&mut all, name, item)?;
            }
        }
        Ok(all)
    }
}
