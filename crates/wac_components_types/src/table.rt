//! The table of all that a component is decoded to.
ghost use Rattle.std.specs.Prelude.{◌≡◌};

use crate::closed::Counts;
use crate::item::{ComponentId, InstanceId, Item, NameId, TypeId};
use crate::ty::{Func, Named, Owner, PRIMITIVES, Part, Parts, TypeDef, TypeEntry, TypeSort};
use indexmap::{IndexMap, IndexSet};
use std::alloc::{AllocError, Global};
use std::marker::Model;
use wac_graph_types::ExternKind;

/// An instance: what it exports, by name and in order.
pub struct Instance {
    pub exports: IndexMap<NameId, Item>,
    /// The name under which a world imports or exports it first.
    pub name: Option<(ExternKind, NameId)>,
    pub size: u64,
    pub depth: u64,
}

/// A component: what it imports, and what its instances export.
pub struct Component {
    pub imports: IndexMap<NameId, Item>,
    pub instance: InstanceId,
    /// The number of the body of which it was evaluated.
    pub body: usize,
    pub size: u64,
    pub depth: u64,
}

// Each `Drop` is written out, so that a crate above need not prove how the parts are dropped.
impl Drop for Instance {
    fn drop(self) {
        let Instance {
            exports: _,
            name: _,
            size: _,
            depth: _,
        } = self;
    }
}

impl Drop for Component {
    fn drop(self) {
        let Component {
            imports: _,
            instance: _,
            body: _,
            size: _,
            depth: _,
        } = self;
    }
}

/// Types, instances and components, which name each other by their numbers. Each text of a name is held once.
pub struct Table {
    names: IndexSet<String>,
    types: Vec<TypeEntry>,
    parts: Vec<Part>,
    instances: Vec<Instance>,
    components: Vec<Component>,
}

impl Model for Table {
    ghost use Rattle.indexmap.specs.IndexSet.{index_set_len as count};
    ghost use Rattle.wac_components_types.specs.Closed.{TableView, viewed};

    ghost Value = { TableView };

    ghost view = { λ t. viewed (count t.names) t.types.items t.parts.items t.instances.items t.components.items };
}

impl Drop for Table {
    fn drop(self) {
        let Table {
            names: _,
            types: _,
            parts: _,
            instances: _,
            components: _,
        } = self;
    }
}

/// The size of a type and its depth.
#[derive(Clone, Copy)]
struct Extent {
    size: u64,
    depth: u64,
}

impl Extent {
    fn with(self, size: u64, depth: u64) -> Extent {
        Extent {
            size: self.size.saturating_add(size),
            depth: self.depth.max(depth.saturating_add(1)),
        }
    }
}

impl Table {
    /// A table of the primitive types, which takes its memory from `alloc`.
    pub fn new(alloc: Global) -> Result<Self, AllocError> {
        let mut types = Vec::new(alloc);
        for (number, primitive) in PRIMITIVES.iter().enumerate() {
            types.push(TypeEntry {
                def: TypeDef::Primitive(*primitive),
                size: 1,
                depth: 1,
                base: TypeId(number),
            })?;
        }
        Ok(Table {
            names: IndexSet::new(alloc),
            types,
            parts: Vec::new(alloc),
            instances: Vec::new(alloc),
            components: Vec::new(alloc),
        })
    }

    /// The number of a name, which is new where the name is.
    pub fn intern(&mut self, alloc: Global, name: &str) -> Result<NameId, AllocError> {
        match self.names.get_index_of(name) {
            Some(number) => Ok(NameId(number)),
            None => {
                let text = String::from_str(alloc, name)?;
                let (number, _) = self.names.insert_full(text)?;
                Ok(NameId(number))
            }
        }
    }

    /// The text of a name.
    pub fn name(&self, name: NameId) -> &str {
        match self.names.get_index(name.0) {
            Some(text) => text.as_str(),
            None => "",
        }
    }

    /// How many there are of each.
    pub fn counts(&self) -> Counts
        ensures { result ≡ self.now.counts }
    {
        Counts {
            names: self.names.len(),
            types: self.types.len(),
            parts: self.parts.len(),
            instances: self.instances.len(),
            components: self.components.len(),
        }
    }

    /// Whether each number in the table names an entry of it.
    pub fn is_closed(&self) -> bool
        ensures { result ≡ self.now.is_closed }
    {
        let counts = self.counts();
        (counts.has_entries(self.types.as_slice()) && counts.has_each_part(self.parts.as_slice()))
            && (counts.has_instances(self.instances.as_slice())
                && counts.has_components(self.components.as_slice()))
    }

    /// How many types there are.
    pub fn type_count(&self) -> usize {
        self.types.len()
    }

    /// The type of a number.
    pub fn ty(&self, ty: TypeId) -> Option<TypeEntry> {
        self.types.get(ty.0).copied()
    }

    /// What a type is at the end of its chain of names.
    pub fn base(&self, ty: TypeId) -> TypeId {
        match self.types.get(ty.0) {
            Some(entry) => entry.base,
            None => ty,
        }
    }

    /// What a type is at the end of its chain of names.
    pub fn base_def(&self, ty: TypeId) -> Option<TypeDef> {
        let base = self.base(ty);
        match self.types.get(base.0) {
            Some(entry) => Some(entry.def),
            None => None,
        }
    }

    /// What a type can be used as.
    pub fn type_sort(&self, ty: TypeId) -> Option<TypeSort> {
        match self.base_def(ty) {
            Some(def) => Some(def.sort()),
            None => None,
        }
    }

    /// How many parts there are.
    pub fn part_count(&self) -> usize {
        self.parts.len()
    }

    /// The part of a number.
    pub fn part(&self, number: usize) -> Option<Part> {
        self.parts.get(number).copied()
    }

    /// Appends a part.
    pub fn add_part(&mut self, part: Part) -> Result<(), AllocError> {
        self.parts.push(part)?;
        Ok(())
    }

    fn with_type(&self, extent: Extent, ty: Option<TypeId>) -> Extent {
        let Some(ty) = ty else {
            return extent;
        };
        match self.types.get(ty.0) {
            Some(entry) => extent.with(entry.size, entry.depth),
            None => extent,
        }
    }

    fn with_parts(&self, extent: Extent, parts: Parts) -> Extent {
        let mut all = extent;
        for place in 0..parts.count {
            match self.parts.get(parts.first.saturating_add(place)) {
                Some(part) => all = self.with_type(all, part.ty),
                None => return all,
            }
        }
        all
    }

    fn extent_of_named(&self, named: Named) -> Extent {
        match named.body {
            None => match self.types.get(named.target.0) {
                Some(entry) => Extent {
                    size: entry.size,
                    depth: entry.depth.saturating_add(1),
                },
                None => Extent { size: 1, depth: 1 },
            },
            Some(owner) => {
                let (size, depth) = self.owner_extent(owner);
                Extent {
                    size: size.saturating_add(1),
                    depth: depth.saturating_add(1),
                }
            }
        }
    }

    fn extent_of_func(&self, func: Func) -> Extent {
        let params = self.with_parts(Extent { size: 1, depth: 1 }, func.params);
        self.with_type(params, func.result)
    }

    fn extent_of(&self, def: TypeDef) -> Extent {
        let one = Extent { size: 2, depth: 1 };
        let two = Extent { size: 3, depth: 1 };
        match def {
            TypeDef::List(ty) | TypeDef::Option(ty) => self.with_type(one, Some(ty)),
            TypeDef::FixedList(ty, _) => self.with_type(one, Some(ty)),
            TypeDef::Own(ty) | TypeDef::Borrow(ty) => self.with_type(one, Some(ty)),
            TypeDef::Stream(ty) | TypeDef::Future(ty) => self.with_type(one, ty),
            TypeDef::Map(key, value) => self.with_type(self.with_type(two, Some(key)), Some(value)),
            TypeDef::Result(ok, err) => self.with_type(self.with_type(two, ok), err),
            TypeDef::Named(named) => self.extent_of_named(named),
            TypeDef::Func(func) => self.extent_of_func(func),
            other => self.extent_of_parts(other),
        }
    }

    fn extent_of_parts(&self, def: TypeDef) -> Extent {
        let parts = match def {
            TypeDef::Record(parts) => parts,
            TypeDef::Variant(parts) => parts,
            TypeDef::Tuple(parts) => parts,
            TypeDef::Flags(parts) => parts,
            TypeDef::Enum(parts) => parts,
            _ => return Extent { size: 1, depth: 1 },
        };
        let items = Extent {
            size: (parts.count as u64).saturating_add(1),
            depth: 1,
        };
        self.with_parts(items, parts)
    }

    /// Appends a type, with its size and its depth.
    pub fn add_type(&mut self, def: TypeDef) -> Result<TypeId, AllocError> {
        let id = TypeId(self.types.len());
        let extent = self.extent_of(def);
        let base = match def {
            TypeDef::Named(named) => self.base(named.target),
            _ => id,
        };
        self.types.push(TypeEntry {
            def,
            size: extent.size,
            depth: extent.depth,
            base,
        })?;
        Ok(id)
    }

    /// Appends an instance that exports nothing yet.
    pub fn add_instance(&mut self, alloc: Global) -> Result<InstanceId, AllocError> {
        let id = InstanceId(self.instances.len());
        self.instances.reserve(1)?;
        self.instances.push_reserved(Instance {
            exports: IndexMap::new(alloc),
            name: None,
            size: 1,
            depth: 1,
        });
        Ok(id)
    }

    /// Appends a component that imports nothing yet.
    pub fn add_component(
        &mut self,
        alloc: Global,
        instance: InstanceId,
        body: usize,
    ) -> Result<ComponentId, AllocError> {
        let id = ComponentId(self.components.len());
        self.components.reserve(1)?;
        self.components.push_reserved(Component {
            imports: IndexMap::new(alloc),
            instance,
            body,
            size: 1,
            depth: 1,
        });
        Ok(id)
    }

    /// The instance of a number.
    pub fn instance(&self, instance: InstanceId) -> Option<&Instance> {
        self.instances.get(instance.0)
    }

    /// The component of a number.
    pub fn component(&self, component: ComponentId) -> Option<&Component> {
        self.components.get(component.0)
    }

    /// The number of the body of a component.
    pub fn body_of(&self, component: ComponentId) -> Option<usize> {
        match self.components.get(component.0) {
            Some(found) => Some(found.body),
            None => None,
        }
    }

    /// What an instance exports under a name.
    pub fn export(&self, instance: InstanceId, name: NameId) -> Option<Item> {
        match self.instances.get(instance.0) {
            Some(found) => found.exports.get(&name).copied(),
            None => None,
        }
    }

    /// The export of an instance at a place, with its name.
    pub fn export_at(&self, instance: InstanceId, place: usize) -> Option<(NameId, Item)> {
        let found = self.instances.get(instance.0)?;
        match found.exports.get_index(place) {
            Some((name, item)) => Some((*name, *item)),
            None => None,
        }
    }

    /// The import of a component at a place, with its name.
    pub fn import_at(&self, component: ComponentId, place: usize) -> Option<(NameId, Item)> {
        let found = self.components.get(component.0)?;
        match found.imports.get_index(place) {
            Some((name, item)) => Some((*name, *item)),
            None => None,
        }
    }

    /// How many exports an instance has.
    pub fn export_count(&self, instance: InstanceId) -> usize {
        match self.instances.get(instance.0) {
            Some(found) => found.exports.len(),
            None => 0,
        }
    }

    /// Whether an owner has an item of that name: an instance exports it, a component imports it.
    pub fn has(&self, owner: Owner, name: NameId) -> bool {
        match owner {
            Owner::Instance(id) => match self.instances.get(id.0) {
                Some(found) => found.exports.contains_key(&name),
                None => false,
            },
            Owner::Component(id) => match self.components.get(id.0) {
                Some(found) => found.imports.contains_key(&name),
                None => false,
            },
        }
    }

    /// Adds an item to what an owner has, which has no item of that name.
    pub fn bind(&mut self, owner: Owner, name: NameId, item: Item) -> Result<(), AllocError> {
        match owner {
            Owner::Instance(id) => {
                if let Some(found) = self.instances.get_mut(id.0) {
                    found.exports.insert(name, item)?;
                }
            }
            Owner::Component(id) => {
                if let Some(found) = self.components.get_mut(id.0) {
                    found.imports.insert(name, item)?;
                }
            }
        }
        Ok(())
    }

    /// The size and the depth of an owner with all that it has.
    pub fn owner_extent(&self, owner: Owner) -> (u64, u64) {
        match owner {
            Owner::Instance(id) => match self.instances.get(id.0) {
                Some(found) => (found.size, found.depth),
                None => (1, 1),
            },
            Owner::Component(id) => match self.components.get(id.0) {
                Some(found) => (found.size, found.depth),
                None => (1, 1),
            },
        }
    }

    /// The size and the depth of an item; those of a core module are 0.
    pub fn item_extent(&self, item: Item) -> (u64, u64) {
        match item {
            Item::Module => (0, 0),
            Item::Unevaluated(_) => (1, 1),
            Item::Instance(id) => self.owner_extent(Owner::Instance(id)),
            Item::Component(id) => self.owner_extent(Owner::Component(id)),
            Item::Func(ty) | Item::Type(ty) => match self.types.get(ty.0) {
                Some(entry) => (entry.size, entry.depth),
                None => (1, 1),
            },
        }
    }

    /// Lets an owner grow by something of that size and depth.
    pub fn grow(&mut self, owner: Owner, size: u64, depth: u64) {
        match owner {
            Owner::Instance(id) => {
                if let Some(found) = self.instances.get_mut(id.0) {
                    found.size = found.size.saturating_add(size);
                    found.depth = found.depth.max(depth);
                }
            }
            Owner::Component(id) => {
                if let Some(found) = self.components.get_mut(id.0) {
                    found.size = found.size.saturating_add(size);
                    found.depth = found.depth.max(depth);
                }
            }
        }
    }

    /// Gives an instance the name under which a world imports or exports it, unless it has one.
    pub fn mark(&mut self, instance: InstanceId, kind: ExternKind, name: NameId) {
        if let Some(found) = self.instances.get_mut(instance.0) {
            if found.name.is_none() {
                found.name = Some((kind, name));
            }
        }
    }

    /// Whether a world imports or exports an instance already.
    pub fn is_marked(&self, instance: InstanceId) -> bool {
        match self.instances.get(instance.0) {
            Some(found) => found.name.is_some(),
            None => false,
        }
    }
}
