//! The index spaces of components and of the bodies of their types.

use crate::item::{CoreSort, InstanceId, Item, TypeId};
use std::alloc::{AllocError, Global};
use std::marker::Model;

/// How long the spaces of a scope are that an inner scope can name.
#[derive(Clone, Copy, Debug, PartialEq, Eq)]
pub struct Lengths {
    pub types: usize,
    pub components: usize,
    pub core_types: usize,
    pub core_modules: usize,
}

/// The index spaces of a body. Core items are counted.
struct Scope {
    /// The scope around it, and how long its spaces were where this one begins.
    parent: Option<(usize, Lengths)>,
    types: Vec<TypeId>,
    functions: Vec<TypeId>,
    instances: Vec<InstanceId>,
    components: Vec<Item>,
    core: [usize; 8],
}

impl Drop for Scope {
    fn drop(self) {
        let Scope {
            parent: _,
            types: _,
            functions: _,
            instances: _,
            components: _,
            core: _,
        } = self;
    }
}

/// All scopes, by number. A number that no scope has is that of an empty scope.
pub struct Scopes {
    scopes: Vec<Scope>,
}

impl Model for Scopes {
    ghost use Rattle.std.specs.Prelude.{ℕ, length};

    ghost Value = { ℕ };

    ghost view = { λ s. length s.scopes.items };
}

impl Drop for Scopes {
    fn drop(self) {
        let Scopes { scopes: _ } = self;
    }
}

fn core_number(sort: CoreSort) -> usize {
    match sort {
        CoreSort::Func => 0,
        CoreSort::Table => 1,
        CoreSort::Memory => 2,
        CoreSort::Global => 3,
        CoreSort::Tag => 4,
        CoreSort::Type => 5,
        CoreSort::Module => 6,
        CoreSort::Instance => 7,
    }
}

impl Scope {
    fn count_core(&mut self, sort: CoreSort) {
        let number = core_number(sort);
        if number < 8 {
            self.core[number] = self.core[number].saturating_add(1);
        }
    }

    fn core_count(&self, sort: CoreSort) -> usize {
        let number = core_number(sort);
        if number < 8 { self.core[number] } else { 0 }
    }

    fn put(&mut self, item: Item) -> Result<(), AllocError> {
        match item {
            Item::Module => self.count_core(CoreSort::Module),
            Item::Func(ty) => self.functions.push(ty)?,
            Item::Type(ty) => self.types.push(ty)?,
            Item::Instance(instance) => self.instances.push(instance)?,
            Item::Component(component) => self.components.push(Item::Component(component))?,
            Item::Unevaluated(body) => self.components.push(Item::Unevaluated(body))?,
        }
        Ok(())
    }
}

impl Scopes {
    /// No scopes.
    pub fn new(alloc: Global) -> Self {
        Scopes {
            scopes: Vec::new(alloc),
        }
    }

    /// Adds an empty scope within another one, and returns its number.
    pub fn open(
        &mut self,
        alloc: Global,
        parent: Option<(usize, Lengths)>,
    ) -> Result<usize, AllocError> {
        let number = self.scopes.len();
        self.scopes.reserve(1)?;
        self.scopes.push_reserved(Scope {
            parent,
            types: Vec::new(alloc),
            functions: Vec::new(alloc),
            instances: Vec::new(alloc),
            components: Vec::new(alloc),
            core: [0; 8],
        });
        Ok(number)
    }

    /// The scope around a scope, and how long its spaces were where the scope begins.
    pub fn parent(&self, scope: usize) -> Option<(usize, Lengths)> {
        match self.scopes.get(scope) {
            Some(found) => found.parent,
            None => None,
        }
    }

    /// How long the spaces of a scope are.
    pub fn lengths(&self, scope: usize) -> Lengths {
        match self.scopes.get(scope) {
            Some(found) => Lengths {
                types: found.types.len(),
                components: found.components.len(),
                core_types: found.core_count(CoreSort::Type),
                core_modules: found.core_count(CoreSort::Module),
            },
            None => Lengths {
                types: 0,
                components: 0,
                core_types: 0,
                core_modules: 0,
            },
        }
    }

    /// The type of an index.
    pub fn type_at(&self, scope: usize, index: usize) -> Option<TypeId> {
        match self.scopes.get(scope) {
            Some(found) => found.types.get(index).copied(),
            None => None,
        }
    }

    /// The type of the function of an index.
    pub fn function_at(&self, scope: usize, index: usize) -> Option<TypeId> {
        match self.scopes.get(scope) {
            Some(found) => found.functions.get(index).copied(),
            None => None,
        }
    }

    /// The instance of an index.
    pub fn instance_at(&self, scope: usize, index: usize) -> Option<InstanceId> {
        match self.scopes.get(scope) {
            Some(found) => found.instances.get(index).copied(),
            None => None,
        }
    }

    /// The component of an index.
    pub fn component_at(&self, scope: usize, index: usize) -> Option<Item> {
        match self.scopes.get(scope) {
            Some(found) => found.components.get(index).copied(),
            None => None,
        }
    }

    /// How many core items of a sort a scope has.
    pub fn core_count(&self, scope: usize, sort: CoreSort) -> usize {
        match self.scopes.get(scope) {
            Some(found) => found.core_count(sort),
            None => 0,
        }
    }

    /// Counts one more core item.
    pub fn count_core(&mut self, scope: usize, sort: CoreSort) {
        if let Some(found) = self.scopes.get_mut(scope) {
            found.count_core(sort);
        }
    }

    /// Gives an item the next index of its sort.
    pub fn put(&mut self, scope: usize, item: Item) -> Result<(), AllocError> {
        match self.scopes.get_mut(scope) {
            Some(found) => found.put(item),
            None => Ok(()),
        }
    }
}
