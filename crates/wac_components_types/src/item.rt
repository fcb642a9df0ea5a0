//! Numbers of things in a table, and items.

/// The number of a name in a table.
#[derive(Clone, Copy, Debug, PartialEq, Eq, Hash)]
pub struct NameId(pub usize);

/// The number of a type in a table.
#[derive(Clone, Copy, Debug, PartialEq, Eq)]
pub struct TypeId(pub usize);

/// The number of an instance in a table.
#[derive(Clone, Copy, Debug, PartialEq, Eq)]
pub struct InstanceId(pub usize);

/// The number of a component in a table.
#[derive(Clone, Copy, Debug, PartialEq, Eq)]
pub struct ComponentId(pub usize);

/// What is imported or exported.
#[derive(Clone, Copy, Debug, PartialEq, Eq)]
pub enum Item {
    /// A core module, whose type isn't read.
    Module,
    /// A function, by its type.
    Func(TypeId),
    Type(TypeId),
    Instance(InstanceId),
    Component(ComponentId),
    /// A component whose body isn't evaluated yet, by the number of its body.
    Unevaluated(usize),
}

/// The sort of an item.
#[derive(Clone, Copy, Debug, PartialEq, Eq)]
pub enum Sort {
    Module,
    Func,
    Type,
    Instance,
    Component,
}

/// The sort of a core item. Core items are only counted.
#[derive(Clone, Copy, Debug, PartialEq, Eq)]
pub enum CoreSort {
    Func,
    Table,
    Memory,
    Global,
    Tag,
    Type,
    Module,
    Instance,
}

impl Item {
    /// The sort of this item.
    pub fn sort(self) -> Sort {
        match self {
            Item::Module => Sort::Module,
            Item::Func(_) => Sort::Func,
            Item::Type(_) => Sort::Type,
            Item::Instance(_) => Sort::Instance,
            Item::Component(_) => Sort::Component,
            Item::Unevaluated(_) => Sort::Component,
        }
    }
}
