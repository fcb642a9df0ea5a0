//! Kinds of items, which name entries of a table by their numbers.
ghost use Rattle.std.specs.Prelude.{◌≡◌, IsTrue, ◌↔◌};
ghost use Rattle.wac_graph_types.specs.Kind.{value_form, form, named_by, value_named_by, sort_named, value_sort_named, promoted};
ghost use Rattle.wac_graph_types.specs.Words.{described};

use std::fmt;

/// The number of a [`DefinedType`](crate::DefinedType) in its table.
#[derive(Clone, Copy, Debug, PartialEq, Eq)]
pub struct DefinedTypeId(pub usize);

/// The number of a [`Resource`](crate::Resource) in its table.
#[derive(Clone, Copy, Debug, PartialEq, Eq)]
pub struct ResourceId(pub usize);

/// The number of a [`FuncType`](crate::FuncType) in its table.
#[derive(Clone, Copy, Debug, PartialEq, Eq)]
pub struct FuncTypeId(pub usize);

/// The number of an [`Interface`](crate::Interface) in its table.
#[derive(Clone, Copy, Debug, PartialEq, Eq)]
pub struct InterfaceId(pub usize);

/// The number of a [`World`](crate::World) in its table.
#[derive(Clone, Copy, Debug, PartialEq, Eq)]
pub struct WorldId(pub usize);

/// The type of a core module: a number that no table gives, so two are the same exactly when the numbers are.
#[derive(Clone, Copy, Debug, PartialEq, Eq)]
pub struct ModuleTypeId(pub usize);

/// A type of values that needs no declaration.
#[derive(Clone, Copy, Debug, PartialEq, Eq)]
pub enum PrimitiveType {
    U8,
    S8,
    U16,
    S16,
    U32,
    S32,
    U64,
    S64,
    F32,
    F64,
    Char,
    Bool,
    String,
    ErrorContext,
}

/// A type of values. `==` compares the numbers of entries: use [`Types::same`](crate::Types::same) to compare what
/// they mean.
#[derive(Clone, Copy, Debug, PartialEq, Eq)]
pub enum ValueType {
    Primitive(PrimitiveType),
    Borrow(ResourceId),
    Own(ResourceId),
    Defined(DefinedTypeId),
}

/// A type, as an item of its own.
#[derive(Clone, Copy, Debug, PartialEq, Eq)]
pub enum Type {
    Resource(ResourceId),
    Func(FuncTypeId),
    Value(ValueType),
    Interface(InterfaceId),
    World(WorldId),
    Module(ModuleTypeId),
}

/// What an item is: a type, or something of a type.
///
/// The numbers in it are those of one table. `==` compares these numbers: use [`Types::same`](crate::Types::same) to
/// compare what two kinds mean.
#[derive(Clone, Copy, Debug, PartialEq, Eq)]
pub enum ItemKind {
    Ty(Type),
    Func(FuncTypeId),
    Instance(InterfaceId),
    Component(WorldId),
    Module(ModuleTypeId),
    Value(ValueType),
}

/// The sort of an entry that a kind requires.
#[derive(Clone, Copy, Debug, PartialEq, Eq)]
pub enum Sort {
    Defined,
    Resource,
    Func,
    Interface,
    World,
}

impl ValueType {
    /// Whether both have one form, apart from the entries that they name.
    pub(crate) fn same_form(self, other: ValueType) -> bool
        ensures { IsTrue result ↔ (value_form self ≡ value_form other) }
    {
        match (self, other) {
            (ValueType::Primitive(p), ValueType::Primitive(q)) => p == q,
            (ValueType::Borrow(_), ValueType::Borrow(_)) => true,
            (ValueType::Own(_), ValueType::Own(_)) => true,
            (ValueType::Defined(_), ValueType::Defined(_)) => true,
            _ => false,
        }
    }

    /// The number of the entry that it names.
    pub(crate) fn id(self) -> Option<usize>
        ensures { result ≡ value_named_by self }
    {
        match self {
            ValueType::Primitive(_) => None,
            ValueType::Borrow(id) => Some(id.0),
            ValueType::Own(id) => Some(id.0),
            ValueType::Defined(id) => Some(id.0),
        }
    }

    /// The sort of the entry that it names.
    pub(crate) fn sort(self) -> Sort
        ensures { result ≡ value_sort_named self }
    {
        match self {
            ValueType::Primitive(_) => Sort::Defined,
            ValueType::Borrow(_) => Sort::Resource,
            ValueType::Own(_) => Sort::Resource,
            ValueType::Defined(_) => Sort::Defined,
        }
    }
}

fn same_type_form(a: Type, b: Type) -> bool
    ensures { IsTrue result ↔ (form (ItemKind.Ty a) ≡ form (ItemKind.Ty b)) }
{
    match (a, b) {
        (Type::Resource(_), Type::Resource(_)) => true,
        (Type::Func(_), Type::Func(_)) => true,
        (Type::Value(v), Type::Value(w)) => v.same_form(w),
        (Type::Interface(_), Type::Interface(_)) => true,
        (Type::World(_), Type::World(_)) => true,
        (Type::Module(m), Type::Module(n)) => m.0 == n.0,
        _ => false,
    }
}

impl ItemKind {
    /// Whether both have one form, apart from the entries that they name.
    pub fn same_form(self, other: ItemKind) -> bool
        ensures { IsTrue result ↔ (form self ≡ form other) }
    {
        match (self, other) {
            (ItemKind::Ty(t), ItemKind::Ty(u)) => same_type_form(t, u),
            (ItemKind::Func(_), ItemKind::Func(_)) => true,
            (ItemKind::Instance(_), ItemKind::Instance(_)) => true,
            (ItemKind::Component(_), ItemKind::Component(_)) => true,
            (ItemKind::Module(m), ItemKind::Module(n)) => m.0 == n.0,
            (ItemKind::Value(v), ItemKind::Value(w)) => v.same_form(w),
            _ => false,
        }
    }

    /// The number of the entry that it names.
    pub fn id(self) -> Option<usize>
        ensures { result ≡ named_by self }
    {
        match self {
            ItemKind::Ty(Type::Resource(id)) => Some(id.0),
            ItemKind::Ty(Type::Func(id)) => Some(id.0),
            ItemKind::Ty(Type::Value(v)) => v.id(),
            ItemKind::Ty(Type::Interface(id)) => Some(id.0),
            ItemKind::Ty(Type::World(id)) => Some(id.0),
            ItemKind::Ty(Type::Module(_)) => None,
            ItemKind::Func(id) => Some(id.0),
            ItemKind::Instance(id) => Some(id.0),
            ItemKind::Component(id) => Some(id.0),
            ItemKind::Module(_) => None,
            ItemKind::Value(v) => v.id(),
        }
    }

    /// The sort of the entry that it names.
    pub(crate) fn sort(self) -> Sort
        ensures { result ≡ sort_named self }
    {
        match self {
            ItemKind::Ty(Type::Resource(_)) => Sort::Resource,
            ItemKind::Ty(Type::Func(_)) => Sort::Func,
            ItemKind::Ty(Type::Value(v)) => v.sort(),
            ItemKind::Ty(Type::Interface(_)) => Sort::Interface,
            ItemKind::Ty(Type::World(_)) => Sort::World,
            ItemKind::Ty(Type::Module(_)) => Sort::Defined,
            ItemKind::Func(_) => Sort::Func,
            ItemKind::Instance(_) => Sort::Interface,
            ItemKind::Component(_) => Sort::World,
            ItemKind::Module(_) => Sort::Defined,
            ItemKind::Value(v) => v.sort(),
        }
    }

    /// The kind of an item of that type: a function type becomes a function, an interface an instance, a world a
    /// component. Every other kind stays.
    pub fn promote(self) -> ItemKind
        ensures { result ≡ promoted self }
    {
        match self {
            ItemKind::Ty(Type::Func(id)) => ItemKind::Func(id),
            ItemKind::Ty(Type::Interface(id)) => ItemKind::Instance(id),
            ItemKind::Ty(Type::World(id)) => ItemKind::Component(id),
            other => other,
        }
    }

    /// The kind in words, as messages name it.
    pub fn desc(self) -> &'static str
        ensures { result.now ≡ described self }
    {
        match self {
            ItemKind::Ty(Type::Resource(_)) => "resource",
            ItemKind::Ty(Type::Func(_)) => "function type",
            ItemKind::Ty(Type::Value(_)) => "value type",
            ItemKind::Ty(Type::Interface(_)) => "interface",
            ItemKind::Ty(Type::World(_)) => "world",
            ItemKind::Ty(Type::Module(_)) => "module type",
            ItemKind::Func(_) => "function",
            ItemKind::Instance(_) => "instance",
            ItemKind::Component(_) => "component",
            ItemKind::Module(_) => "module",
            ItemKind::Value(_) => "value",
        }
    }
}

/// Whether an item is imported or exported.
#[derive(Clone, Copy, Debug, PartialEq, Eq)]
pub enum ExternKind {
    Import,
    Export,
}

impl fmt::Display for ExternKind {
    ghost use Rattle.std.specs.Prelude.{Some};
    ghost use Rattle.wac_graph_types.specs.Words.{extern_word};

    ghost output = { λ k. Some (extern_word k) };

    fn fmt<W: fmt::Write>(&self, f: &mut fmt::Formatter<W>) -> fmt::Result {
        match *self {
            ExternKind::Import => f.write_str("import"),
            ExternKind::Export => f.write_str("export"),
        }
    }
}

/// How a function belongs to a resource, if it does.
#[derive(Clone, Copy, Debug, PartialEq, Eq)]
pub enum FuncKind {
    /// It belongs to none.
    Free,
    Method,
    Static,
    Constructor,
}

impl fmt::Display for FuncKind {
    ghost use Rattle.std.specs.Prelude.{Some};
    ghost use Rattle.wac_graph_types.specs.Words.{func_word};

    ghost output = { λ k. Some (func_word k) };

    fn fmt<W: fmt::Write>(&self, f: &mut fmt::Formatter<W>) -> fmt::Result {
        match *self {
            FuncKind::Free => f.write_str("function"),
            FuncKind::Method => f.write_str("method"),
            FuncKind::Static => f.write_str("static method"),
            FuncKind::Constructor => f.write_str("constructor"),
        }
    }
}
