//! What is read of a kind without a table.
ghost use Rattle.std.specs.Prelude.{◌≡◌, IsTrue, ◌↔◌};
ghost use Rattle.wac_graph_types.specs.Entry.{optional, sort_of};
ghost use Rattle.wac_graph_types.specs.Kind.{form, named_by, value_form, value_named_by};
ghost use Rattle.wac_component_rules.specs.Fits.{is_type as is_type_form};

use wac_graph_types::{Entry, ItemKind, Type, ValueType};

fn same_value_form(a: ValueType, b: ValueType) -> bool
    ensures { IsTrue result ↔ (value_form a ≡ value_form b) }
{
    match (a, b) {
        (ValueType::Primitive(p), ValueType::Primitive(q)) => p == q,
        (ValueType::Borrow(_), ValueType::Borrow(_)) => true,
        (ValueType::Own(_), ValueType::Own(_)) => true,
        (ValueType::Defined(_), ValueType::Defined(_)) => true,
        _ => false,
    }
}

fn same_type_form(a: Type, b: Type) -> bool
    ensures { IsTrue result ↔ (form (ItemKind.Ty a) ≡ form (ItemKind.Ty b)) }
{
    match (a, b) {
        (Type::Resource(_), Type::Resource(_)) => true,
        (Type::Func(_), Type::Func(_)) => true,
        (Type::Value(v), Type::Value(w)) => same_value_form(v, w),
        (Type::Interface(_), Type::Interface(_)) => true,
        (Type::World(_), Type::World(_)) => true,
        (Type::Module(m), Type::Module(n)) => m.0 == n.0,
        _ => false,
    }
}

/// Whether two kinds have one form, apart from the entries that they name.
pub fn same_form(a: ItemKind, b: ItemKind) -> bool
    ensures { IsTrue result ↔ (form a ≡ form b) }
{
    match (a, b) {
        (ItemKind::Ty(t), ItemKind::Ty(u)) => same_type_form(t, u),
        (ItemKind::Func(_), ItemKind::Func(_)) => true,
        (ItemKind::Instance(_), ItemKind::Instance(_)) => true,
        (ItemKind::Component(_), ItemKind::Component(_)) => true,
        (ItemKind::Module(m), ItemKind::Module(n)) => m.0 == n.0,
        (ItemKind::Value(v), ItemKind::Value(w)) => same_value_form(v, w),
        _ => false,
    }
}

fn value_number(value: ValueType) -> Option<usize>
    ensures { result ≡ value_named_by value }
{
    match value {
        ValueType::Primitive(_) => None,
        ValueType::Borrow(id) => Some(id.0),
        ValueType::Own(id) => Some(id.0),
        ValueType::Defined(id) => Some(id.0),
    }
}

/// The number of the entry that a kind names.
pub fn number(kind: ItemKind) -> Option<usize>
    ensures { result ≡ named_by kind }
{
    match kind {
        ItemKind::Ty(Type::Resource(id)) => Some(id.0),
        ItemKind::Ty(Type::Func(id)) => Some(id.0),
        ItemKind::Ty(Type::Value(v)) => value_number(v),
        ItemKind::Ty(Type::Interface(id)) => Some(id.0),
        ItemKind::Ty(Type::World(id)) => Some(id.0),
        ItemKind::Ty(Type::Module(_)) => None,
        ItemKind::Func(id) => Some(id.0),
        ItemKind::Instance(id) => Some(id.0),
        ItemKind::Component(id) => Some(id.0),
        ItemKind::Module(_) => None,
        ItemKind::Value(v) => value_number(v),
    }
}

/// Whether a kind is that of a type, as an item of its own.
pub fn is_type(kind: ItemKind) -> bool
    ensures { result ≡ is_type_form (form kind) }
{
    match kind {
        ItemKind::Ty(Type::Resource(_)) => true,
        ItemKind::Ty(Type::Func(_)) => true,
        ItemKind::Ty(Type::Value(_)) => true,
        ItemKind::Ty(Type::Interface(_)) => true,
        ItemKind::Ty(Type::World(_)) => true,
        ItemKind::Ty(Type::Module(_)) => true,
        ItemKind::Func(_) => false,
        ItemKind::Instance(_) => false,
        ItemKind::Component(_) => false,
        ItemKind::Module(_) => false,
        ItemKind::Value(_) => false,
    }
}

/// Whether two entries are of one sort.
pub fn same_sort(a: &Entry, b: &Entry) -> bool
    ensures { IsTrue result → sort_of a.now ≡ sort_of b.now }
{
    match (a, b) {
        (Entry::Defined(_), Entry::Defined(_)) => true,
        (Entry::Resource(_), Entry::Resource(_)) => true,
        (Entry::Func(_), Entry::Func(_)) => true,
        (Entry::Interface(_), Entry::Interface(_)) => true,
        (Entry::World(_), Entry::World(_)) => true,
        _ => false,
    }
}

/// The kind of a value, if its type is given.
pub fn value_kind(value: Option<ValueType>) -> Option<ItemKind>
    ensures { result ≡ optional value }
{
    match value {
        None => None,
        Some(v) => Some(ItemKind::Value(v)),
    }
}
