//! Copies of what is in an entry, with new numbers.
ghost use Rattle.std.specs.Prelude.{◌≡◌, ◌+◌, ◌<◌, ◌^◌, IfSome, IfOk, option_map, string_bytes};
ghost use Rattle.wac_graph_types.specs.Names.{by_name};
ghost use Rattle.wac_graph_types.specs.Entry.{value_children, case_children, use_children, name_children, tuple_children};
ghost use Rattle.wac_graph_types.specs.Meaning.{EachKind};
ghost use Rattle.wac_graph.specs.Moved.{moved_value as value_moved, moved as kind_moved, moved_children, moved_items, Fits, ItemsFit};

use indexmap::{IndexMap, IndexSet};
use std::alloc::{AllocError, Global};
use wac_graph_types::names::{push, push_name};
use wac_graph_types::{
    DefinedTypeId, FuncTypeId, InterfaceId, ItemKind, ResourceId, Type, UsedType, ValueType,
    WorldId,
};

/// The type with its number moved by `n`.
pub fn moved_value(n: usize, value: ValueType) -> ValueType
    requires { Fits n (ItemKind.Value value) }
    ensures { result ≡ value_moved n value }
{
    match value {
        ValueType::Primitive(p) => ValueType::Primitive(p),
        ValueType::Borrow(id) => ValueType::Borrow(ResourceId(n + id.0)),
        ValueType::Own(id) => ValueType::Own(ResourceId(n + id.0)),
        ValueType::Defined(id) => ValueType::Defined(DefinedTypeId(n + id.0)),
    }
}

/// The kind with its number moved by `n`.
pub fn moved(n: usize, kind: ItemKind) -> ItemKind
    requires { Fits n kind }
    ensures { result ≡ kind_moved n kind }
{
    match kind {
        ItemKind::Ty(Type::Resource(id)) => ItemKind::Ty(Type::Resource(ResourceId(n + id.0))),
        ItemKind::Ty(Type::Func(id)) => ItemKind::Ty(Type::Func(FuncTypeId(n + id.0))),
        ItemKind::Ty(Type::Value(v)) => ItemKind::Ty(Type::Value(moved_value(n, v))),
        ItemKind::Ty(Type::Interface(id)) => ItemKind::Ty(Type::Interface(InterfaceId(n + id.0))),
        ItemKind::Ty(Type::World(id)) => ItemKind::Ty(Type::World(WorldId(n + id.0))),
        ItemKind::Ty(Type::Module(id)) => ItemKind::Ty(Type::Module(id)),
        ItemKind::Func(id) => ItemKind::Func(FuncTypeId(n + id.0)),
        ItemKind::Instance(id) => ItemKind::Instance(InterfaceId(n + id.0)),
        ItemKind::Component(id) => ItemKind::Component(WorldId(n + id.0)),
        ItemKind::Module(id) => ItemKind::Module(id),
        ItemKind::Value(v) => ItemKind::Value(moved_value(n, v)),
    }
}

/// The type, if it is given, with its number moved by `n`.
pub fn moved_optional(n: usize, value: Option<ValueType>) -> Option<ValueType>
    requires { IfSome value (λ v. Fits n (ItemKind.Value v)) }
    ensures { result ≡ option_map (value_moved n) value }
{
    match value {
        None => None,
        Some(v) => Some(moved_value(n, v)),
    }
}

/// The parameters, fields or named results with their numbers moved by `n`.
pub fn copy_values(
    alloc: Global,
    n: usize,
    from: &IndexMap<String, ValueType>,
) -> Result<IndexMap<String, ValueType>, AllocError>
    requires { EachKind (Fits n) (value_children from.now.entries) }
    ensures { IfOk result (λ m. value_children m.entries ≡ moved_children n (value_children from.now.entries)) }
{
    let mut copy = IndexMap::with_capacity(alloc, from.len())?;
    for (name, value) in from.iter() {
        push(alloc, &mut copy, name.as_str(), moved_value(n, *value))?;
    }
    Ok(copy)
}

/// The cases with their numbers moved by `n`.
pub fn copy_cases(
    alloc: Global,
    n: usize,
    from: &IndexMap<String, Option<ValueType>>,
) -> Result<IndexMap<String, Option<ValueType>>, AllocError>
    requires { EachKind (Fits n) (case_children from.now.entries) }
    ensures { IfOk result (λ m. case_children m.entries ≡ moved_children n (case_children from.now.entries)) }
{
    let mut copy = IndexMap::with_capacity(alloc, from.len())?;
    for (name, value) in from.iter() {
        push(alloc, &mut copy, name.as_str(), moved_optional(n, *value))?;
    }
    Ok(copy)
}

/// The items with their numbers moved by `n`.
pub fn copy_items(
    alloc: Global,
    n: usize,
    from: &IndexMap<String, ItemKind>,
) -> Result<IndexMap<String, ItemKind>, AllocError>
    requires { ItemsFit n (by_name from.now.entries) }
    ensures { IfOk result (λ m. by_name m.entries ≡ moved_items n (by_name from.now.entries)) }
{
    let mut copy = IndexMap::with_capacity(alloc, from.len())?;
    for (name, kind) in from.iter() {
        push(alloc, &mut copy, name.as_str(), moved(n, *kind))?;
    }
    Ok(copy)
}

/// A copy of a text.
pub fn copy_text(alloc: Global, text: &Option<String>) -> Result<Option<String>, AllocError>
    ensures { IfOk result (λ t. option_map string_bytes t ≡ option_map string_bytes text.now) }
{
    match text {
        None => Ok(None),
        Some(text) => Ok(Some(String::from_str(alloc, text.as_str())?)),
    }
}

fn copy_use(alloc: Global, n: usize, from: &UsedType) -> Result<UsedType, AllocError>
    requires { n + from.now.interface.0 < 2 ^ 64 }
    ensures interface { IfOk result (λ u. u.interface ≡ record { 0 = n + from.now.interface.0 }) }
    ensures name { IfOk result (λ u. option_map string_bytes u.name ≡ option_map string_bytes from.now.name) }
{
    let name = copy_text(alloc, &from.name)?;
    Ok(UsedType {
        interface: InterfaceId(n + from.interface.0),
        name,
    })
}

/// The used types with their numbers moved by `n`.
pub fn copy_uses(
    alloc: Global,
    n: usize,
    from: &IndexMap<String, UsedType>,
) -> Result<IndexMap<String, UsedType>, AllocError>
    requires { EachKind (Fits n) (use_children from.now.entries) }
    ensures { IfOk result (λ m. use_children m.entries ≡ moved_children n (use_children from.now.entries)) }
{
    let mut copy = IndexMap::with_capacity(alloc, from.len())?;
    for (name, used) in from.iter() {
        let copied = copy_use(alloc, n, used)?;
        push(alloc, &mut copy, name.as_str(), copied)?;
    }
    Ok(copy)
}

/// A copy of the names.
pub fn copy_names(alloc: Global, from: &IndexSet<String>) -> Result<IndexSet<String>, AllocError>
    ensures { IfOk result (λ s. name_children s.keys ≡ name_children from.now.keys) }
{
    let mut copy = IndexSet::with_capacity(alloc, from.len())?;
    for name in from.iter() {
        push_name(alloc, &mut copy, name.as_str())?;
    }
    Ok(copy)
}

/// The types with their numbers moved by `n`.
pub fn copy_tuple(alloc: Global, n: usize, from: &[ValueType]) -> Result<Vec<ValueType>, AllocError>
    requires { EachKind (Fits n) (tuple_children from.now) }
    ensures { IfOk result (λ v. tuple_children v.items ≡ moved_children n (tuple_children from.now)) }
{
    let mut copy = Vec::with_capacity(alloc, from.len())?;
    for value in from {
        copy.push(moved_value(n, *value))?;
    }
    Ok(copy)
}
