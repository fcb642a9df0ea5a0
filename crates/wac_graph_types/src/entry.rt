//! The entries of a table.

use crate::kind::{InterfaceId, ItemKind, ResourceId, ValueType};
use indexmap::{IndexMap, IndexSet};

/// A type of values that isn't primitive. The order of cases, fields and names counts.
#[derive(Drop)]
pub enum DefinedType {
    Tuple(Vec<ValueType>),
    List(ValueType),
    Option(ValueType),
    Result {
        ok: Option<ValueType>,
        err: Option<ValueType>,
    },
    Variant {
        cases: IndexMap<String, Option<ValueType>>,
    },
    Record {
        fields: IndexMap<String, ValueType>,
    },
    Flags(IndexSet<String>),
    Enum(IndexSet<String>),
    Alias(ValueType),
    Stream(Option<ValueType>),
    Future(Option<ValueType>),
}

/// What a function returns.
#[derive(Drop)]
pub enum FuncResults {
    /// Nothing.
    None,
    /// A value, without a name.
    Scalar(ValueType),
    /// A value under each name. Without any name it means the same as `None`.
    Named(IndexMap<String, ValueType>),
}

/// The type of a function.
#[derive(Drop)]
pub struct FuncType {
    pub params: IndexMap<String, ValueType>,
    pub results: FuncResults,
    pub is_async: bool,
}

/// A type that has a name of its own here (the key), and is exported by another interface: under `name` where that
/// differs.
#[derive(Drop)]
pub struct UsedType {
    pub interface: InterfaceId,
    pub name: Option<String>,
}

/// An interface: what an instance exports. The id is its name outside, as `wasi:http/types@0.2.0`; inline interfaces
/// have none. A used type is among the exports too.
#[derive(Drop)]
pub struct Interface {
    pub id: Option<String>,
    pub uses: IndexMap<String, UsedType>,
    pub exports: IndexMap<String, ItemKind>,
}

/// A world: what a component imports and exports. A used type is among the imports too.
#[derive(Drop)]
pub struct World {
    pub id: Option<String>,
    pub uses: IndexMap<String, UsedType>,
    pub imports: IndexMap<String, ItemKind>,
    pub exports: IndexMap<String, ItemKind>,
}

/// What a resource is another name of: the source, and the interface that the source belongs to, if any.
#[derive(Clone, Copy, Debug, PartialEq, Eq)]
pub struct ResourceAlias {
    pub owner: Option<InterfaceId>,
    pub source: ResourceId,
}

/// A resource. Each entry is a resource of its own, whatever its name is.
#[derive(Drop)]
pub struct Resource {
    pub name: String,
    pub alias: Option<ResourceAlias>,
}

/// An entry of a table, as the crate above reads and adds it.
#[derive(Drop)]
pub enum Entry {
    Defined(DefinedType),
    Resource(Resource),
    Func(FuncType),
    Interface(Interface),
    World(World),
}
