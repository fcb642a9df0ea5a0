//! Types.

use crate::item::{ComponentId, InstanceId, NameId, TypeId};
use wac_graph_types::PrimitiveType;

/// Consecutive parts of a table, by the number of the first and how many they are.
#[derive(Clone, Copy, Debug, PartialEq, Eq)]
pub struct Parts {
    pub first: usize,
    pub count: usize,
}

/// A field, case, parameter, flag or member of a tuple: its name and its type, where it has one.
#[derive(Clone, Copy, Debug, PartialEq, Eq)]
pub struct Part {
    pub name: Option<NameId>,
    pub ty: Option<TypeId>,
}

/// To whom a named type belongs: an instance, or a component that imports it.
#[derive(Clone, Copy, Debug, PartialEq, Eq)]
pub enum Owner {
    Instance(InstanceId),
    Component(ComponentId),
}

/// A type under a name of its owner.
#[derive(Clone, Copy, Debug, PartialEq, Eq)]
pub struct Named {
    pub name: NameId,
    pub owner: Owner,
    /// What it is another name of.
    pub target: TypeId,
    /// The instance or component of that type, where the target is the type of one.
    pub body: Option<Owner>,
}

/// The type of a function.
#[derive(Clone, Copy, Debug, PartialEq, Eq)]
pub struct Func {
    pub params: Parts,
    pub result: Option<TypeId>,
    pub is_async: bool,
}

/// What a body is of.
#[derive(Clone, Copy, Debug, PartialEq, Eq)]
pub enum BodyKind {
    Component,
    ComponentType,
    InstanceType,
}

/// A type. Where it names others, they are earlier in the table.
#[derive(Clone, Copy, Debug, PartialEq, Eq)]
pub enum TypeDef {
    Primitive(PrimitiveType),
    /// A resource: each entry is one of its own.
    Resource,
    Named(Named),
    Record(Parts),
    Variant(Parts),
    Tuple(Parts),
    Flags(Parts),
    Enum(Parts),
    List(TypeId),
    FixedList(TypeId, u32),
    Map(TypeId, TypeId),
    Option(TypeId),
    Result(Option<TypeId>, Option<TypeId>),
    Own(TypeId),
    Borrow(TypeId),
    Stream(Option<TypeId>),
    Future(Option<TypeId>),
    Func(Func),
    /// The type of an instance or a component, by the number of its body.
    Body(BodyKind, usize),
}

/// A type with its size in nodes, its depth, and what it is at the end of its chain of names.
#[derive(Clone, Copy, Debug, PartialEq, Eq)]
pub struct TypeEntry {
    pub def: TypeDef,
    pub size: u64,
    pub depth: u64,
    pub base: TypeId,
}

/// What a type can be used as.
#[derive(Clone, Copy, Debug, PartialEq, Eq)]
pub enum TypeSort {
    Value,
    Resource,
    Func,
    Instance,
    Component,
}

impl TypeDef {
    /// What it can be used as, by what it is at the end of its chain of names.
    pub fn sort(self) -> TypeSort {
        match self {
            TypeDef::Resource => TypeSort::Resource,
            TypeDef::Func(_) => TypeSort::Func,
            TypeDef::Body(BodyKind::InstanceType, _) => TypeSort::Instance,
            TypeDef::Body(_, _) => TypeSort::Component,
            _ => TypeSort::Value,
        }
    }
}

/// The primitive types in the order of their opcodes, from 0x7f down; they are the first types of each table.
pub static PRIMITIVES: [PrimitiveType; 14] = [
    PrimitiveType::Bool,
    PrimitiveType::S8,
    PrimitiveType::U8,
    PrimitiveType::S16,
    PrimitiveType::U16,
    PrimitiveType::S32,
    PrimitiveType::U32,
    PrimitiveType::S64,
    PrimitiveType::U64,
    PrimitiveType::F32,
    PrimitiveType::F64,
    PrimitiveType::Char,
    PrimitiveType::String,
    PrimitiveType::ErrorContext,
];

/// The primitive type of an opcode, if it is one.
pub fn primitive(opcode: u8) -> Option<TypeId> {
    match opcode {
        0x73..=0x7f => Some(TypeId((0x7f - opcode) as usize)),
        0x64 => Some(TypeId(13)),
        _ => None,
    }
}
