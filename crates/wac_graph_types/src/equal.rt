//! Equality is equality of all fields. Each function here is `==` alone, and its contract is the law.
ghost use Rattle.std.specs.Prelude.{◌≡◌, IsTrue, ◌↔◌};

use crate::entry::ResourceAlias;
use crate::kind::{
    DefinedTypeId, ExternKind, FuncKind, FuncTypeId, InterfaceId, ItemKind, ModuleTypeId,
    PrimitiveType, ResourceId, Sort, Type, ValueType, WorldId,
};
use crate::rules::Reason;

/// Extern kinds are equal where they are one variant.
pub fn extern_kinds(a: ExternKind, b: ExternKind) -> bool
    ensures { IsTrue result ↔ (a ≡ b) }
{
    a == b
}

/// Function kinds are equal where they are one variant.
pub fn func_kinds(a: FuncKind, b: FuncKind) -> bool
    ensures { IsTrue result ↔ (a ≡ b) }
{
    a == b
}

/// Ids are equal where their numbers are.
pub fn defined_type_ids(a: DefinedTypeId, b: DefinedTypeId) -> bool
    ensures { IsTrue result ↔ (a ≡ b) }
{
    a == b
}

/// Ids are equal where their numbers are.
pub fn resource_ids(a: ResourceId, b: ResourceId) -> bool
    ensures { IsTrue result ↔ (a ≡ b) }
{
    a == b
}

/// Ids are equal where their numbers are.
pub fn func_type_ids(a: FuncTypeId, b: FuncTypeId) -> bool
    ensures { IsTrue result ↔ (a ≡ b) }
{
    a == b
}

/// Ids are equal where their numbers are.
pub fn interface_ids(a: InterfaceId, b: InterfaceId) -> bool
    ensures { IsTrue result ↔ (a ≡ b) }
{
    a == b
}

/// Ids are equal where their numbers are.
pub fn world_ids(a: WorldId, b: WorldId) -> bool
    ensures { IsTrue result ↔ (a ≡ b) }
{
    a == b
}

/// Ids are equal where their numbers are.
pub fn module_type_ids(a: ModuleTypeId, b: ModuleTypeId) -> bool
    ensures { IsTrue result ↔ (a ≡ b) }
{
    a == b
}

/// Primitive types are equal where they are one variant.
pub fn primitive_types(a: PrimitiveType, b: PrimitiveType) -> bool
    ensures { IsTrue result ↔ (a ≡ b) }
{
    a == b
}

/// Types of values are equal where their variants and what they name are.
pub fn value_types(a: ValueType, b: ValueType) -> bool
    ensures { IsTrue result ↔ (a ≡ b) }
{
    a == b
}

/// Types are equal where their variants and what they name are.
pub fn types(a: Type, b: Type) -> bool
    ensures { IsTrue result ↔ (a ≡ b) }
{
    a == b
}

/// Kinds are equal where their variants and what they name are.
pub fn item_kinds(a: ItemKind, b: ItemKind) -> bool
    ensures { IsTrue result ↔ (a ≡ b) }
{
    a == b
}

/// Sorts are equal where they are one variant.
pub fn sorts(a: Sort, b: Sort) -> bool
    ensures { IsTrue result ↔ (a ≡ b) }
{
    a == b
}

/// Aliases are equal where their owners and their sources are.
pub fn resource_aliases(a: ResourceAlias, b: ResourceAlias) -> bool
    ensures { IsTrue result ↔ (a ≡ b) }
{
    a == b
}

/// Reasons are equal where their numbers are.
pub fn reasons(a: Reason, b: Reason) -> bool
    ensures { IsTrue result ↔ (a ≡ b) }
{
    a == b
}
