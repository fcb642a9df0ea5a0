//! The types of components: a table of them, what they mean, and packages.
//!
//! [`Types`] is one vector of entries: defined types, resources, function types, interfaces and worlds. An id is an
//! entry's number, and entries name earlier ones by their ids. An [`ItemKind`] says what an item is and names an
//! entry. Entries are only appended, and each older kind keeps what it means.
//!
//! What a kind *means* is a tree with no table: the same wherever its parts are. A resource is its origin, a number
//! that distinguishes it, so two resources of one name are two. [`Types::same`] compares meanings.
//!
//! A [`Package`] is a component's types without the five faults of [`PackageError`]. [`Rules`] say which kind may be
//! used where another is expected; the caller supplies them.
#![tactic(auto)]

mod alike;
mod borrows;
mod child;
mod entry;
mod equal;
mod kind;
mod laws;
pub mod names;
mod package;
mod pairs;
mod rules;
mod types;

pub use entry::{
    DefinedType, Entry, FuncResults, FuncType, Interface, Resource, ResourceAlias, UsedType, World,
};
pub use kind::{
    DefinedTypeId, ExternKind, FuncKind, FuncTypeId, InterfaceId, ItemKind, ModuleTypeId,
    PrimitiveType, ResourceId, Type, ValueType, WorldId,
};
pub use package::{Package, PackageError};
pub use rules::{Reason, Rules};
pub use types::Types;

/// What an entry is made of, for crates that compare entries as [`Types::same`] does.
pub mod internals {
    pub use crate::alike::same_label;
    pub use crate::child::{Child, Place};
}
