//! Resolving: the composition graph that a document describes, or the rule that its first failing statement breaks.
//!
//! [`resolve`] resolves a document with the packages that it may mention and with [`Rules`], which say what may be used
//! where and which names imports and exports may have:
//!
//! ```text
//! match resolve(alloc, &document, packages, &rules) {
//!     Ok(resolution) => count(resolution.graph()),
//!     Err(error) => println!(rt; "{error}")?,         // undefined name `y`
//! }
//! ```
//!
//! A [`Package`] is made of [`Types`] by `Package::new`, and passed under its [`PackageKey`].
//! The graph is read by the calls of [`CompositionGraph`].

pub use wac_graph::{
    CompositionGraph, DefinedType, DefinedTypeId, Entry, ExternKind, FuncKind, FuncResults,
    FuncType, FuncTypeId, GraphPackage, Interface, InterfaceId, ItemKind, ModuleTypeId, Names,
    NodeId, NodeKind, Nodes, Package, PackageError, PackageId, PackageKey, Packages, PrimitiveType,
    Reason, Resource, ResourceAlias, ResourceId, Rules, Type, Types, UsedType, ValueType, World,
    WorldId, names,
};
pub use wac_resolution::{
    AstResolver, Error, InstanceOperation, Resolution, ResolutionResult,
    formatting_changes_no_graph, resolve,
};
