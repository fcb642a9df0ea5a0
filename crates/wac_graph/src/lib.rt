//! The graph of a composition of components: what a document of the composition language denotes.
//!
//! A [`CompositionGraph`] holds *nodes*: imports, definitions, aliases of the exports of instances, and instances of
//! packages. Edges go from earlier nodes to later ones: from an instance to its alias, and from an argument to the
//! instantiation that it is given to. Besides, it holds which node is imported or exported under which name, the
//! packages that were added, and one table with the types of all of these.
//!
//! The types, what they mean, packages and rules are those of `wac_graph_types`, whose names are re-exported: a table's
//! entries name earlier entries by number, and two kinds are the same when they mean the same, whatever their numbers
//! are. A resource is its origin: two resources of one name are two. [`copy_types`] copies a package's table into the
//! graph's, each entry with its numbers moved by that table's length.
//!
//! Building calls take what their contract requires, which the readings show, and fail only where memory runs out;
//! then the graph is as before, except that [`add_package`](CompositionGraph::add_package) may have added types.
//! Contracts see the graph as its lists, in the order in which things were added.
#![tactic(auto)]

mod copied;
mod copy;
mod equal;
mod graph;
mod held_nodes;
mod ids;
mod laws;
mod named;
mod node;
mod package_key;
mod packages;

pub use copied::copy_types;
pub use copy::{copy_items, copy_text};
pub use graph::CompositionGraph;
pub use ids::{Nodes, Packages};
pub use named::Names;
pub use node::{NodeId, NodeKind, PackageId};
pub use package_key::PackageKey;
pub use packages::GraphPackage;
pub use wac_graph_types::{
    DefinedType, DefinedTypeId, Entry, ExternKind, FuncKind, FuncResults, FuncType, FuncTypeId,
    Interface, InterfaceId, ItemKind, ModuleTypeId, Package, PackageError, PrimitiveType, Reason,
    Resource, ResourceAlias, ResourceId, Rules, Type, Types, UsedType, ValueType, World, WorldId,
    names,
};
