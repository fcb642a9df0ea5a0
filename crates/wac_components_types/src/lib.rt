//! What a component binary is decoded to: types, instances and components in one table, and the index spaces of a scope.
//!
//! All is flat: a [`Table`] has a vector for each sort, and what names another thing does so by its number there. A
//! number's owner is made before what names it. [`Names`] has the names by which types are called: in an interface or a
//! world of its own, or where a type was first.
#![tactic(auto)]

mod closed;
mod item;
mod names;
mod references;
mod scopes;
mod table;
mod ty;

pub use closed::Counts;
pub use item::{ComponentId, CoreSort, InstanceId, Item, NameId, Sort, TypeId};
pub use names::{Names, Origin, origin_of, target};
pub use references::{Reference, reference_of};
pub use scopes::{Lengths, Scopes};
pub use table::{Component, Instance, Table};
pub use ty::{BodyKind, Func, Named, Owner, Part, Parts, TypeDef, TypeEntry, TypeSort, primitive};
