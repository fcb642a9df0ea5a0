//! Part of `wac_resolution`: what statements are resolved over. The graph so far, with the names of a scope and what
//! identifiers denote; paths, what they resolve to, and the packages that they bring into the graph; the composition
//! that the graph represents, with the names at root, and accesses to the exports of instances.
#![tactic(auto)]

mod context;
mod find;
mod foreign;
mod key;
mod laws;
mod members;
mod named;
mod names;
mod node;
mod own;
mod packages;
mod paths;
mod postfix;
mod root;
mod scope;
mod state;

pub use context::Context;
pub use find::find_name;
pub use key::package_key;
pub use laws::{expanding_goes_on, growing_expands, scopes_are_kept};
pub use named::{kind_of, named_resource, named_type};
pub use names::Names;
pub use node::{instance, instance_id, name_node, own_name};
pub use packages::package;
pub use paths::{path, use_path, world_ref};
pub use postfix::{access, accesses, alias};
pub use root::Root;
pub use scope::{Given, Scope};
pub use state::State;
