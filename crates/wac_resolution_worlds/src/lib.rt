//! Part of `wac_resolution`: interfaces and worlds, the types that they use of other interfaces, and what including a
//! world adds to a world.
#![tactic(auto)]

mod declared;
mod extern_items;
mod externs;
mod functions;
mod include_clause;
mod include_names;
mod includes;
mod inclusion;
mod instances;
mod interfaces;
mod outer_scope;
mod take;
mod use_statements;
mod used_interface;
mod used_item;
mod used_items;
mod world_items;
mod worlds;

pub use declared::{interface_decl, world_decl};
pub use externs::named_extern;
pub use functions::{func_ref, new_func};
pub use include_clause::entries;
pub use inclusion::Inclusion;
pub use instances::instance_id;
pub use interfaces::interface;
pub use outer_scope::OuterScope;
pub use worlds::world;
