//! The names that imports and exports of components may have.
#![tactic(auto)]

mod names;
mod versions;
mod words;

pub use names::is_extern_name;
