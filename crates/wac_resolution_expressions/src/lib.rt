//! Part of `wac_resolution`: instances of packages with their arguments, and expressions.
#![tactic(auto)]

mod completing;
mod expr;
mod fits;
mod given;
mod instance;
mod laws;
mod left_out;
mod meant;
mod missing;
mod named_place;
mod own_place;
mod packages;
mod places;
mod spread;
mod spread_arguments;

pub use expr::expression;
pub use instance::instantiate;
pub use laws::{extending_keeps, graphs_extend};
