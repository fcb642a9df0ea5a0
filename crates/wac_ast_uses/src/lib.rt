//! Part of `wac_ast`: uses of an interface's types, and inclusions of worlds: trees and parsers.
#![tactic(auto)]

mod includes;
mod uses;

pub use includes::{WorldInclude, WorldIncludeItem, WorldRef};
pub use uses::{Use, UseItem, UsePath};
