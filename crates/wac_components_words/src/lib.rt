//! Words of WAC for what is decoded: identifiers, paths of interfaces, and keys of packages.
#![tactic(auto)]

mod paths;
mod words;

pub use paths::{Path, is_key, path_of};
pub use words::{identifier, is_token};
