//! A user's crate over `wac_parser`: what a formatter, an editor service and a checker of packages do with it. README.md and docs/ quote it.
#![tactic(auto)]

mod cached;
mod composing;
mod errors;
mod formatting;
mod imports;
mod json;
mod lines;
mod missing;
mod packages;
mod tokens;

pub use cached::{error_with_cache, missing_beside_cache};
pub use composing::{SameTypes, composition_error};
pub use errors::first_error;
pub use formatting::{formatted, is_formatted};
pub use imports::imported_packages;
pub use json::{put_json, to_json};
pub use lines::position;
pub use missing::missing_packages;
pub use packages::{cache, cache_alone};
pub use tokens::list_tokens;
