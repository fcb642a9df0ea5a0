//! Packages of components, beside those that documents declare: where they are looked for, which files are components,
//! what their packages are called, and what is said where a package is both declared and decoded.
#![tactic(auto)]

mod faults;
mod finding;
mod folders;
mod keys;
mod listing;
mod reading;
mod supplying;

pub use faults::{ComponentFault, Fault};
pub use finding::{ComponentFile, find_components};
pub use folders::{default_folders, folder_of};
pub use keys::is_component_file;
pub use listing::{ComponentSource, place_of};
pub use reading::{Components, Sought, read_components};
pub use supplying::{Added, Precedence, Supplied, disagreement, supply_components};
