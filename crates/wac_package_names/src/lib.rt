//! Names of packages and of what they import and export, for those who write them: keys as texts, names of compatible
//! versions, and the names that are nearest to one; and where a document instantiates packages and accesses exports.
#![tactic(auto)]

mod finding;
mod instantiations;
mod keys;
mod nearest;
mod versions;

pub use finding::find_instantiations;
pub use instantiations::{Access, Instantiation, Instantiations};
pub use keys::{key_named, push_key};
pub use nearest::{nearest_packages, push_all, push_near};
pub use versions::{are_compatible_names, compatible_name, same_but_version};
