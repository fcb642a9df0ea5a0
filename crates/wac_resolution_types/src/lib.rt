//! Part of `wac_resolution`: types, function types and declarations of types, resolved into the table of a graph; what
//! the items of a body declare.
#![tactic(auto)]

mod aliases;
mod body;
mod declarations;
mod func;
mod items;
mod method_names;
mod names_alone;
mod new_name;
mod owner;
mod place;
mod records;
mod resource;
mod resource_methods;
mod results;
mod section;
mod types;
mod variants;

pub use aliases::alias;
pub use body::Body;
pub use declarations::type_decl;
pub use func::{constructor, function, method};
pub use items::item;
pub use names_alone::{enumeration, flags};
pub use new_name::check_extern;
pub use owner::Owner;
pub use place::Place;
pub use records::record;
pub use section::Section;
pub use types::value_type;
pub use variants::variant;
