//! Component binaries, decoded: what the world of a component imports and exports.
//!
//! Nothing is run, and nothing is encoded. Sections are evaluated once and in order. A component within the component
//! is kept as a range of bytes until it is instantiated or exported, and is then evaluated with the arguments in place
//! of its imports; the type of an instance or a component is evaluated anew where something is of that type.
#![tactic(auto)]

mod aliases;
mod bodies;
mod canon;
mod core_types;
mod declarations;
mod decoded;
mod decoder;
mod frame;
mod instances;
mod limits;
mod sections;
mod types;

pub use decoded::{Decoded, Definition, decode};
pub use limits::Limits;
pub use wac_components_bytes::{DecodeError, ErrorKind};
