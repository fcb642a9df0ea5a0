//! The names of a document: where each is bound, and where it is used.
//!
//! ```text
//! let source = "package a:b; import log: func(); export log;";
//! if let Some(names) = Names::of_text(alloc, source)? {    // `None` where the text is no document
//!     let name = names.definition_at(40);                 // `log` of the import, at 20+3
//!     let uses = names.references_at(alloc, 20)?;         // `log` of the export, at 40+3
//! }
//! ```
//!
//! Offsets are in bytes. One just after a name's last letter is at the name.
#![tactic(auto)]

mod declarations;
mod documents;
mod expressions;
mod finder;
mod found;
mod includes;
mod interfaces;
mod known;
mod names;
mod paths;
mod place;
mod scopes;
mod standing;
mod steps;
mod texts;
mod tied;
mod types;
mod uses;
mod worlds;

pub use found::Found;
pub use names::{Kind, Mention, Name, Names, touches};
pub use tied::{is_same, name_in, without_percent};
