//! What was probably meant where a text is wrong, and which edit would mend it.
//!
//! ```text
//! let text = "package a:b;\nlte x = y;\n";
//! if let Err(error) = Document::parse(alloc, text) {
//!     if let Some(hint) = parse_hint(alloc, text, &error)? {
//!         println!(rt; "{}", hint.message)?;      // did you mean `let`?
//!     }
//! }
//! ```
#![tactic(auto)]

mod advice;
mod brackets;
mod characters;
mod hints;
mod lexeme;
mod meant;
mod names;
mod scope;
mod separators;
mod similar;
mod spot;
mod symbols;
mod versions;

pub use advice::parse_hint;
pub use hints::{Edit, Hint};
pub use lexeme::begins_type;
pub use scope::undefined_name_hint;
pub use similar::nearest;
