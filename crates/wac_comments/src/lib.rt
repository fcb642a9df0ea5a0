//! The comments of WAC texts, and a printer that keeps them.
//!
//! [`comments`] lists the comments of a text with their spans and kinds. [`tidy`] prints a document in the one layout, with every
//! comment in its place:
//!
//! ```text
//! match tidy(alloc, source, Options::default()) {
//!     Ok(text) => println!(rt; "{text}")?,
//!     Err(error) => println!(rt; "{error}")?,         // expected `;`, found end of input
//! }
//! ```
#![tactic(auto)]

mod error;
mod listing;
mod options;
mod testing;
mod tidying;

pub use error::TidyError;
pub use listing::{Comment, CommentKind, comments};
pub use options::{Indent, LineEnd, Options};
pub use tidying::tidy;
