//! The first error of a text, as a diagnostic; reading bytes as a text; and the diagnostic of each error of a text: its
//! code, its help and its notes.
//!
//! [`first_error`] takes what a file holds, and says whether it is a document, or what is wrong first:
//!
//! ```text
//! match first_error(alloc, bytes, true) {
//!     Ok(Verdict::Document(text)) => ..,
//!     Ok(Verdict::Unresolved(text)) => ..,            // it mentions packages
//!     Ok(Verdict::Rejected(diagnostic)) => print(human(alloc, "app.wac", bytes, &diagnostic, false)?),
//!     Err(_) => ..,                                   // out of memory
//! }
//! ```
#![tactic(auto)]

mod finding;
mod first;
mod parsing;
mod parsing_codes;
mod reading;
mod resolution_codes;
mod resolving;
mod rules;
mod tidying;

pub use first::{Verdict, first_error};
pub use parsing::parse_diagnostic;
pub use parsing_codes::parse_code;
pub use reading::{Reading, nested_too_deep, read_text};
pub use resolution_codes::resolution_code;
pub use resolving::resolution_diagnostic;
pub use tidying::tidy_diagnostic;
