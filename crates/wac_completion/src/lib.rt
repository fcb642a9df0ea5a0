//! What can stand at an offset of a text.
//!
//! ```text
//! kinds_at(alloc, "package a:b; let x = ", 21)?;                  // `new`, `(` and an identifier
//! kinds_at(alloc, "package a:b; le", 15)?;                        // all that begins a statement: the word is cut off
//! completions_at(alloc, "package a:b; le", 15)?;                  // `let`
//! names_at(alloc, "package a:b; import log: func(); export ", 40)?;   // `log`, at 20+3
//! package_at(alloc, "package a:b; let x = new c:", 27)?;          // `c:`, at 25: a name of a package
//! ```
//!
//! Offsets are in bytes. Nothing can stand in a comment or in a string.
#![tactic(auto)]

mod begun;
mod closed;
mod completions;
mod copies;
mod foreign;
mod foreign_names;
mod front;
mod kind;
mod kinds;
mod names;
mod packages;
mod word;
mod written;

pub use completions::{Completed, Completion, Completions, completions_at};
pub use foreign::{Asked, Foreign, Origin, foreign_at};
pub use foreign_names::{ForeignName, foreign_name_at};
pub use kinds::{kinds_after, kinds_at};
pub use names::{Candidate, names_at};
pub use packages::{PackageWord, package_at};
