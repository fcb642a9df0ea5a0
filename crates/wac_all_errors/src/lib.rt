//! All errors of what a file holds, as diagnostics, with the edits that mend them.
//!
//! ```text
//! for finding in all_errors(alloc, bytes, true, 100)? {
//!     print(human(alloc, "app.wac", bytes, &finding.diagnostic, false)?);
//! }
//! ```
#![tactic(auto)]

mod blanking;
mod codes;
mod collecting;
mod finding;
mod first;
mod resolving;

pub use collecting::all_errors;
pub use finding::Finding;
