//! The errors of a text that is no document: not only the first.
//!
//! [`recover`] finds the first error, blanks the statement in which it lies, and goes on with what is left:
//!
//! ```text
//! let recovery = recover(alloc, "package a:b; let = c; export d;", 100)?;
//! recovery.faults         // at 17+1: expected identifier, found `=`
//! recovery.text           // "package a:b;          export d;"
//! ```
#![tactic(auto)]

mod alone;
mod attempt;
mod blanked;
mod fault;
mod recovery;
mod statements;

pub use alone::fault_at;
pub use attempt::Attempt;
pub use fault::Fault;
pub use recovery::{Recovery, Round, first_round, recover};
pub use statements::begins_declaration;
