//! A part of `wac_printer`: what puts the pieces of a layout into a sink.
//!
//! A layout is a list of pieces: tokens, blanks, indentation where a line begins, lines of docs. [`Pieces`] writes
//! them, in order; the printer over it knows which piece goes where.
#![tactic(auto)]

mod arguments;
mod docs;
mod error;
mod laws;
mod pieces;

pub use error::{PrintError, PrintResult};
pub use laws::equality_reads_errors;
pub use pieces::Pieces;
