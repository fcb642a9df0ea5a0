//! The bytes of a component, read one by one: numbers, counts and names, with the offset of what is wrong.
//!
//! A [`Reader`] is a place in the bytes, an end, and the work that is left: each byte that is read takes a unit of it.
#![tactic(auto)]

mod error;
mod laws;
mod reader;

pub use error::{DecodeError, ErrorKind, error_at, found};
pub use laws::three_groups_are_a_number;
pub use reader::Reader;
