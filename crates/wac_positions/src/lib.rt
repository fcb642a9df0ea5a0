//! Lines and columns of a text.
#![tactic(auto)]

mod laws;
mod lines;
mod place;

pub use laws::texts_without_line_ends_have_one_line;
pub use lines::Lines;
pub use place::{ColumnUnit, Place};
