//! Part of `wac_comments`: the pieces of a text, what printing changes about its tokens, and the layout that keeps
//! comments.
#![tactic(auto)]

mod brackets;
mod columns;
mod following;
mod joints;
mod layout;
mod nesting;
mod parts;
mod pieces;
mod places;
mod printing;
mod separators;
mod standing;
mod without_comments;
mod writer;

pub use layout::lay_out;
pub use nesting::{too_deep, too_deep_among};
pub use pieces::{Piece, ReadError, read};
pub use printing::printed;
pub use standing::stand_in;
pub use without_comments::plain;
pub use writer::Style;
