//! Places of a text, shown as compilers show them: the line, and marks below the place.
#![tactic(auto)]

mod characters;
mod gutter;
mod marked;
mod region;
mod window;

pub use characters::{is_command, push_carets, push_escaped, push_shown, push_shown_lines, shown};
pub use gutter::Paint;
pub use region::excerpt;
