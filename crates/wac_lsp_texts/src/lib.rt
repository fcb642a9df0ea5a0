//! The text of a document that an editor has open: places of the editor as offsets, and the text after its changes.
//!
//! ```text
//! let text = changed(alloc, text, &changes, ColumnUnit::Utf16)?;
//! ```
#![tactic(auto)]

mod changing;
mod columns;
mod finding;
mod offsets;
mod places;
mod starts;

pub use changing::{ChangeError, changed};
pub use offsets::offset_at;
pub use places::Places;
