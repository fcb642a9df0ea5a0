//! Reading the text of a composition, resolving it into its graph, and warnings: what of a composition without an error may
//! not be meant.
#![tactic(auto)]

mod cases;
mod conflicts;
mod finding;
mod reading;
mod resolving;

pub use finding::warnings;
pub use reading::flat_text;
pub use resolving::graph_with;
