//! A composition graph for people and for programs: as lines, as JSON, and for Graphviz.
//!
//! ```text
//! let picture = Picture::of(alloc, &graph, &places)?;
//! let text = json(alloc, &picture)?;
//! ```
//!
//! `docs/GRAPH.md` describes the three forms.
#![tactic(auto)]

mod drawing;
mod forms;
mod lines;
mod objects;
mod open;
mod picture;
mod places;
mod rows;

pub use drawing::dot;
pub use forms::{Form, drawn, exact_json};
pub use lines::text;
pub use objects::json;
pub use open::{OpenImport, open_imports};
pub use picture::Picture;
pub use places::bound_places;
pub use rows::{NodeRow, Source};
