//! What a language server answers about the names of a document: where one is bound and used, what is said of it, and the
//! edits that give it another name.
//!
//! ```text
//! let source = "package a:b; import log: func(); export log;";
//! let name = definition_at(alloc, source, 40)?;        // `log` of the import, at 20+3
//! let uses = references_at(alloc, source, 20)?;        // `log` of the export, at 40+3
//! let edits = rename(alloc, source, 40, "write")?;     // `write as log` at 20+3, `write` at 40+3
//! let hover = hover_at(alloc, source, 40)?;            // `import log: func();`, without docs
//! ```
//!
//! A text with faults has answers too: its faulty statements are blanked before, so that names in them stand for nothing.
#![tactic(auto)]

mod applied;
mod bodies;
mod declarations;
mod declared;
mod edits;
mod entries;
mod exports;
mod forms;
mod hover;
mod includes;
mod lexed;
mod occurrences;
mod origins;
mod reading;
mod refusals;
mod renaming;
mod sound;
mod spelling;
mod taken;

pub use declared::declared_hover;
pub use edits::Edit;
pub use hover::{Hover, hover_at};
pub use occurrences::{Occurrences, definition_at, occurrences_at, references_at};
pub use refusals::{RenameError, Stopped};
pub use renaming::rename;
