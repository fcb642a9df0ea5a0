//! The documents that declare what a decoded component imports and exports: one of its own package, and one of each other
//! package whose interfaces it mentions.
//!
//! An interface that is imported and exported is declared once: as it is exported, and then what only the import has.
//! Types are declared before they are named. What WAC can't say is a comment in its place, and a warning.
#![tactic(auto)]

mod collection;
mod documents;
mod fault;
mod interfaces;
mod items;
mod line;
mod mentions;
mod order;
mod pieces;
mod resources;
mod scope;
mod steps;
mod types;
mod worlds;
mod writer;

pub use documents::{Document, Documents, documents_of};
pub use fault::DocumentsError;
