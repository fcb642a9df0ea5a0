//! The packages of the folders that an editor has open: which documents and components have them, what is wrong with a
//! document that mentions them, and where they are declared.
//!
//! ```text
//! let mut workspace = Workspace::new(alloc, folders);
//! let contents = read_folders(alloc, &mut files, &workspace)?;
//! workspace.take(alloc, contents)?;
//! let changed = workspace.open(alloc, path, uri, text)?;              // an open text stands before its file
//! let found = workspace.diagnose(alloc, path, text)?;                 // as `wacx check` says it
//! let seen = workspace.at(path);                                      // what is known for a document
//! let declared = seen.declaration_at(alloc, text, offset)?;           // of `new a:b`, of `a:b/i`, of `use a:b/i.{t}`, of `x.f`
//! let described = seen.described_at(alloc, text, offset)?;            // the same, and of components what is shown of them
//! let names = seen.names_at(alloc, text, offset)?;                    // in `new a:b { `, after `x.`, `new ` and `use `
//! if let Some(contents) = read_files(alloc, &mut files, &workspace, paths)? {
//!     workspace.take_files(alloc, contents)?;                         // files that were changed, and no others
//! }
//! let mended = workspace.mended(alloc, path, text)?;                  // what `diagnose` says, with edits that mend it
//! let saved = workspace.saved_documents(alloc)?;                      // the documents of the folders, as their files have them
//! ```
//!
//! A document has a package if it has no target and no statement but those of types; every other one is a composition.
#![tactic(auto)]

mod changed;
mod components;
mod contents;
mod declarations;
mod declaring;
mod denoting;
mod details;
mod hovering;
mod kinds;
mod mending;
mod mentions;
mod named;
mod offering;
mod packages;
mod paths;
mod places;
mod roots;
mod saved;
mod searching;
mod sources;
mod telling;
mod walk;
mod workspace;

pub use changed::{FileContents, read_files};
pub use contents::{FolderContents, read_folders};
pub use declarations::Declaration;
pub use hovering::Described;
pub use kinds::is_declaration;
pub use mending::Mended;
pub use mentions::Concerned;
pub use offering::{Offer, Offered, Offers};
pub use roots::Seen;
pub use saved::SavedDocument;
pub use workspace::{Taken, Workspace};
