//! A language server that knows the packages of its client's folders, and its loop over a reader, a writer and files.
//!
//! ```text
//! let mut files = Disk;
//! let status = serve(alloc, &mut input, &mut output, &mut files, VERSION)?;      // 0 after shutdown and exit
//! ```
//!
//! [`Session::step`] answers a message without reading a file: it says when the folders are to be read, and
//! [`Session::take`] takes what was read of them.
#![tactic(auto)]

mod completions;
mod definitions;
mod hovering;
mod mending;
mod refreshing;
mod serving;
mod session;
mod symbols;
mod watching;

pub use serving::{ServeError, serve};
pub use session::{Reads, Session, Stepped};
