//! A language server: its state, and what it answers to a message.
//!
//! ```text
//! let mut server = Server::new(alloc, VERSION);
//! let outcome = step(alloc, &mut server, &body)?;      // the messages that it sends, and the status with which it ends
//! ```
#![tactic(auto)]

mod actions;
mod applying;
mod capabilities;
mod completing;
mod diagnostics;
mod differing;
mod documents;
mod folding;
mod formatting;
mod hovering;
mod members;
mod navigation;
mod pieces;
mod places;
mod questions;
mod ranging;
mod selecting;
mod server;
mod statements;
mod symbols;
mod telling;
mod tokens;

pub use actions::Mend;
pub use completing::Suggestion;
pub use documents::Document;
pub use server::{Outcome, Sent, Server, answer, sends_reply, step};
pub use symbols::SavedText;
