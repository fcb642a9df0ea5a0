//! What the words of `wac` and `wacx` make of texts in memory, for callers who bring the room for what is written.
//!
//! ```text
//! let task = Task { word: Word::Wac(Command::Fmt), limit: DEFAULT_LIMIT };
//! let (mut out, mut message) = ([0; 4096], [0; 256]);
//! let answer = call(alloc, task, b"package a:b; ", &mut out, &mut message);
//! // answer.status is Status::Well, answer.written is 14, and out begins with b"package a:b;\n\n"
//! ```
//!
//! Where the room is too small, `needed` says how many bytes there are, and a second call with so much room has them
//! all. Nothing is kept between calls. Beside `call`, `graph` does the same with the graph of a text as JSON, with
//! packages that other texts declare or that components have.
#![tactic(auto)]

mod answer;
mod calls;
mod commands;
mod components;
mod composition;
mod diagnostics;
mod error;
mod feed;
mod first_errors;
mod frames;
mod graphs;
mod handed_over;
mod nesting;
mod outcome;
mod packages;
mod room;
mod tidying;
mod word;

pub use answer::{Answer, Status};
pub use calls::{DEFAULT_LIMIT, Task, call};
pub use composition::{Composition, graph};
pub use wac_tool::Command;
pub use word::{Word, word_of};
