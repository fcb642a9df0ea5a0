//! What commands write where, what became of their files, and the status that follows.
//!
//! What programs read is written to [`Console`]'s output, what people read to its errors. [`finish`] ends a run: it
//! writes the last line, which counts files, and returns the status.
//!
//! ```text
//! let mut outcomes = Vec::new(alloc);
//! outcomes.push(console.failed(alloc, Report::Human, "a.wac", FileError::NotFound))?;
//! finish(alloc, console, Task::Check, outcomes.as_slice())      // 1 file, 0 with errors, 1 failed
//! ```
#![tactic(auto)]

mod console;
mod finishing;
mod input;
mod last_line;
mod options;
mod outcome;

pub use console::{Console, SourceFile};
pub use finishing::{finish, finish_input};
pub use input::{InputOptions, STDIN, read_all};
pub use last_line::Task;
pub use options::{Action, Report};
pub use outcome::{Outcome, Status};
