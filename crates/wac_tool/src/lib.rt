//! What the program `wac` does, with any feed and any sink.
#![tactic(auto)]

mod checking;
mod command;
mod error;
mod listing;
mod packages;
mod refusing;
mod reporting;
mod resolving;
mod running;
mod transfer;

pub use command::Command;
pub use error::RunError;
pub use reporting::report;
pub use running::run;
