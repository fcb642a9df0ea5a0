//! The commands of the program `wacx`, over any files and any writers.
//!
//! [`format_paths`] and [`format_input`] are `wacx fmt`, [`check_paths`] and [`check_input`] are `wacx check`. Each
//! returns the status of the program. What programs read is written to [`Console`]'s output, what people read to its
//! errors.
#![tactic(auto)]

mod checking;
mod formatting;
mod line_ends;
mod options;
mod planning;

pub use checking::{check_each, check_input, check_paths};
pub use formatting::{format_each, format_input, format_paths};
pub use options::{FormatOptions, LineEnds};
pub use planning::Plan;
pub use wac_cli_console::{Action, Console, Outcome, Report, Status};
