//! The commands of `wacx` that know packages, over any files and any writers.
//!
//! [`check_with_packages`] and [`check_input_with_packages`] are `wacx check`, [`list_packages`] is `wacx packages`,
//! [`show_graph`] is `wacx graph`, and [`check_target`] is `wacx targets`. Documents declare packages, or components have
//! them; `docs/PACKAGES.md` says how, and where they are found. [`show_package`] is `wacx package`.
#![tactic(auto)]

mod agreeing;
mod checking;
mod declarations;
mod errors;
mod faults;
mod graphing;
mod graphs;
mod listing;
mod mentions;
mod options;
mod reading;
mod requests;
mod showing_package;
mod sources;
mod supplies;
mod supply;
mod tally;
mod targets;
mod telling;
mod verdicts;
mod worlds;

pub use checking::{InputText, check_input_with_packages, check_with_packages};
pub use graphing::show_graph;
pub use listing::list_packages;
pub use options::Given;
pub use requests::{GraphRequest, PackageForm, PackageRequest, TargetRequest};
pub use showing_package::show_package;
pub use targets::check_target;
pub use wac_components_words::is_key as is_package_key;
pub use wac_graph_outputs::Form;
