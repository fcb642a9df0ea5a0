//! The package of a component's bytes, or what is wrong with them; and packages compared by the component model's rules:
//! whether the component of one fits the world of another, and whether two packages are the same.
//!
//! ```text
//! match component_package(alloc, &bytes)? {
//!     Converted::Package(package) => ..,
//!     Converted::Rejected(diagnostic) => ..,      // error[wac::component-index]: at byte 33: index out of range
//! }
//! ```
#![tactic(auto)]

mod codes;
mod comparing;
mod defined;
mod errors;
mod implied;
mod parts;
mod reading;

pub use comparing::{difference, misfit};
pub use defined::{ROOT, defined_world, with_defined_world, with_root};
pub use errors::{NOT_EXPRESSIBLE, TOO_LARGE, conversion_diagnostic, decode_diagnostic};
pub use implied::with_implied_imports;
pub use reading::{Converted, STEPS, component_package};
