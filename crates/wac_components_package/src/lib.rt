//! The package of a decoded component: its types as a table in which each entry names earlier ones.
//!
//! Types are converted after what they name, without recursion. A type that an interface has from another one is
//! among its `uses`; a resource that is another name of one is an alias.
#![tactic(auto)]

mod compounds;
mod conversion;
mod converter;
mod named;
mod worlds;

pub use conversion::{ConversionError, package_of};
