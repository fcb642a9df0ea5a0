//! Part of `wac_resolution`: why a document can't be resolved.
#![tactic(auto)]

mod error;
mod laws;
mod message;
mod operation;

pub use error::{Error, ResolutionResult};
pub use laws::operations_are_compared;
pub use operation::InstanceOperation;
