//! What an instance is required for.

use std::fmt;

/// What an instance is required for.
#[derive(Clone, Copy, Debug, PartialEq, Eq, Hash)]
pub enum InstanceOperation {
    /// Access to one of its exports.
    Access,
    /// A spread of its exports.
    Spread,
}

impl fmt::Display for InstanceOperation {
    ghost use Rattle.std.specs.Prelude.{Some};
    ghost use Rattle.wac_resolution_errors.specs.Messages.{operation_word};
    ghost use Rattle.wac_resolution_errors.specs.ErrorModel.{operation_of};

    ghost output = { λ operation. Some (operation_word (operation_of operation)) };

    fn fmt<W: fmt::Write>(&self, f: &mut fmt::Formatter<W>) -> fmt::Result {
        match *self {
            InstanceOperation::Access => f.write_str("an access operation"),
            InstanceOperation::Spread => f.write_str("a spread operation"),
        }
    }
}
