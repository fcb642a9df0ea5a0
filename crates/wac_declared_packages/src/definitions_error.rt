//! Why the definitions of a graph make no package.

use std::alloc::AllocError;
use std::fmt;
use wac_graph_types::PackageError;

/// Why the definitions of a graph make no package.
#[derive(Debug, Drop)]
pub enum DefinitionsError {
    /// No world is defined under the name that was asked for.
    NoSuchWorld,
    /// The parts make no package, or memory ran out. No graph is known whose parts don't.
    Parts(PackageError),
}

impl fmt::Display for DefinitionsError {
    fn fmt<W: fmt::Write>(&self, f: &mut fmt::Formatter<W>) -> fmt::Result {
        match self {
            DefinitionsError::NoSuchWorld => f.write_str("the package defines no such world"),
            DefinitionsError::Parts(error) => write!(f, "{error}"),
        }
    }
}

impl std::error::Error for DefinitionsError {}

impl From<AllocError> for DefinitionsError {
    ghost use Rattle.std.specs.Prelude.{◌≡◌};
    ghost use Rattle.wac_declared_packages.specs.declared.definitions_error.DefinitionsError.TheVariants as errors;
    ghost use Rattle.wac_graph_types.specs.declared.package.PackageError.TheVariants as faults;

    ghost from_gives = { λ refused e. e ≡ errors.Parts (faults.Memory refused) };

    fn from(refused: AllocError) -> DefinitionsError {
        DefinitionsError::Parts(PackageError::Memory(refused))
    }
}
