// Why no graph is shown.
ghost use Rattle.wac_calls.specs.Graphs.{IsErrorOfDocument};

use crate::handed_over::ComponentFault;
use std::alloc::AllocError;
use wac_ast::Error as ParseError;
use wac_declared_packages::{DeclarationError, DeclarationFault};
use wac_resolution::Error as ResolutionError;

/// Why no graph is shown.
#[derive(Debug, Drop)]
pub(crate) enum GraphError {
    /// The text is no document.
    Parse(ParseError),
    /// The document breaks a rule.
    Resolution(ResolutionError),
    /// One of the texts of packages declares none.
    Package(DeclarationFault),
    /// One of the components makes no package.
    Component(ComponentFault),
    /// Memory ran out.
    Memory(AllocError),
}

/// What is returned where texts declare no packages.
pub(crate) fn of_fault(fault: DeclarationFault) -> GraphError
    ensures { IsErrorOfDocument result }
{
    let DeclarationFault { text, error } = fault;
    match error {
        DeclarationError::Memory(refused) => GraphError::Memory(refused),
        error => GraphError::Package(DeclarationFault { text, error }),
    }
}
