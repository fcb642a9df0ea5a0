//! Errors of parsing, of resolving and of parts, as errors of declarations: only [`DeclarationError::Memory`] says that
//! memory ran out.
ghost use Rattle.wac_declared_packages.specs.Refusing.{IsOfParts, IsOfResolving};

use crate::error::DeclarationError;
use wac_graph::PackageError;
use wac_resolution::Error;

/// The error of a text that has no tree.
pub(crate) fn of_parsing(error: wac_ast::Error) -> DeclarationError {
    match error {
        wac_ast::Error::Memory(refused) => DeclarationError::Memory(refused),
        error => DeclarationError::Syntax(error),
    }
}

/// The error of a document that can't be resolved.
pub(crate) fn of_resolving(error: Error) -> DeclarationError
    ensures { IsOfResolving error result }
{
    match error {
        Error::Memory(refused) => DeclarationError::Memory(refused),
        error => DeclarationError::Resolution(error),
    }
}

/// The error of parts that make no package.
pub(crate) fn of_parts(error: PackageError) -> DeclarationError
    ensures { IsOfParts result }
{
    match error {
        PackageError::Memory(refused) => DeclarationError::Memory(refused),
        error => DeclarationError::Parts(error),
    }
}
