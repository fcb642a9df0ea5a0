//! What is said of documents that declare no packages.

use crate::known::KnownPackages;
use crate::order::order_help;
use crate::texts::text_at;
use crate::unknown::unknown_help;
use crate::wit::syntax_diagnostic;
use std::alloc::{AllocError, Global};
use wac_ast::Document;
use wac_declared_packages::DeclarationError;
use wac_diagnostics::Diagnostic;
use wac_first_error::{parse_code, resolution_code, resolution_diagnostic};
use wac_lexer::SourceSpan;
use wac_package_names::key_named;
use wac_printer::Page;
use wac_resolution::packages;
use wac_resolution_errors::Error;

/// The code of an error of declaring a package.
fn declaration_code(error: &DeclarationError) -> &'static str {
    match error {
        DeclarationError::Syntax(error) => parse_code(error),
        DeclarationError::OtherStatement(_) => "wac::other-statement",
        DeclarationError::Targets(_) => "wac::targeted-declaration",
        DeclarationError::NoSuchWorld(_) => "wac::no-such-world",
        DeclarationError::DeclaredTwice(_) => "wac::declared-twice",
        DeclarationError::UnknownPackage(_) => "wac::unknown-package",
        DeclarationError::Cycle(_) => "wac::package-cycle",
        DeclarationError::TooLarge(_) => "wac::packages-too-large",
        DeclarationError::Resolution(error) => resolution_code(error),
        DeclarationError::Parts(_) | DeclarationError::Unmade => "wac::no-package",
        DeclarationError::Memory(_) => "wac::out-of-memory",
    }
}

/// What can be done about an error, where that is clear.
fn help_for(error: &DeclarationError) -> Option<&'static str> {
    match error {
        DeclarationError::OtherStatement(_) => Some(
            "a file of --packages has interfaces, worlds and types; check compositions as APP.wac",
        ),
        DeclarationError::Targets(_) => Some("remove it: a declaration composes nothing"),
        DeclarationError::NoSuchWorld(_) => Some("name one of its worlds by --world"),
        DeclarationError::Cycle(_) => Some("move what both need into a package of its own"),
        DeclarationError::TooLarge(_) => Some(
            "let packages mention fewer of those that mention others",
        ),
        _ => None,
    }
}

/// What is said of an error that is none of parsing and of resolving, without a help.
fn own_diagnostic(alloc: Global, error: &DeclarationError) -> Result<Diagnostic, AllocError> {
    let message = format!(in alloc; "{error}")?;
    let code = declaration_code(error);
    Ok(match error.span() {
        Some(span) => Diagnostic::at(code, message, span),
        None => Diagnostic::without_place(code, message),
    })
}

/// The same with a help.
fn own_with_help(alloc: Global, error: &DeclarationError) -> Result<Diagnostic, AllocError> {
    let mut diagnostic = own_diagnostic(alloc, error)?;
    diagnostic.help = copied(alloc, help_for(error))?;
    Ok(diagnostic)
}

/// What is said of a text whose package an earlier one declares. The help names the document of that.
fn declared_twice(
    alloc: Global,
    text: &str,
    error: &DeclarationError,
    place: SourceSpan,
    known: KnownPackages<'_>,
) -> Result<Diagnostic, AllocError> {
    let mut diagnostic = own_diagnostic(alloc, error)?;
    let key = key_named(alloc, text_at(text, place))?;
    let name = known.document_of(&key).unwrap_or("another one");
    diagnostic.help = Some(format!(in alloc; "{name} declares it too: leave out one of the two")?);
    Ok(diagnostic)
}

/// A copy of a text, if there is one.
fn copied(alloc: Global, text: Option<&str>) -> Result<Option<String>, AllocError> {
    match text {
        None => Ok(None),
        Some(text) => Ok(Some(String::from_str(alloc, text)?)),
    }
}

/// The name of a package at a place, without its version.
fn package_at(text: &str, place: SourceSpan) -> &str {
    let package = text_at(text, place);
    match package.split_once('@') {
        Some((name, _)) => name,
        None => package,
    }
}

/// What can be done about the package that a text mentions at a place.
fn help_at(
    alloc: Global,
    text: &str,
    place: SourceSpan,
    known: KnownPackages<'_>,
) -> Result<Option<String>, AllocError> {
    match Document::parse(alloc, text) {
        Ok(document) => help_in(
            Page {
                document: &document,
            },
            alloc,
            place,
            known,
        ),
        // It was parsed before, so only memory runs out.
        Err(_) => Err(AllocError),
    }
}

/// The same of a document.
fn help_in(
    page: Page<'_, '_>,
    alloc: Global,
    place: SourceSpan,
    known: KnownPackages<'_>,
) -> Result<Option<String>, AllocError> {
    let Page { document } = page;
    match packages(alloc, document) {
        Ok(mentioned) => unknown_help(alloc, known, &mentioned, place),
        Err(refused) => Err(refused),
    }
}

/// What is said of a package that no document declares.
fn unknown_package(
    alloc: Global,
    text: &str,
    place: SourceSpan,
    known: KnownPackages<'_>,
) -> Result<Diagnostic, AllocError> {
    let name = package_at(text, place);
    let message = format!(in alloc; "unknown package `{name}`")?;
    let mut diagnostic = Diagnostic::at("wac::unknown-package", message, place);
    diagnostic.help = help_at(alloc, text, place, known)?;
    Ok(diagnostic)
}

/// What can be done about an error of resolving, where that is clear.
fn resolving_help(
    alloc: Global,
    text: &str,
    error: &Error,
    known: KnownPackages<'_>,
) -> Result<Option<String>, AllocError> {
    match error {
        Error::UndefinedName { name, span } => {
            copied(alloc, order_help(text, name.as_str(), *span))
        }
        Error::PackageMissingExport {
            package,
            export,
            ..
        } => known.definitions_of(alloc, package.as_str(), export.as_str()),
        _ => Ok(None),
    }
}

/// What is said of a document that can't be resolved.
fn resolving_diagnostic(
    alloc: Global,
    text: &str,
    error: &Error,
    known: KnownPackages<'_>,
) -> Result<Diagnostic, AllocError> {
    let mut diagnostic = resolution_diagnostic(alloc, error)?;
    if diagnostic.help.is_none() {
        diagnostic.help = resolving_help(alloc, text, error, known)?;
    }
    Ok(diagnostic)
}

/// What is said of a text that declares no package, beside packages that others declare: the error's code, its text, its
/// place, its help. The error is that memory ran out, also where the text's error says so.
pub fn declaration_diagnostic(
    alloc: Global,
    text: &str,
    error: &DeclarationError,
    known: KnownPackages<'_>,
) -> Result<Diagnostic, AllocError> {
    match error {
        DeclarationError::Syntax(error) => syntax_diagnostic(alloc, text, error),
        DeclarationError::Resolution(error) => resolving_diagnostic(alloc, text, error, known),
        DeclarationError::UnknownPackage(place) => unknown_package(alloc, text, *place, known),
        DeclarationError::DeclaredTwice(place) => {
            declared_twice(alloc, text, error, *place, known)
        }
        DeclarationError::Memory(_) => Err(AllocError),
        _ => own_with_help(alloc, error),
    }
}
