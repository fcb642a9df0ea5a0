//! What can be done about errors of resolving with packages.

use crate::accesses::exports_help;
use crate::arguments::{imports_help, missing_argument};
use crate::context::Context;
use crate::known::push_definitions;
use crate::mismatches::argument_help;
use crate::spreads::spread_help;
use crate::targets::{lacking_import_help, missing_export_help, target_help};
use crate::unknown::unknown_help;
use std::alloc::{AllocError, Global};
use wac_resolution_errors::Error;

/// What can be done about an error, where packages tell.
pub(crate) fn help_with(
    alloc: Global,
    error: &Error,
    context: Context<'_>,
) -> Result<Option<String>, AllocError> {
    match error {
        Error::UnknownPackage { span, .. } => {
            unknown_help(alloc, context.known, context.mentioned, *span)
        }
        Error::PackageMissingExport {
            package,
            export,
            ..
        } => definitions_of(alloc, context, package.as_str(), export.as_str()),
        Error::MissingInstantiationArg {
            name,
            package,
            span,
        } => missing_argument(alloc, context, name.as_str(), package.as_str(), *span),
        Error::MissingComponentImport { import, span, .. } => {
            imports_help(alloc, context, import.as_str(), *span)
        }
        Error::SpreadInstantiationNoMatch { span } => spread_help(alloc, context, *span),
        _ => more_help(alloc, error, context),
    }
}

/// The same of the other errors.
fn more_help(
    alloc: Global,
    error: &Error,
    context: Context<'_>,
) -> Result<Option<String>, AllocError> {
    match error {
        Error::MissingInstanceExport { name, span } => {
            exports_help(alloc, context, name.as_str(), *span)
        }
        Error::MismatchedInstantiationArg { name, span, .. } => {
            argument_help(alloc, context, name.as_str(), *span)
        }
        Error::NotAnInstance { kind, .. } if *kind == "interface" => Ok(Some(String::from_str(
            alloc,
            "an interface is a type: import it, as in `import x: i;`, and name `x`",
        )?)),
        Error::ImportNotInTarget { name, world, .. } => {
            lacking_import_help(alloc, context, name.as_str(), world.as_str())
        }
        Error::MissingTargetExport { name, .. } => {
            missing_export_help(alloc, context, name.as_str())
        }
        Error::TargetMismatch {
            kind,
            name,
            world,
            ..
        } => target_help(alloc, context, *kind, name.as_str(), world.as_str()),
        _ => Ok(None),
    }
}

/// What the mentioned packages of a name define in place of a name.
fn definitions_of(
    alloc: Global,
    context: Context<'_>,
    package: &str,
    export: &str,
) -> Result<Option<String>, AllocError> {
    let mut help = String::new(alloc);
    for (key, _) in context.mentioned.iter() {
        if key.name.as_str() == package {
            if let Some(found) = context.known.package(key) {
                push_definitions(alloc, &mut help, (key, found), export)?;
            }
        }
    }
    if help.is_empty() {
        return Ok(None);
    }
    Ok(Some(help))
}
