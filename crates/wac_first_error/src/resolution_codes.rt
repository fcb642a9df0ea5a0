//! Codes of the errors of resolving.
ghost use Rattle.std.specs.Prelude.{◌≡◌};
ghost use Rattle.wac_resolution_errors.specs.ErrorModel.{error_model};
ghost use Rattle.wac_first_error.specs.Codes.{resolution_code};

use wac_resolution_errors::Error;

/// The code of an error of resolving: the kebab form of its variant's name.
pub fn resolution_code(error: &Error) -> &'static str
    ensures { result.now ≡ resolution_code (error_model error.now) }
{
    match error {
        Error::UndefinedName { .. } => "wac::undefined-name",
        Error::DuplicateName { .. } => "wac::duplicate-name",
        Error::DuplicateInterfaceExport { .. } => "wac::duplicate-interface-export",
        Error::DuplicateWorldItem { .. } => "wac::duplicate-world-item",
        Error::NotFuncOrInterface { .. } => "wac::not-func-or-interface",
        Error::NotInterface { .. } => "wac::not-interface",
        Error::DuplicateWorldIncludeName { .. } => "wac::duplicate-world-include-name",
        Error::NotWorld { .. } => "wac::not-world",
        Error::MissingWorldInclude { .. } => "wac::missing-world-include",
        Error::WorldIncludeConflict { .. } => "wac::world-include-conflict",
        Error::UndefinedInterfaceType { .. } => "wac::undefined-interface-type",
        Error::NotInterfaceValueType { .. } => "wac::not-interface-value-type",
        Error::DuplicateResourceConstructor { .. } => "wac::duplicate-resource-constructor",
        Error::DuplicateResourceMethod { .. } => "wac::duplicate-resource-method",
        Error::DuplicateVariantCase { .. } => "wac::duplicate-variant-case",
        Error::DuplicateRecordField { .. } => "wac::duplicate-record-field",
        Error::DuplicateEnumCase { .. } => "wac::duplicate-enum-case",
        Error::DuplicateFlag { .. } => "wac::duplicate-flag",
        Error::InvalidAliasType { .. } => "wac::invalid-alias-type",
        Error::NotFuncType { .. } => "wac::not-func-type",
        Error::NotResourceType { .. } => "wac::not-resource-type",
        Error::NotValueType { .. } => "wac::not-value-type",
        Error::DuplicateParameter { .. } => "wac::duplicate-parameter",
        Error::DuplicateResult { .. } => "wac::duplicate-result",
        Error::BorrowInResult { .. } => "wac::borrow-in-result",
        Error::UnknownPackage { .. } => "wac::unknown-package",
        Error::PackageMissingExport { .. } => "wac::package-missing-export",
        Error::PackagePathMissingExport { .. } => "wac::package-path-missing-export",
        Error::MissingComponentImport { .. } => "wac::missing-component-import",
        Error::MismatchedInstantiationArg { .. } => "wac::mismatched-instantiation-arg",
        Error::DuplicateInstantiationArg { .. } => "wac::duplicate-instantiation-arg",
        Error::MissingInstantiationArg { .. } => "wac::missing-instantiation-arg",
        Error::NotAnInstance { .. } => "wac::not-an-instance",
        Error::MissingInstanceExport { .. } => "wac::missing-instance-export",
        Error::ExportRequiresAs { .. } => "wac::export-requires-as",
        Error::DeclarationConflict { .. } => "wac::declaration-conflict",
        Error::ExportConflict { .. } => "wac::export-conflict",
        Error::DuplicateExternName { .. } => "wac::duplicate-extern-name",
        Error::InvalidExternName { .. } => "wac::invalid-extern-name",
        Error::UseConflict { .. } => "wac::use-conflict",
        Error::FillArgumentNotLast { .. } => "wac::fill-argument-not-last",
        Error::SpreadInstantiationNoMatch { .. } => "wac::spread-instantiation-no-match",
        Error::SpreadExportNoEffect { .. } => "wac::spread-export-no-effect",
        Error::ImportNotInTarget { .. } => "wac::import-not-in-target",
        Error::MissingTargetExport { .. } => "wac::missing-target-export",
        Error::TargetMismatch { .. } => "wac::target-mismatch",
        Error::Memory(_) => "wac::out-of-memory",
    }
}
