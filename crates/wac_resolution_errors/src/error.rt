//! Why a document can't be resolved.

ghost use Rattle.std.specs.Prelude.{◌≡◌, alloc_error};
ghost use Rattle.wac_resolution_errors.specs.declared.error.Error.TheVariants.{Memory};
ghost use Rattle.wac_resolution_errors.specs.Messages.{text_of};
ghost use Rattle.wac_resolution_errors.specs.Places.{span_of};
ghost use Rattle.wac_resolution_errors.specs.Shown.{shown};
ghost use Rattle.wac_resolution_errors.specs.ErrorModel.{error_model};

use crate::message::Message;
use crate::operation::InstanceOperation;
use std::alloc::{AllocError, AllocFailed};
use std::fmt::{self, Display};
use wac_graph_types::{ExternKind, FuncKind, Reason};
use wac_lexer::SourceSpan;

/// Why a document can't be resolved: the rule that the first failing statement breaks.
///
/// Spans are in bytes of the source. The `Display` is the message, without places.
#[derive(Debug, Drop)]
pub enum Error {
    /// A name denotes nothing where it is used.
    UndefinedName {
        /// The name.
        name: String,
        /// The identifier, or the segment of a path.
        span: SourceSpan,
    },
    /// A scope has the name already.
    DuplicateName {
        /// The name.
        name: String,
        /// The identifier.
        span: SourceSpan,
        /// Where the name was bound before.
        previous: SourceSpan,
    },
    /// An interface exports the name already.
    DuplicateInterfaceExport {
        /// The name.
        name: String,
        /// The name of the interface, where it has one.
        interface_name: Option<String>,
        /// The identifier.
        span: SourceSpan,
    },
    /// A world imports, or exports, the name already.
    DuplicateWorldItem {
        /// Whether it is an import or an export.
        kind: ExternKind,
        /// The name.
        name: String,
        /// The name of the world.
        world: String,
        /// The identifier or path.
        span: SourceSpan,
    },
    /// A world item is typed by something other than a function type or an interface.
    NotFuncOrInterface {
        /// The identifier.
        name: String,
        /// What it denotes.
        kind: &'static str,
        /// The identifier.
        span: SourceSpan,
    },
    /// What is used, imported or exported is no interface.
    NotInterface {
        /// The identifier, or the whole path.
        name: String,
        /// What it denotes.
        kind: &'static str,
        /// The identifier or path.
        span: SourceSpan,
    },
    /// The `with` clause of an include renames one name twice.
    DuplicateWorldIncludeName {
        /// The name.
        name: String,
        /// The second name to be renamed.
        span: SourceSpan,
    },
    /// What is included or targeted is no world.
    NotWorld {
        /// The identifier, or the whole path.
        name: String,
        /// What it denotes.
        kind: &'static str,
        /// The identifier or path.
        span: SourceSpan,
    },
    /// The `with` clause of an include renames a name that the included world does not have.
    MissingWorldInclude {
        /// The included world.
        world: String,
        /// The name.
        name: String,
        /// The name to be renamed.
        span: SourceSpan,
    },
    /// A name that an include takes over exists already.
    WorldIncludeConflict {
        /// Whether it is an import or an export.
        kind: ExternKind,
        /// The name, after it was renamed.
        name: String,
        /// The included world.
        from: String,
        /// The world that includes.
        to: String,
        /// The new name where it was renamed, else the world that is included.
        span: SourceSpan,
        /// What can be done, where no name was renamed.
        help: Option<&'static str>,
    },
    /// An interface has no type of the name that is used.
    UndefinedInterfaceType {
        /// The name.
        name: String,
        /// The interface.
        interface_name: String,
        /// The name that is used.
        span: SourceSpan,
    },
    /// What is used of an interface is neither a resource nor a type of values.
    NotInterfaceValueType {
        /// The name.
        name: String,
        /// What it denotes.
        kind: &'static str,
        /// The interface.
        interface_name: String,
        /// The name that is used.
        span: SourceSpan,
    },
    /// A resource has two constructors.
    DuplicateResourceConstructor {
        /// The name of the resource.
        resource: String,
        /// The second keyword.
        span: SourceSpan,
    },
    /// A resource has two methods of one name, static or not.
    DuplicateResourceMethod {
        /// The name of the method.
        name: String,
        /// The name of the resource.
        resource: String,
        /// The identifier.
        span: SourceSpan,
    },
    /// A variant has two cases of one name.
    DuplicateVariantCase {
        /// The name of the case.
        case: String,
        /// The name of the variant.
        name: String,
        /// The identifier.
        span: SourceSpan,
    },
    /// A record has two fields of one name.
    DuplicateRecordField {
        /// The name of the field.
        field: String,
        /// The name of the record.
        name: String,
        /// The identifier.
        span: SourceSpan,
    },
    /// An enum has two cases of one name.
    DuplicateEnumCase {
        /// The name of the case.
        case: String,
        /// The name of the enum.
        name: String,
        /// The identifier.
        span: SourceSpan,
    },
    /// Flags of one name.
    DuplicateFlag {
        /// The name of the flag.
        flag: String,
        /// The name of the flags type.
        name: String,
        /// The identifier.
        span: SourceSpan,
    },
    /// An alias of something that can have none.
    InvalidAliasType {
        /// The identifier.
        name: String,
        /// What it denotes.
        kind: &'static str,
        /// The identifier.
        span: SourceSpan,
    },
    /// A function is typed by something that is no function type.
    NotFuncType {
        /// The identifier.
        name: String,
        /// What it denotes.
        kind: &'static str,
        /// The identifier.
        span: SourceSpan,
    },
    /// What is borrowed is no resource.
    NotResourceType {
        /// The identifier.
        name: String,
        /// What it denotes.
        kind: &'static str,
        /// The identifier.
        span: SourceSpan,
    },
    /// What is used as a type of values is not one.
    NotValueType {
        /// The identifier.
        name: String,
        /// What it denotes.
        kind: &'static str,
        /// The identifier.
        span: SourceSpan,
    },
    /// A function has two parameters of one name. The first of a method is `self`.
    DuplicateParameter {
        /// What the function is.
        kind: FuncKind,
        /// The name of the parameter.
        name: String,
        /// The identifier.
        span: SourceSpan,
    },
    /// A function has two results of one name.
    DuplicateResult {
        /// What the function is.
        kind: FuncKind,
        /// The name of the result.
        name: String,
        /// The identifier.
        span: SourceSpan,
    },
    /// The result of a function contains a borrow.
    BorrowInResult {
        /// The type of the result.
        span: SourceSpan,
    },
    /// A package was not supplied to the resolver.
    UnknownPackage {
        /// The name of the package, without its version.
        name: String,
        /// The package: in `new` with its version, in a path without.
        span: SourceSpan,
    },
    /// A package does not have what a path names.
    PackageMissingExport {
        /// The package, without its version.
        package: String,
        /// The segment that is missing.
        export: String,
        /// What the segment before it denotes, where there is one.
        kind: Option<&'static str>,
        /// The segments before it, joined by `/`.
        path: String,
        /// The segment.
        span: SourceSpan,
    },
    /// An item of this package does not have what a path names.
    PackagePathMissingExport {
        /// The segment before.
        name: String,
        /// What that one denotes.
        kind: &'static str,
        /// The segment that is missing.
        export: String,
        /// The segment.
        span: SourceSpan,
    },
    /// A component has no import of an argument's name.
    MissingComponentImport {
        /// The package, without its version.
        package: String,
        /// The name of the argument.
        import: String,
        /// The argument.
        span: SourceSpan,
    },
    /// An argument does not fit the import of its name.
    MismatchedInstantiationArg {
        /// The name of the argument.
        name: String,
        /// Why not, as the rules returned.
        source: Reason,
        /// The argument.
        span: SourceSpan,
    },
    /// Two arguments have one name.
    DuplicateInstantiationArg {
        /// The name.
        name: String,
        /// The second argument.
        span: SourceSpan,
    },
    /// An import of a package is given no argument, and no `...` fills it in.
    MissingInstantiationArg {
        /// The name of the import.
        name: String,
        /// The package, with its version.
        package: String,
        /// The name of the package.
        span: SourceSpan,
    },
    /// What is accessed or spread is not an instance.
    NotAnInstance {
        /// What the node is.
        kind: &'static str,
        /// Whether it is an access or a spread.
        operation: InstanceOperation,
        /// The expression, or what comes before the access.
        span: SourceSpan,
    },
    /// An instance has no export of the name.
    MissingInstanceExport {
        /// The name.
        name: String,
        /// The access.
        span: SourceSpan,
    },
    /// An export has no name of its own.
    ExportRequiresAs {
        /// The expression.
        span: SourceSpan,
    },
    /// The name of a declared type is exported already.
    DeclarationConflict {
        /// The name.
        name: String,
        /// The identifier.
        span: SourceSpan,
        /// Where the name was exported.
        export: SourceSpan,
    },
    /// The name of an export is that of a declared type.
    ExportConflict {
        /// The name.
        name: String,
        /// What was declared.
        kind: &'static str,
        /// The name of the export.
        span: SourceSpan,
        /// The identifier that is bound to it.
        definition: SourceSpan,
        /// What can be done, where the export has no name of its own.
        help: Option<&'static str>,
    },
    /// A name is imported, or exported, twice.
    DuplicateExternName {
        /// Whether it is an import or an export.
        kind: ExternKind,
        /// The name.
        name: String,
        /// The second name.
        span: SourceSpan,
        /// The first.
        previous: SourceSpan,
        /// What can be done, where the name was inferred.
        help: Option<&'static str>,
    },
    /// A name may not be that of an import or export.
    InvalidExternName {
        /// The name.
        name: String,
        /// Whether it is an import or an export.
        kind: ExternKind,
        /// Why not, as the rules returned.
        source: Reason,
        /// The name.
        span: SourceSpan,
    },
    /// The name of a used type exists already.
    UseConflict {
        /// Whether it is an import or an export.
        kind: ExternKind,
        /// The name.
        name: String,
        /// The name.
        span: SourceSpan,
        /// What can be done, where the type has no new name.
        help: Option<&'static str>,
    },
    /// Another argument comes after `...`.
    FillArgumentNotLast {
        /// The `...`.
        span: SourceSpan,
    },
    /// A spread argument gives nothing.
    SpreadInstantiationNoMatch {
        /// The identifier of the spread.
        span: SourceSpan,
    },
    /// A spread export exports nothing.
    SpreadExportNoEffect {
        /// The expression.
        span: SourceSpan,
    },
    /// The target world has no import of a name that the composition imports.
    ImportNotInTarget {
        /// The name.
        name: String,
        /// The path of the target.
        world: String,
        /// The name of the import, or `None` where an instantiation imports it.
        span: Option<SourceSpan>,
    },
    /// The target world exports a name that the composition does not.
    MissingTargetExport {
        /// The name.
        name: String,
        /// The path of the target.
        world: String,
        /// What is to be exported.
        kind: &'static str,
        /// The path of the target.
        span: SourceSpan,
    },
    /// An import or export does not fit that of the target world.
    TargetMismatch {
        /// Whether it is an import or an export.
        kind: ExternKind,
        /// The name.
        name: String,
        /// The path of the target.
        world: String,
        /// Why not, as the rules returned.
        source: Reason,
        /// The name, or `None` where an instantiation imports it.
        span: Option<SourceSpan>,
    },
    /// A request for memory failed.
    Memory(AllocError),
}

/// What resolving returns.
pub type ResolutionResult<T> = Result<T, Error>;

impl fmt::Display for Error {
    ghost use Rattle.std.specs.Prelude.{Some};

    ghost output = { λ e. Some (text_of (error_model e)) };

    fn fmt<W: fmt::Write>(&self, f: &mut fmt::Formatter<W>) -> fmt::Result {
        self.message().fmt(f)
    }
}

impl Error {
    /// The bytes of the source at which the error lies: what breaks the rule. There is none where memory ran out, and
    /// where an instance imports something that the target does not allow, which is written nowhere.
    pub fn span(&self) -> Option<SourceSpan>
        ensures { result ≡ span_of (error_model self.now) }
    {
        match self {
            Error::UndefinedName { span, .. }
            | Error::DuplicateName { span, .. }
            | Error::DuplicateInterfaceExport { span, .. }
            | Error::DuplicateWorldItem { span, .. }
            | Error::NotFuncOrInterface { span, .. }
            | Error::NotInterface { span, .. }
            | Error::DuplicateWorldIncludeName { span, .. }
            | Error::NotWorld { span, .. }
            | Error::MissingWorldInclude { span, .. }
            | Error::WorldIncludeConflict { span, .. }
            | Error::UndefinedInterfaceType { span, .. }
            | Error::NotInterfaceValueType { span, .. }
            | Error::DuplicateResourceConstructor { span, .. }
            | Error::DuplicateResourceMethod { span, .. }
            | Error::DuplicateVariantCase { span, .. }
            | Error::DuplicateRecordField { span, .. }
            | Error::DuplicateEnumCase { span, .. }
            | Error::DuplicateFlag { span, .. }
            | Error::InvalidAliasType { span, .. }
            | Error::NotFuncType { span, .. }
            | Error::NotResourceType { span, .. }
            | Error::NotValueType { span, .. }
            | Error::DuplicateParameter { span, .. }
            | Error::DuplicateResult { span, .. }
            | Error::BorrowInResult { span, .. }
            | Error::UnknownPackage { span, .. }
            | Error::PackageMissingExport { span, .. }
            | Error::PackagePathMissingExport { span, .. }
            | Error::MissingComponentImport { span, .. }
            | Error::MismatchedInstantiationArg { span, .. }
            | Error::DuplicateInstantiationArg { span, .. }
            | Error::MissingInstantiationArg { span, .. }
            | Error::NotAnInstance { span, .. }
            | Error::MissingInstanceExport { span, .. }
            | Error::ExportRequiresAs { span, .. }
            | Error::DeclarationConflict { span, .. }
            | Error::ExportConflict { span, .. }
            | Error::DuplicateExternName { span, .. }
            | Error::InvalidExternName { span, .. }
            | Error::UseConflict { span, .. }
            | Error::FillArgumentNotLast { span, .. }
            | Error::SpreadInstantiationNoMatch { span, .. }
            | Error::SpreadExportNoEffect { span, .. }
            | Error::MissingTargetExport { span, .. } => Some(*span),
            Error::ImportNotInTarget { span, .. } | Error::TargetMismatch { span, .. } => *span,
            Error::Memory(_) => None,
        }
    }

    /// The message, as names and the words around them.
    fn message(&self) -> Message<'_>
        ensures { shown result ≡ text_of (error_model self.now) }
    {
        match self {
            Error::UndefinedName { name, .. } => Message::Quoted("undefined name ", name, ""),
            Error::DuplicateName { name, .. } => Message::Quoted("", name, " is already defined"),
            Error::DuplicateInterfaceExport {
                name,
                interface_name: Some(interface),
                ..
            } => Message::Pair(
                "duplicate interface export ",
                name,
                " for interface ",
                interface,
            ),
            Error::DuplicateInterfaceExport {
                name,
                interface_name: None,
                ..
            } => Message::Quoted("duplicate interface export ", name, ""),
            Error::DuplicateWorldItem {
                kind,
                name,
                world,
                ..
            } => Message::WorldItem {
                kind: *kind,
                name,
                world,
            },
            Error::NotFuncOrInterface { name, kind, .. } => Message::Kinded(
                name,
                kind,
                "is not a function type or interface",
            ),
            Error::NotInterface { name, kind, .. } => Message::Kinded(
                name,
                kind,
                "is not an interface",
            ),
            Error::DuplicateWorldIncludeName { name, .. } => Message::Quoted(
                "duplicate ",
                name,
                " in world include `with` clause",
            ),
            Error::NotWorld { name, kind, .. } => Message::Kinded(name, kind, "is not a world"),
            Error::MissingWorldInclude { world, name, .. } => Message::Pair(
                "world ",
                world,
                " does not have an import or export named ",
                name,
            ),
            Error::WorldIncludeConflict {
                kind,
                name,
                from,
                to,
                ..
            } => Message::IncludeConflict {
                kind: *kind,
                name,
                from,
                to,
            },
            Error::UndefinedInterfaceType {
                name,
                interface_name,
                ..
            } => Message::Pair(
                "a type named ",
                name,
                " is not defined in interface ",
                interface_name,
            ),
            Error::NotInterfaceValueType {
                name,
                kind,
                interface_name,
                ..
            } => Message::KindedWithin(
                name,
                kind,
                "is not a value type in interface",
                interface_name,
            ),
            Error::DuplicateResourceConstructor { resource, .. } => Message::Quoted(
                "duplicate constructor for resource ",
                resource,
                "",
            ),
            Error::DuplicateResourceMethod { name, resource, .. } => Message::Pair(
                "duplicate method ",
                name,
                " for resource ",
                resource,
            ),
            Error::DuplicateVariantCase { case, name, .. } => Message::Pair(
                "duplicate case ",
                case,
                " for variant type ",
                name,
            ),
            Error::DuplicateRecordField { field, name, .. } => Message::Pair(
                "duplicate field ",
                field,
                " for record type ",
                name,
            ),
            Error::DuplicateEnumCase { case, name, .. } => Message::Pair(
                "duplicate case ",
                case,
                " for enum type ",
                name,
            ),
            Error::DuplicateFlag { flag, name, .. } => Message::Pair(
                "duplicate flag ",
                flag,
                " for flags type ",
                name,
            ),
            Error::InvalidAliasType { name, kind, .. } => Message::Kinded(
                name,
                kind,
                "cannot be used in a type alias",
            ),
            Error::NotFuncType { name, kind, .. } => Message::Kinded(
                name,
                kind,
                "is not a function type",
            ),
            Error::NotResourceType { name, kind, .. } => Message::Kinded(
                name,
                kind,
                "is not a resource type",
            ),
            Error::NotValueType { name, kind, .. } => Message::Kinded(
                name,
                kind,
                "cannot be used as a value type",
            ),
            Error::DuplicateParameter { kind, name, .. } => Message::PartOfFunction(
                *kind,
                "parameter",
                name,
            ),
            Error::DuplicateResult { kind, name, .. } => Message::PartOfFunction(
                *kind, "result", name,
            ),
            Error::BorrowInResult { .. } => Message::Plain(
                "function result cannot recursively contain a borrow type",
            ),
            Error::UnknownPackage { name, .. } => Message::Quoted("unknown package ", name, ""),
            Error::PackageMissingExport {
                package,
                export,
                kind: Some(kind),
                path,
                ..
            } => Message::MissingExport {
                kind,
                path,
                package,
                export,
            },
            Error::PackageMissingExport {
                package,
                export,
                kind: None,
                ..
            } => Message::Pair("package ", package, " has no export named ", export),
            Error::PackagePathMissingExport {
                name,
                kind,
                export,
                ..
            } => Message::KindedWithin(name, kind, "has no export named", export),
            Error::MissingComponentImport {
                package,
                import,
                ..
            } => Message::Pair("component ", package, " has no import named ", import),
            Error::MismatchedInstantiationArg { name, .. } => Message::Quoted(
                "mismatched instantiation argument ",
                name,
                "",
            ),
            Error::DuplicateInstantiationArg { name, .. } => Message::Quoted(
                "duplicate instantiation argument ",
                name,
                "",
            ),
            Error::MissingInstantiationArg { name, package, .. } => Message::Pair(
                "missing instantiation argument ",
                name,
                " for package ",
                package,
            ),
            Error::NotAnInstance { operation, .. } => Message::InstanceRequired(*operation),
            Error::MissingInstanceExport { name, .. } => Message::Quoted(
                "the instance has no export named ",
                name,
                "",
            ),
            Error::ExportRequiresAs { .. } => Message::Plain(
                "export statement requires an `as` clause as the export name cannot be inferred",
            ),
            Error::DeclarationConflict { name, .. } => Message::Quoted(
                "type declaration ",
                name,
                " conflicts with a previous export of the same name",
            ),
            Error::ExportConflict { name, kind, .. } => Message::ExportConflict { name, kind },
            Error::DuplicateExternName { kind, name, .. } => Message::ExternName {
                kind: *kind,
                name,
            },
            Error::InvalidExternName { name, kind, .. } => Message::InvalidName {
                kind: *kind,
                name,
            },
            Error::UseConflict { kind, name, .. } => Message::UseConflict { kind: *kind, name },
            Error::FillArgumentNotLast { .. } => Message::Plain(
                "implicit import argument `...` must be the last argument",
            ),
            Error::SpreadInstantiationNoMatch { .. } => Message::Plain(
                "the instance has no matching exports for the remaining unsatisfied arguments",
            ),
            Error::SpreadExportNoEffect { .. } => Message::Plain(
                "instance has no exports or all exports of the instance match previously exported names",
            ),
            Error::ImportNotInTarget { name, world, .. } => Message::Pair(
                "target world ",
                world,
                " does not have an import named ",
                name,
            ),
            Error::MissingTargetExport { name, world, .. } => Message::Pair(
                "target world ",
                world,
                " requires an export named ",
                name,
            ),
            Error::TargetMismatch {
                kind,
                name,
                world,
                ..
            } => Message::TargetMismatch {
                kind: *kind,
                name,
                world,
            },
            Error::Memory(_) => Message::Plain("out of memory"),
        }
    }
}

impl From<AllocError> for Error {
    ghost from_gives = { λ _ e. e ≡ Memory alloc_error };

    fn from(_error: AllocError) -> Self {
        Error::Memory(AllocError)
    }
}

impl<T: Drop> From<AllocFailed<T>> for Error {
    ghost from_gives = { λ _ e. e ≡ Memory alloc_error };

    fn from(_error: AllocFailed<T>) -> Self {
        Error::Memory(AllocError)
    }
}
