//! Why a document declares no package.

use std::alloc::AllocError;
use std::fmt;
use wac_graph::PackageError;
use wac_lexer::SourceSpan;
use wac_resolution::Error;

/// Why a document declares no package.
#[derive(Debug, Drop)]
pub enum DeclarationError {
    /// The text has no tree.
    Syntax(wac_ast::Error),
    /// A statement that is no type statement, at its identifier, or at an export's expression.
    OtherStatement(SourceSpan),
    /// A `targets` clause, at its path.
    Targets(SourceSpan),
    /// The document declares no world of the name that was asked for. The place is the package's name.
    NoSuchWorld(SourceSpan),
    /// An earlier text declares the package too. The place is the later one's package name, with the version.
    DeclaredTwice(SourceSpan),
    /// A package that no text declares, at its first mention.
    UnknownPackage(SourceSpan),
    /// The package mentions itself through others. The place is a mention among these.
    Cycle(SourceSpan),
    /// With this package all would be larger together than they may be, by its own size or by that of those that it
    /// mentions, of which it has copies. The place is the package's name, or the mention of the largest of these.
    TooLarge(SourceSpan),
    /// The document can't be resolved.
    Resolution(Error),
    /// The parts make no package. No document is known that leads here.
    Parts(PackageError),
    /// The package wasn't made. No texts are known that lead here.
    Unmade,
    /// Memory ran out.
    Memory(AllocError),
}

impl DeclarationError {
    /// Where in the text the error is, if it is in a place.
    pub fn span(&self) -> Option<SourceSpan> {
        match self {
            DeclarationError::Syntax(error) => syntax_span(error),
            DeclarationError::OtherStatement(span)
            | DeclarationError::Targets(span)
            | DeclarationError::NoSuchWorld(span)
            | DeclarationError::DeclaredTwice(span)
            | DeclarationError::UnknownPackage(span)
            | DeclarationError::Cycle(span)
            | DeclarationError::TooLarge(span) => Some(*span),
            DeclarationError::Resolution(error) => error.span(),
            DeclarationError::Parts(_) | DeclarationError::Unmade | DeclarationError::Memory(_) =>
                None,
        }
    }
}

/// Where an error of parsing lies: nowhere where memory ran out.
fn syntax_span(error: &wac_ast::Error) -> Option<SourceSpan> {
    match error {
        wac_ast::Error::Lexer { span, .. }
        | wac_ast::Error::Expected { span, .. }
        | wac_ast::Error::ExpectedEither { span, .. }
        | wac_ast::Error::ExpectedMultiple { span, .. }
        | wac_ast::Error::EmptyType { span, .. }
        | wac_ast::Error::InvalidVersion { span, .. } => Some(*span),
        wac_ast::Error::Memory(_) => None,
    }
}

impl fmt::Display for DeclarationError {
    fn fmt<W: fmt::Write>(&self, f: &mut fmt::Formatter<W>) -> fmt::Result {
        match self {
            DeclarationError::Syntax(error) => write!(f, "{error}"),
            DeclarationError::OtherStatement(_) => {
                f.write_str("a document that declares a package has type statements alone")
            }
            DeclarationError::Targets(_) => {
                f.write_str("a document that declares a package targets no world")
            }
            DeclarationError::NoSuchWorld(_) => f.write_str("the package declares no such world"),
            DeclarationError::DeclaredTwice(_) => f.write_str("the package is declared twice"),
            DeclarationError::UnknownPackage(_) => f.write_str("unknown package"),
            DeclarationError::Cycle(_) => f.write_str("the package mentions itself through others"),
            DeclarationError::TooLarge(_) => f.write_str(
                "the packages are too large together: each has copies of those that it mentions",
            ),
            DeclarationError::Resolution(error) => write!(f, "{error}"),
            DeclarationError::Parts(error) => write!(f, "{error}"),
            DeclarationError::Unmade => f.write_str("the package was not made"),
            DeclarationError::Memory(_) => f.write_str("out of memory"),
        }
    }
}

impl std::error::Error for DeclarationError {}

impl From<AllocError> for DeclarationError {
    ghost use Rattle.std.specs.Prelude.{◌≡◌};
    ghost use Rattle.wac_declared_packages.specs.declared.error.DeclarationError.TheVariants as errors;

    ghost from_gives = { λ refused e. e ≡ errors.Memory refused };

    fn from(refused: AllocError) -> DeclarationError {
        DeclarationError::Memory(refused)
    }
}

/// Why texts declare no packages: the error, and the number of its text, counted from 0.
#[derive(Debug, Drop)]
pub struct DeclarationFault {
    pub text: usize,
    pub error: DeclarationError,
}
