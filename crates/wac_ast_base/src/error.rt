//! What is wrong with a text that is no document.

ghost use Rattle.std.specs.Prelude.{◌≡◌, alloc_error};
ghost use Rattle.wac_ast_base.specs.declared.error.Error.TheVariants.{Memory, Lexer};

use std::alloc::{AllocError, AllocFailed};
use wac_lexer::{SourceSpan, Token};

/// How many of the tokens that were tried an error keeps.
pub const KEPT: usize = 10;

/// Why a text is no document.
///
/// Spans are in bytes of the source.
#[derive(Debug, Drop)]
pub enum Error {
    /// A character is rejected, or no token begins at a place.
    Lexer {
        /// What is wrong with the text.
        error: wac_lexer::Error,
        /// Where the fault lies.
        span: SourceSpan,
    },
    /// Another token was found where only one was expected.
    Expected {
        /// The token that was expected.
        expected: Token,
        /// The token that was found, or `None` at the end of the input.
        found: Option<Token>,
        /// Where it was found.
        span: SourceSpan,
    },
    /// Another token was found where one of two was expected.
    ExpectedEither {
        /// The token that was tried first.
        first: Token,
        /// The token that was tried next.
        second: Token,
        /// The token that was found, or `None` at the end of the input.
        found: Option<Token>,
        /// Where it was found.
        span: SourceSpan,
    },
    /// Another token was found where one of several was expected.
    ExpectedMultiple {
        /// The first ten tokens that were tried, in order.
        expected: [Option<Token>; KEPT],
        /// How many tokens were tried.
        count: usize,
        /// The token that was found, or `None` at the end of the input.
        found: Option<Token>,
        /// Where it was found.
        span: SourceSpan,
    },
    /// A variant, record, flags or enum type has nothing in it.
    EmptyType {
        /// What the type is, as `record`.
        ty: &'static str,
        /// What it must contain, as `field`.
        kind: &'static str,
        /// The closing brace.
        span: SourceSpan,
    },
    /// A version text is no semantic version.
    InvalidVersion {
        /// The version text.
        version: String,
        /// Where the version text lies.
        span: SourceSpan,
    },
    /// A request for memory failed.
    Memory(AllocError),
}

impl std::error::Error for Error {}

/// What a parser returns.
pub type ParseResult<T> = Result<T, Error>;

impl From<(wac_lexer::Error, SourceSpan)> for Error {
    ghost from_gives = { λ fault e. e ≡ Lexer fault.0 fault.1 };

    fn from((error, span): (wac_lexer::Error, SourceSpan)) -> Self {
        Error::Lexer { error, span }
    }
}

impl From<AllocError> for Error {
    ghost from_gives = { λ _ e. e ≡ Memory alloc_error };

    fn from(_error: AllocError) -> Self {
        Error::Memory(AllocError)
    }
}

impl<T: Drop> From<AllocFailed<T>> for Error {
    ghost from_gives = { λ _ e. e ≡ Memory alloc_error };

    fn from(_error: AllocFailed<T>) -> Self {
        Error::Memory(AllocError)
    }
}
