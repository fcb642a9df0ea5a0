// Why a text was not tidied.
use std::alloc::AllocError;
use thiserror::Error;
use wac_ast_base::Error;
use wac_lexer::SourceSpan;

/// Why a text was not tidied.
#[derive(Debug, Drop, Error)]
pub enum TidyError {
    /// The text is no document.
    #[error("{0}")]
    Parse(Error),
    /// Brackets are nested deeper than a thousand.
    #[error("brackets are nested deeper than 1,000")]
    NestedTooDeep {
        /// The first bracket that is.
        span: SourceSpan,
    },
    /// The result failed the test that it has the comments of the source, each in its place. No text is known for which
    /// it does.
    #[error("the comments could not be kept")]
    NotKept,
    /// A request for memory failed.
    #[error("out of memory")]
    Memory(AllocError),
}
