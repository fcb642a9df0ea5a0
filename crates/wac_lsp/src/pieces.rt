//! The tokens and comments of a document.
use std::alloc::{AllocError, Global};
use wac_comments_layout::{Piece, ReadError, read};
use wac_lexer::Lexer;

/// A text up to its first rejected character.
pub(crate) fn accepted(text: &str) -> &str {
    match Lexer::new(text) {
        Ok(_) => text,
        Err((_, span)) => text.get(..span.offset()).unwrap_or(""),
    }
}

/// The tokens and comments of a text up to its first rejected character, and the end after them.
pub(crate) fn pieces_of(alloc: Global, text: &str) -> Result<Vec<Piece<'_>>, AllocError> {
    match read(alloc, accepted(text), 1) {
        Ok(pieces) => Ok(pieces),
        Err(ReadError::Memory(_)) => Err(AllocError),
        Err(ReadError::Refused(_, _)) => Ok(Vec::new(alloc)),
    }
}
