//! Hints and edits.
use std::alloc::{AllocError, Global};
use wac_lexer::SourceSpan;

/// A change of a text.
#[derive(Debug, Drop)]
pub struct Edit {
    /// What is replaced, in bytes of the text: nothing where a text is inserted.
    pub span: SourceSpan,
    /// What comes in its place.
    pub text: String,
}

/// What was probably meant.
#[derive(Debug, Drop)]
pub struct Hint {
    /// It, in words.
    pub message: String,
    /// The change by which the text becomes what was meant, where that is clear.
    pub edit: Option<Edit>,
}

/// What a rule answers: a hint where it fits.
pub(crate) type Found = Result<Option<Hint>, AllocError>;

/// A hint without an edit.
pub(crate) fn say(alloc: Global, message: &str) -> Found {
    let message = String::from_str(alloc, message)?;
    Ok(Some(Hint {
        message,
        edit: None,
    }))
}

/// A hint with an edit that replaces a span.
pub(crate) fn replace(alloc: Global, message: &str, span: SourceSpan, text: &str) -> Found {
    let message = String::from_str(alloc, message)?;
    let text = String::from_str(alloc, text)?;
    Ok(Some(Hint {
        message,
        edit: Some(Edit { span, text }),
    }))
}

/// A hint with an edit that inserts a text.
pub(crate) fn insert(alloc: Global, message: &str, at: usize, text: &str) -> Found {
    replace(alloc, message, SourceSpan::new(at, 0), text)
}
