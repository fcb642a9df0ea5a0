//! Listing the tokens of a text.

use std::alloc::{AllocError, Global};
use wac_parser::lexer::Lexer;

/// A line `OFFSET+LEN NAME: TEXT` for each token of a text, after a line for each of its docs.
pub fn list_tokens(alloc: Global, source: &str) -> Result<String, AllocError> {
    let mut lines = String::new(alloc);
    let mut lexer = match Lexer::new(source) {
        Ok(lexer) => lexer,
        Err((error, span)) => {
            writeln!(lines, "{}+{} {error}", span.offset(), span.len())?;
            return Ok(lines);
        }
    };
    while let Some((item, span)) = lexer.peek() {
        for (doc, place) in lexer.comments(alloc)? {
            writeln!(lines, "{}+{} doc: {doc}", place.offset(), place.len())?;
        }
        let text = lexer.source(span);
        match item {
            Ok(token) => writeln!(lines, "{}+{} {token}: {text}", span.offset(), span.len())?,
            Err(error) => writeln!(lines, "{}+{} {error}", span.offset(), span.len())?,
        }
        lexer.next();
    }
    Ok(lines)
}
