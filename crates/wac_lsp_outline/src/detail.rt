//! Parts of texts in one line.
use std::alloc::{AllocError, Global};
use wac_lexer::Lexer;

/// How many bytes are told, about.
const MOST: usize = 200;

/// The tokens of a part of a text in one line, without comments: where something is between two there is a blank. A part
/// of more than 200 bytes is cut after a token, and ends with `...` then. The error is that memory ran out.
pub fn in_one_line(alloc: Global, text: &str) -> Result<String, AllocError> {
    let mut line = String::new(alloc);
    let Ok(mut lexer) = Lexer::new(text) else {
        return Ok(line);
    };
    let mut end = 0usize;
    while let Some((_, span)) = lexer.next() {
        if MOST <= line.len() {
            line.push_str(" ...")?;
            return Ok(line);
        }
        if end < span.offset() && !line.is_empty() {
            line.push(' ')?;
        }
        end = span.offset().saturating_add(span.len());
        line.push_str(text.get(span.offset()..end).unwrap_or(""))?;
    }
    Ok(line)
}
