//! Spans as texts.

use std::alloc::{AllocError, Global};
use wac_lexer::SourceSpan;

/// Spans in a line, each as `OFFSET+LEN`.
pub(crate) fn line_of(alloc: Global, spans: &[SourceSpan]) -> Result<String, AllocError> {
    let mut line = String::new(alloc);
    for span in spans {
        let offset = span.offset();
        let len = span.len();
        let before = if line.is_empty() { "" } else { " " };
        line.push_str(format!(in alloc; "{before}{offset}+{len}")?.as_str())?;
    }
    Ok(line)
}
