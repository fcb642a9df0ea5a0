//! Parts of a text.

use wac_lexer::SourceSpan;

/// Where a span ends.
pub(crate) fn end_of(span: SourceSpan) -> usize {
    span.offset().saturating_add(span.len())
}

/// The text of a span; none where it isn't a part of the text.
pub(crate) fn text_at(text: &str, span: SourceSpan) -> &str {
    text.get(span.offset()..end_of(span)).unwrap_or("")
}

/// The text after a span.
pub(crate) fn text_after(text: &str, span: SourceSpan) -> &str {
    text.get(end_of(span)..).unwrap_or("")
}
