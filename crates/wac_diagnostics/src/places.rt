//! Lines and columns of spans, as people count them.
use wac_lexer::SourceSpan;
use wac_positions::{ColumnUnit, Lines, Place};

/// The lines and columns at which a span begins and ends. They are counted from 1, and columns in characters; the end
/// is the column after the last character.
#[derive(Clone, Copy)]
pub(crate) struct Extent {
    pub(crate) line: usize,
    pub(crate) column: usize,
    pub(crate) end_line: usize,
    pub(crate) end_column: usize,
}

impl Extent {
    /// The extent of a span. A character that the span covers in part belongs to it.
    pub(crate) fn of(lines: &Lines<'_>, span: SourceSpan) -> Extent {
        let start = lines.place(span.offset(), ColumnUnit::Characters);
        let end = lines.place(
            span.offset().saturating_add(span.len()),
            ColumnUnit::Characters,
        );
        let is_within_character = span.len() > 0 && end == start;
        Extent {
            line: from_one(start.line),
            column: from_one(start.column),
            end_line: from_one(end.line),
            end_column: from_one(end.column).saturating_add(usize::from(is_within_character)),
        }
    }
}

/// A number that is counted from 0, counted from 1.
fn from_one(number: usize) -> usize {
    number.saturating_add(1)
}
