//! The offsets of places, counted by hand.

use std::process::Abort;
use std::test::Fail;
use wac_lsp_texts::offset_at;
use wac_positions::ColumnUnit::{Bytes, Characters, Utf16};
use wac_positions::{ColumnUnit, Lines, Place};

/// A text, what columns are counted in, a line, a column, and the offset.
type Row = (&'static str, ColumnUnit, usize, usize, usize);

/// A letter of one byte, one of two, one of four, a line end of two bytes, and another letter.
const MIXED: &str = "a\u{e9}\u{1f600}\r\nb";

static ROWS: [Row; 28] = [
    (MIXED, Utf16, 0, 0, 0),
    (MIXED, Utf16, 0, 1, 1),
    (MIXED, Utf16, 0, 2, 3),
    (MIXED, Utf16, 0, 3, 3),
    (MIXED, Utf16, 0, 4, 7),
    (MIXED, Utf16, 0, 5, 7),
    (MIXED, Utf16, 0, 99, 7),
    (MIXED, Utf16, 1, 0, 9),
    (MIXED, Utf16, 1, 1, 10),
    (MIXED, Utf16, 1, 2, 10),
    (MIXED, Utf16, 2, 0, 10),
    (MIXED, Utf16, 99, 99, 10),
    (MIXED, Bytes, 0, 1, 1),
    (MIXED, Bytes, 0, 2, 1),
    (MIXED, Bytes, 0, 3, 3),
    (MIXED, Bytes, 0, 6, 3),
    (MIXED, Bytes, 0, 7, 7),
    (MIXED, Bytes, 0, 8, 7),
    (MIXED, Characters, 0, 2, 3),
    (MIXED, Characters, 0, 3, 7),
    ("", Utf16, 0, 0, 0),
    ("", Utf16, 3, 3, 0),
    ("a\n", Utf16, 0, 9, 1),
    ("a\n", Utf16, 1, 0, 2),
    ("a\n", Utf16, 1, 4, 2),
    ("a\rb", Utf16, 0, 2, 1),
    ("a\rb", Utf16, 1, 0, 2),
    ("a\n\nb", Utf16, 1, 1, 2),
];

#[test]
fn places_have_offsets(rt: HostRuntime) -> Result<(), Fail> {
    for (text, unit, line, column, offset) in &ROWS {
        let lines = Lines::new(rt.alloc(), text)?;
        let place = Place {
            line: *line,
            column: *column,
        };
        let found = offset_at(&lines, text.len(), place, *unit);
        assert!(rt; found == Some(*offset), "{text} {line}:{column}");
    }
    Ok(())
}
