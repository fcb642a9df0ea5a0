//! The places of offsets, counted by hand, and those of a long line.

use std::alloc::{AllocError, Global};
use std::process::Abort;
use std::test::Fail;
use wac_lsp_texts::Places;
use wac_positions::ColumnUnit::{Bytes, Characters, Utf16};
use wac_positions::{ColumnUnit, Place};

/// A text, what columns are counted in, an offset, its line, and its column.
type Row = (&'static str, ColumnUnit, usize, usize, usize);

/// A letter of one byte, one of two, one of four, a line end of two bytes, and another letter.
const MIXED: &str = "a\u{e9}\u{1f600}\r\nb";

static ROWS: [Row; 22] = [
    (MIXED, Utf16, 0, 0, 0),
    (MIXED, Utf16, 1, 0, 1),
    (MIXED, Utf16, 2, 0, 1),
    (MIXED, Utf16, 3, 0, 2),
    (MIXED, Utf16, 6, 0, 2),
    (MIXED, Utf16, 7, 0, 4),
    (MIXED, Utf16, 8, 0, 4),
    (MIXED, Utf16, 9, 1, 0),
    (MIXED, Utf16, 10, 1, 1),
    (MIXED, Utf16, 99, 1, 1),
    (MIXED, Bytes, 3, 0, 3),
    (MIXED, Bytes, 7, 0, 7),
    (MIXED, Bytes, 10, 1, 1),
    (MIXED, Characters, 7, 0, 3),
    (MIXED, Characters, 9, 1, 0),
    ("", Utf16, 0, 0, 0),
    ("", Utf16, 3, 0, 0),
    ("a\n", Utf16, 1, 0, 1),
    ("a\n", Utf16, 2, 1, 0),
    ("a\rb\n\nc", Utf16, 2, 1, 0),
    ("a\rb\n\nc", Utf16, 4, 2, 0),
    ("a\rb\n\nc", Utf16, 6, 3, 1),
];

#[test]
fn offsets_have_places(rt: HostRuntime) -> Result<(), Fail> {
    for (text, unit, offset, line, column) in &ROWS {
        let places = Places::new(rt.alloc(), text, *unit)?;
        let place = Place {
            line: *line,
            column: *column,
        };
        assert!(rt; places.place(*offset) == place, "{text} {offset}");
    }
    Ok(())
}

/// How often a long line repeats three characters: of two bytes and a unit of UTF-16, of four and two, of one and one.
const TIMES: usize = 300;

/// A letter and a line end, and then a long line.
fn long(alloc: Global) -> Result<String, AllocError> {
    let mut text = String::from_str(alloc, "a\n")?;
    for _ in 0..TIMES {
        text.push_str("\u{e9}\u{1f600}b")?;
    }
    Ok(text)
}

/// Whether the three characters that come after so many times of them have their places on the long line.
fn are_placed(places: &Places<'_>, times: usize) -> bool {
    let start = times.saturating_mul(7).saturating_add(2);
    let column = times.saturating_mul(4);
    let second = start.saturating_add(2);
    let third = start.saturating_add(6);
    places.place(start) == Place { line: 1, column }
        && places.place(second).column == column.saturating_add(1)
        && places.place(third).column == column.saturating_add(3)
}

#[test]
fn a_long_line_has_all_its_places(rt: HostRuntime) -> Result<(), Fail> {
    let text = long(rt.alloc())?;
    let places = Places::new(rt.alloc(), text.as_str(), Utf16)?;
    for times in 0..TIMES {
        assert!(rt; are_placed(&places, times), "{times}");
    }
    Ok(())
}
