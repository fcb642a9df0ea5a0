//! Rows counted by hand. The text has a line with each end, an empty line, and characters of one to four bytes.

use std::alloc::Global;
use std::process::Abort;
use std::test::Fail;
use wac_positions::{ColumnUnit, Lines, Place};

/// Lines: `ab` LF, `é€😀c` CR LF, nothing, CR, `x` and the end.
const TEXT: &str = "ab\né€😀c\r\n\rx";

/// An offset of a character, with its line and its column in bytes, units of UTF-16 and characters.
type Row = (usize, usize, usize, usize, usize);

static ROWS: [Row; 13] = [
    (0, 0, 0, 0, 0),
    (1, 0, 1, 1, 1),
    (2, 0, 2, 2, 2),
    // é has two bytes, € three, and the face four, which are two units of UTF-16.
    (3, 1, 0, 0, 0),
    (5, 1, 2, 1, 1),
    (8, 1, 5, 2, 2),
    (12, 1, 9, 4, 3),
    (13, 1, 10, 5, 4),
    // between CR and LF
    (14, 1, 11, 6, 5),
    (15, 2, 0, 0, 0),
    (16, 3, 0, 0, 0),
    (17, 3, 1, 1, 1),
    // An offset past the end has the place of the end, and so none of its own.
    (99, 3, 1, 1, 1),
];

/// The place of an offset, in one unit, as a row has it, and the offset of that place.
fn is_as_listed(lines: &Lines<'_>, offset: usize, unit: ColumnUnit, place: Place) -> bool {
    let back = lines.offset(place, unit);
    lines.place(offset, unit) == place && back == Some(offset.min(TEXT.len()))
}

/// The number of the first row that isn't as it should be.
fn first_wrong(lines: &Lines<'_>) -> Option<usize> {
    for (number, (offset, line, bytes, utf16, characters)) in ROWS.iter().enumerate() {
        let at = |column: usize| Place {
            line: *line,
            column,
        };
        if !is_as_listed(lines, *offset, ColumnUnit::Bytes, at(*bytes))
            || !is_as_listed(lines, *offset, ColumnUnit::Utf16, at(*utf16))
            || !is_as_listed(lines, *offset, ColumnUnit::Characters, at(*characters))
        {
            return Some(number);
        }
    }
    None
}

#[test]
fn places_and_offsets(rt: HostRuntime) -> Result<(), Fail> {
    let lines = Lines::new(rt.alloc(), TEXT)?;
    let wrong = first_wrong(&lines);
    assert!(rt; wrong == None, "row {wrong:?}");
    Ok(())
}

/// Within a character an offset has the place of the character.
#[test]
fn offsets_within_a_character(rt: HostRuntime) -> Result<(), Fail> {
    let lines = Lines::new(rt.alloc(), TEXT)?;
    let face = Place { line: 1, column: 2 };
    assert!(rt;
        lines.place(9, ColumnUnit::Characters) == face,
        "after its first byte"
    );
    assert!(rt;
        lines.place(11, ColumnUnit::Characters) == face,
        "before its last byte"
    );
    Ok(())
}

/// Lines without their ends, and none past the last.
#[test]
fn lines_by_number(rt: HostRuntime) -> Result<(), Fail> {
    let lines = Lines::new(rt.alloc(), TEXT)?;
    assert!(rt; lines.count() == 4, "their number");
    assert!(rt; lines.line(0) == "ab", "before LF");
    assert!(rt; lines.line(1) == "é€😀c", "before CR LF");
    assert!(rt; lines.line(2) == "", "an empty line, before CR");
    assert!(rt; lines.line(3) == "x", "the last line");
    assert!(rt; lines.line(4) == "", "past the last line");
    Ok(())
}

/// Places past the end of a line, past the last line, and within a pair of UTF-16.
#[test]
fn places_without_an_offset(rt: HostRuntime) -> Result<(), Fail> {
    let lines = Lines::new(rt.alloc(), TEXT)?;
    let past_line = Place { line: 0, column: 3 };
    let past_text = Place { line: 4, column: 0 };
    let in_pair = Place { line: 1, column: 3 };
    assert!(rt;
        lines.offset(past_line, ColumnUnit::Bytes) == None,
        "past the end of a line"
    );
    assert!(rt;
        lines.offset(past_text, ColumnUnit::Bytes) == None,
        "past the last line"
    );
    assert!(rt;
        lines.offset(in_pair, ColumnUnit::Utf16) == None,
        "within a pair"
    );
    Ok(())
}

/// A text without any character has one line, with one place.
#[test]
fn the_empty_text(rt: HostRuntime) -> Result<(), Fail> {
    let lines = Lines::new(rt.alloc(), "")?;
    let start = Place { line: 0, column: 0 };
    assert!(rt; lines.count() == 1, "its lines");
    assert!(rt; lines.place(0, ColumnUnit::Utf16) == start, "its place");
    assert!(rt;
        lines.offset(start, ColumnUnit::Utf16) == Some(0),
        "its offset"
    );
    Ok(())
}
