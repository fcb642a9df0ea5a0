//! Texts after changes.

use std::alloc::{AllocError, Global};
use std::process::Abort;
use std::test::Fail;
use wac_lsp_messages::{Change, Range};
use wac_lsp_texts::changed;
use wac_positions::{ColumnUnit, Place};

/// A text, the line and the column where a change begins and ends, the text in its place, and the text after it.
type Row = (
    &'static str,
    usize,
    usize,
    usize,
    usize,
    &'static str,
    &'static str,
);

static ROWS: [Row; 9] = [
    ("abc", 0, 0, 0, 0, "", "abc"),
    ("abc", 0, 1, 0, 2, "", "ac"),
    ("abc", 0, 3, 0, 3, "d", "abcd"),
    ("a\nb", 0, 1, 1, 0, "", "ab"),
    ("abc", 0, 2, 0, 1, "x", "abxc"),
    ("abc", 5, 0, 9, 9, "z", "abcz"),
    ("\u{1f600}b", 0, 2, 0, 3, "c", "\u{1f600}c"),
    ("a\r\nb", 0, 1, 1, 0, "", "ab"),
    ("", 0, 0, 0, 0, "\u{e9}", "\u{e9}"),
];

/// From one place to another.
fn between(line: usize, column: usize, end_line: usize, end_column: usize) -> Range {
    let start = Place { line, column };
    let end = Place {
        line: end_line,
        column: end_column,
    };
    Range { start, end }
}

/// Adds a change.
fn push_change(
    changes: &mut Vec<Change>,
    alloc: Global,
    range: Option<Range>,
    text: &str,
) -> Result<(), AllocError> {
    let text = String::from_str(alloc, text)?;
    changes.push(Change { range, text })?;
    Ok(())
}

/// The text after changes.
fn after(alloc: Global, text: &str, changes: &[Change]) -> Result<String, Fail> {
    Ok(changed(alloc, text, changes, ColumnUnit::Utf16)?)
}

#[test]
fn a_change_replaces_its_range(rt: HostRuntime) -> Result<(), Fail> {
    for (text, line, column, end_line, end_column, new, expected) in &ROWS {
        let range = between(*line, *column, *end_line, *end_column);
        let mut changes = Vec::new(rt.alloc());
        push_change(&mut changes, rt.alloc(), Some(range), new)?;
        let found = after(rt.alloc(), text, changes.as_slice())?;
        assert!(rt; found.as_str() == *expected, "{text}: {found}");
    }
    Ok(())
}

#[test]
fn a_change_without_a_range_replaces_all(rt: HostRuntime) -> Result<(), Fail> {
    let mut changes = Vec::new(rt.alloc());
    push_change(&mut changes, rt.alloc(), None, "xy")?;
    let found = after(rt.alloc(), "abc\n", changes.as_slice())?;
    assert!(rt; found.as_str() == "xy");
    Ok(())
}

#[test]
fn a_change_is_of_what_the_one_before_leaves(rt: HostRuntime) -> Result<(), Fail> {
    let mut changes = Vec::new(rt.alloc());
    push_change(&mut changes, rt.alloc(), Some(between(0, 3, 0, 3)), "d")?;
    push_change(&mut changes, rt.alloc(), Some(between(0, 0, 0, 1)), "")?;
    push_change(&mut changes, rt.alloc(), Some(between(0, 1, 0, 1)), "\n")?;
    let found = after(rt.alloc(), "abc", changes.as_slice())?;
    assert!(rt; found.as_str() == "b\ncd");
    Ok(())
}
