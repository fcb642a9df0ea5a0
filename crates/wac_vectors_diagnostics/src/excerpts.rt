//! Excerpts as golden texts, with columns counted by hand.

use crate::parts::{Parts, joined};
use std::alloc::{AllocError, Global};
use std::process::Abort;
use std::test::Fail;
use wac_excerpts::{Paint, excerpt, push_carets, push_escaped, push_shown, push_shown_lines};
use wac_positions::Lines;

/// A text, an offset and a length in it, how marks are painted, and what is shown.
type Row = (&'static str, usize, usize, Paint, &'static str);

static ROWS: [Row; 24] = [
    // A tab takes four columns.
    (
        "a\n\tlet x = y;\n",
        11,
        1,
        Paint::Plain,
        "2 |     let x = y;\n  |             ^\n",
    ),
    // A wide character takes two columns, a combining one none.
    (
        "// 日本語 x",
        13,
        1,
        Paint::Plain,
        "1 | // 日本語 x\n  |           ^\n",
    ),
    (
        "// 日本語 x",
        3,
        6,
        Paint::Plain,
        "1 | // 日本語 x\n  |    ^^^^\n",
    ),
    ("e\u{301}x", 3, 1, Paint::Plain, "1 | e\u{301}x\n  |  ^\n"),
    // Commands to a terminal are shown as U+FFFD.
    (
        "a\u{1b}[31m\u{202e}b",
        9,
        1,
        Paint::Plain,
        "1 | a\u{fffd}[31m\u{fffd}b\n  |        ^\n",
    ),
    // A mark of a direction and a separator of lines.
    (
        "a\u{200e}\u{2028}b",
        7,
        1,
        Paint::Plain,
        "1 | a\u{fffd}\u{fffd}b\n  |    ^\n",
    ),
    // A byte order mark, of which a terminal shows nothing.
    (
        "\u{feff}let",
        0,
        3,
        Paint::Plain,
        "1 | \u{fffd}let\n  | ^\n",
    ),
    // A part of a character is all of it.
    ("aé", 2, 1, Paint::Plain, "1 | aé\n  |  ^\n"),
    // CR LF ends a line, and so does a CR alone.
    ("a\r\nbc\r\n", 4, 1, Paint::Plain, "2 | bc\n  |  ^\n"),
    ("a\rbc", 3, 1, Paint::Plain, "2 | bc\n  |  ^\n"),
    // Numbers are aligned to the right.
    (
        "\n\n\n\n\n\n\n\nx\ny",
        8,
        3,
        Paint::Plain,
        " 9 | x\n   | ^\n10 | y\n   | ^\n",
    ),
    ("", 0, 0, Paint::Plain, "1 |\n  | ^\n"),
    ("ab", 2, 0, Paint::Plain, "1 | ab\n  |   ^\n"),
    ("ab\n", 3, 0, Paint::Plain, "2 |\n  | ^\n"),
    ("ab\n", 99, 7, Paint::Plain, "2 |\n  | ^\n"),
    ("a = ;", 4, 0, Paint::Plain, "1 | a = ;\n  |     ^\n"),
    // The end of a line, alone and with what is before.
    ("ab\ncd", 2, 1, Paint::Plain, "1 | ab\n  |   ^\n"),
    ("ab\ncd", 1, 2, Paint::Plain, "1 | ab\n  |  ^\n"),
    // Three lines; blanks at both ends of a line aren't marked, and an empty line has no marks.
    (
        "a {  \n  b\n}",
        2,
        9,
        Paint::Plain,
        "1 | a {  \n  |   ^\n2 |   b\n  |   ^\n3 | }\n  | ^\n",
    ),
    (
        "a {\n\n}",
        2,
        4,
        Paint::Plain,
        "1 | a {\n  |   ^\n2 |\n3 | }\n  | ^\n",
    ),
    // Of more than six lines the first three and the last two.
    (
        "1\n2\n3\n4\n5\n6\n7\n8\n",
        0,
        15,
        Paint::Plain,
        "1 | 1\n  | ^\n2 | 2\n  | ^\n3 | 3\n  | ^\n...\n7 | 7\n  | ^\n8 | 8\n  | ^\n",
    ),
    // Red, yellow and cyan marks.
    (
        "let x = y;",
        8,
        1,
        Paint::Error,
        "\u{1b}[1;34m1 |\u{1b}[0m let x = y;\n\u{1b}[1;34m  |\u{1b}[0m         \u{1b}[1;31m^\u{1b}[0m\n",
    ),
    (
        "let x = y;",
        8,
        1,
        Paint::Warning,
        "\u{1b}[1;34m1 |\u{1b}[0m let x = y;\n\u{1b}[1;34m  |\u{1b}[0m         \u{1b}[1;33m^\u{1b}[0m\n",
    ),
    (
        "let x = y;",
        8,
        1,
        Paint::Note,
        "\u{1b}[1;34m1 |\u{1b}[0m let x = y;\n\u{1b}[1;34m  |\u{1b}[0m         \u{1b}[1;36m^\u{1b}[0m\n",
    ),
];

/// Long lines, which are cut at both ends, so that they take 200 columns: a text, an offset and a length in it, and
/// what is shown.
static LONG: [(Parts, usize, usize, Parts); 6] = [
    // In the middle, at the start and at the end.
    (
        &[("a", 300)],
        150,
        1,
        &[
            ("1 | …", 1),
            ("a", 194),
            ("…\n  | ", 1),
            (" ", 97),
            ("^\n", 1),
        ],
    ),
    (
        &[("a", 300)],
        0,
        1,
        &[("1 | ", 1), ("a", 194), ("…\n  | ^\n", 1)],
    ),
    (
        &[("a", 300)],
        300,
        0,
        &[
            ("1 | …", 1),
            ("a", 194),
            ("\n  | ", 1),
            (" ", 195),
            ("^\n", 1),
        ],
    ),
    // A long place.
    (
        &[("a", 300)],
        10,
        280,
        &[
            ("1 | …", 1),
            ("a", 194),
            ("…\n  |  ", 1),
            ("^", 194),
            ("\n", 1),
        ],
    ),
    // A line of 196 columns is shown whole.
    (
        &[("a", 196)],
        0,
        1,
        &[("1 | ", 1), ("a", 196), ("\n  | ^\n", 1)],
    ),
    // Of a wide character that is cut a blank is left.
    (
        &[("日", 75), ("b", 1), ("日", 75)],
        225,
        1,
        &[
            ("1 | …", 1),
            ("日", 48),
            ("b", 1),
            ("日", 48),
            (" …\n  | ", 1),
            (" ", 97),
            ("^\n", 1),
        ],
    ),
];

/// Whether a place of a text is shown like this.
fn is_shown(
    alloc: Global,
    text: &str,
    place: (usize, usize),
    paint: Paint,
    shown: &str,
) -> Result<bool, AllocError> {
    let lines = Lines::new(alloc, text)?;
    let found = excerpt(alloc, &lines, place.0, place.1, paint)?;
    Ok(found.as_str() == shown)
}

/// The number of the first row that isn't as it should be.
fn first_wrong(alloc: Global) -> Result<Option<usize>, AllocError> {
    for (number, row) in ROWS.iter().enumerate() {
        if !is_shown(alloc, row.0, (row.1, row.2), row.3, row.4)? {
            return Ok(Some(number));
        }
    }
    Ok(None)
}

/// Whether a long line is shown as its row says.
fn is_cut(alloc: Global, row: &(Parts, usize, usize, Parts)) -> Result<bool, AllocError> {
    let text = joined(alloc, row.0)?;
    let shown = joined(alloc, row.3)?;
    let place = (row.1, row.2);
    is_shown(alloc, text.as_str(), place, Paint::Plain, shown.as_str())
}

/// The number of the first long line that isn't as it should be.
fn first_wrong_cut(alloc: Global) -> Result<Option<usize>, AllocError> {
    for (number, row) in LONG.iter().enumerate() {
        if !is_cut(alloc, row)? {
            return Ok(Some(number));
        }
    }
    Ok(None)
}

#[test]
fn places_are_shown(rt: HostRuntime) -> Result<(), Fail> {
    let wrong = first_wrong(rt.alloc())?;
    assert!(rt; wrong.is_none(), "row {wrong:?}");
    let wrong = first_wrong_cut(rt.alloc())?;
    assert!(rt; wrong.is_none(), "long line {wrong:?}");
    Ok(())
}

/// Characters before which and after which nothing is a command, and between them each end of a range of commands.
const COMMANDS: &str =
    " \u{0}\u{1f}~\u{7f}\u{9f}\u{a0}\u{61b}\u{61c}\u{61d}\u{200b}\u{200e}\u{200f}\u{2010}\
    \u{2027}\u{2028}\u{202e}\u{202f}\u{2065}\u{2066}\u{2069}\u{206a}\u{fefe}\u{feff}\u{ff00}";

#[test]
fn commands_are_shown(rt: HostRuntime) -> Result<(), Fail> {
    let mut out = String::from_str(rt.alloc(), "> ")?;
    push_shown(&mut out, COMMANDS)?;
    let shown =
        ">  \u{fffd}\u{fffd}~\u{fffd}\u{fffd}\u{a0}\u{61b}\u{fffd}\u{61d}\u{200b}\u{fffd}\u{fffd}\u{2010}\
        \u{2027}\u{fffd}\u{fffd}\u{202f}\u{2065}\u{fffd}\u{fffd}\u{206a}\u{fefe}\u{fffd}\u{ff00}";
    assert!(rt; out.as_str() == shown, "{out:?}");
    Ok(())
}

#[test]
fn commands_are_escaped(rt: HostRuntime) -> Result<(), Fail> {
    let mut out = String::from_str(rt.alloc(), "> ")?;
    push_escaped(&mut out, "é\u{0}\u{7f}\u{9b}\u{61c}\u{200e}\u{feff}\n")?;
    let escaped = "> é\\u0000\\u007f\\u009b\\u061c\\u200e\\ufeff\\u000a";
    assert!(rt; out.as_str() == escaped, "{out:?}");
    Ok(())
}

#[test]
fn texts_without_commands(rt: HostRuntime) -> Result<(), Fail> {
    let text = "a\tb\n\r\u{7f}\u{85}\u{2066}é\u{200b}";
    let mut out = String::from_str(rt.alloc(), "> ")?;
    push_shown(&mut out, text)?;
    let shown = "> a\u{fffd}b\u{fffd}\u{fffd}\u{fffd}\u{fffd}\u{fffd}é\u{200b}";
    assert!(rt; out.as_str() == shown, "{out:?}");
    let mut out = String::from_str(rt.alloc(), "> ")?;
    push_shown_lines(&mut out, text)?;
    let shown = "> a\u{fffd}b\n\u{fffd}\u{fffd}\u{fffd}\u{fffd}é\u{200b}";
    assert!(rt; out.as_str() == shown, "{out:?}");
    let mut out = String::from_str(rt.alloc(), "> ")?;
    push_carets(&mut out, text)?;
    let shown = "> a\tb\n^M^?M-BM-^EM-bM-^AM-&é\u{200b}";
    assert!(rt; out.as_str() == shown, "{out:?}");
    Ok(())
}
