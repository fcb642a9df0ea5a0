//! The lines of a place.
use crate::gutter::{Gutter, Paint};
use crate::marked::MarkedLine;
use std::alloc::{AllocError, Global};
use std::ops::Range;
use wac_positions::{ColumnUnit, Lines, Place};

/// How many lines of a place are shown at most.
const MOST: usize = 6;
/// Of more lines, so many from the first on.
const HEAD: usize = 3;
/// And so many up to the last.
const TAIL: usize = 2;

/// A place of a text, with columns in bytes.
#[derive(Clone, Copy)]
struct Region<'l, 'a> {
    lines: &'l Lines<'a>,
    start: Place,
    end: Place,
    gutter: Gutter,
}

/// Shows `len` bytes of a text from `offset` on: each of their lines after its number, and marks below the bytes.
///
/// ```text
/// 2 | let x = y;
///   |         ^
/// ```
///
/// Each line of the result ends with LF, and takes at most 200 columns of a terminal; a longer one is cut around the
/// marks, with `…` for each part that is left out. A tab is shown as four blanks, and any other command to a terminal as
/// U+FFFD. Of more than six lines the first three and the last two are shown. There is at least one mark, also for no
/// bytes and at the end of the text.
pub fn excerpt(
    alloc: Global,
    lines: &Lines<'_>,
    offset: usize,
    len: usize,
    paint: Paint,
) -> Result<String, AllocError> {
    let start = lines.place(offset, ColumnUnit::Bytes);
    let end = lines.place(offset.saturating_add(len), ColumnUnit::Bytes);
    let last = last_line(start, end);
    let gutter = Gutter::new(last.saturating_add(1), paint);
    let region = Region {
        lines,
        start,
        end,
        gutter,
    };
    let mut out = String::new(alloc);
    if last.saturating_sub(start.line) < MOST {
        region.push(&mut out, start.line..last.saturating_add(1))?;
    } else {
        region.push(&mut out, start.line..start.line.saturating_add(HEAD))?;
        out.push_str("...\n")?;
        region.push(
            &mut out,
            last.saturating_sub(TAIL - 1)..last.saturating_add(1),
        )?;
    }
    Ok(out)
}

/// The last line of a place: an end at the beginning of a line is that of the line before.
fn last_line(start: Place, end: Place) -> usize {
    if end.column == 0 && end.line > start.line {
        end.line - 1
    } else {
        end.line
    }
}

impl Region<'_, '_> {
    /// Appends these lines.
    fn push(&self, out: &mut String, numbers: Range<usize>) -> Result<(), AllocError> {
        for number in numbers {
            self.marked(number)
                .push(out, &self.gutter, number.saturating_add(1))?;
        }
        Ok(())
    }

    /// A line, and what is marked of it: of lines before the last one all up to the blanks at the end, of those after
    /// the first one all from the first character on that isn't blank.
    fn marked(&self, number: usize) -> MarkedLine<'_> {
        let line = self.lines.line(number);
        let is_first = number == self.start.line;
        let from = if is_first {
            self.start.column
        } else {
            line.len().saturating_sub(line.trim_start().len())
        };
        let to = if number == self.end.line {
            self.end.column
        } else {
            line.trim_end().len()
        };
        MarkedLine {
            line,
            from,
            to,
            is_first,
        }
    }
}
