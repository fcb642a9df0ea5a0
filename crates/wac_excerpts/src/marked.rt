//! A line with marks below it.
use crate::characters::{columns, push_times};
use crate::gutter::Gutter;
use crate::window::Window;
use std::alloc::AllocError;

/// How many columns a line of an excerpt takes at most.
const WIDTH: usize = 200;

/// A line, and the bytes of it that are marked: from one offset up to another.
#[derive(Clone, Copy)]
pub(crate) struct MarkedLine<'a> {
    pub(crate) line: &'a str,
    pub(crate) from: usize,
    pub(crate) to: usize,
    /// Whether there is a mark even where nothing lies between the offsets.
    pub(crate) is_first: bool,
}

/// How many columns of a line are before an offset.
fn columns_before(line: &str, offset: usize) -> usize {
    let mut before = 0usize;
    for (at, c) in line.char_indices() {
        if at >= offset {
            break;
        }
        before = before.saturating_add(columns(c));
    }
    before
}

impl MarkedLine<'_> {
    /// Appends the line after its number, and the marks below it.
    pub(crate) fn push(
        &self,
        out: &mut String,
        gutter: &Gutter,
        number: usize,
    ) -> Result<(), AllocError> {
        let from = columns_before(self.line, self.from);
        let to = columns_before(self.line, self.to);
        let all = columns_before(self.line, self.line.len());
        let room = WIDTH.saturating_sub(gutter.columns());
        let window = Window::around(all, room, from, to);
        gutter.push_number(out, number)?;
        self.push_line(out, &window)?;
        let from = window.shifted(from);
        let count = window.shifted(to).saturating_sub(from);
        if count > 0 || self.is_first {
            gutter.push_bar(out)?;
            push_times(out, ' ', from.saturating_add(1))?;
            gutter.paint.push_marks(out, count.max(1))?;
            out.push('\n')?;
        }
        Ok(())
    }

    fn push_line(&self, out: &mut String, window: &Window) -> Result<(), AllocError> {
        if !self.line.is_empty() {
            out.push(' ')?;
            window.push(out, self.line)?;
        }
        out.push('\n')?;
        Ok(())
    }
}
