//! Which part of a long line is shown.
use crate::characters::{columns, push_times, shown};
use std::alloc::AllocError;

/// What stands for a part of a line that isn't shown.
const CUT: char = '…';

/// The columns of a line that are shown: from one up to another.
#[derive(Clone, Copy)]
pub(crate) struct Window {
    pub(crate) from: usize,
    pub(crate) to: usize,
    /// How many columns the line has.
    pub(crate) all: usize,
}

impl Window {
    /// As much of a line as there is room for, around the columns that are marked.
    pub(crate) fn around(all: usize, room: usize, from: usize, to: usize) -> Window {
        if all <= room {
            return Window {
                from: 0,
                to: all,
                all,
            };
        }
        let inner = room.saturating_sub(2);
        let marked = to.saturating_sub(from).min(inner);
        let before = (inner - marked) / 2;
        let from = from.saturating_sub(before).min(all - inner);
        Window {
            from,
            to: from + inner,
            all,
        }
    }

    /// The column of the output at which a column of the line is.
    pub(crate) fn shifted(&self, column: usize) -> usize {
        let cut = usize::from(self.from > 0);
        column.min(self.to).saturating_sub(self.from) + cut
    }

    /// Appends what is shown of a line.
    pub(crate) fn push(&self, out: &mut String, line: &str) -> Result<(), AllocError> {
        if self.from > 0 {
            out.push(CUT)?;
        }
        let mut column = 0usize;
        for c in line.chars() {
            let next = column.saturating_add(columns(c));
            self.push_character(out, c, column, next)?;
            column = next;
        }
        if self.to < self.all {
            out.push(CUT)?;
        }
        Ok(())
    }

    /// Appends what is shown of a character that takes the columns from one up to another: blanks for a tab, and for
    /// one that the window cuts.
    fn push_character(
        &self,
        out: &mut String,
        c: char,
        from: usize,
        to: usize,
    ) -> Result<(), AllocError> {
        if c == '\t' || from < self.from || self.to < to {
            let from = from.max(self.from);
            let to = to.min(self.to);
            push_times(out, ' ', to.saturating_sub(from))
        } else {
            out.push(shown(c))?;
            Ok(())
        }
    }
}
