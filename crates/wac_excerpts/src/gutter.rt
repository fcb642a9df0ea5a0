//! What stands before a line: its number and a bar, in colour where that is asked for.
use crate::characters::push_times;
use std::alloc::AllocError;

/// How marks are painted.
#[derive(Clone, Copy, Debug, PartialEq, Eq)]
pub enum Paint {
    /// Without colour.
    Plain,
    /// As an error: red.
    Error,
    /// As a warning: yellow.
    Warning,
    /// As a note: cyan.
    Note,
}

impl Paint {
    /// What a terminal is told before the marks.
    pub fn begin(self) -> &'static str {
        match self {
            Paint::Plain => "",
            Paint::Error => "\u{1b}[1;31m",
            Paint::Warning => "\u{1b}[1;33m",
            Paint::Note => "\u{1b}[1;36m",
        }
    }

    /// What it is told after a part in colour.
    pub fn end(self) -> &'static str {
        match self {
            Paint::Plain => "",
            _ => "\u{1b}[0m",
        }
    }

    /// What it is told before the number of a line.
    fn number(self) -> &'static str {
        match self {
            Paint::Plain => "",
            _ => "\u{1b}[1;34m",
        }
    }

    /// Appends so many marks.
    pub(crate) fn push_marks(self, out: &mut String, count: usize) -> Result<(), AllocError> {
        out.push_str(self.begin())?;
        push_times(out, '^', count)?;
        out.push_str(self.end())
    }
}

/// What stands before the lines of an excerpt.
#[derive(Clone, Copy)]
pub(crate) struct Gutter {
    /// How many digits the greatest number has.
    pub(crate) digits: usize,
    pub(crate) paint: Paint,
}

impl Gutter {
    /// The gutter of an excerpt whose last line has this number.
    pub(crate) fn new(last: usize, paint: Paint) -> Gutter {
        Gutter {
            digits: digits(last),
            paint,
        }
    }

    /// How many columns it takes, with the blank after the bar.
    pub(crate) fn columns(&self) -> usize {
        self.digits.saturating_add(3)
    }

    /// Appends what stands before a line.
    pub(crate) fn push_number(&self, out: &mut String, number: usize) -> Result<(), AllocError> {
        let width = self.digits;
        out.push_str(self.paint.number())?;
        write!(out, "{number:>width$} |")?;
        out.push_str(self.paint.end())
    }

    /// Appends what stands before the marks.
    pub(crate) fn push_bar(&self, out: &mut String) -> Result<(), AllocError> {
        out.push_str(self.paint.number())?;
        push_times(out, ' ', self.digits)?;
        out.push_str(" |")?;
        out.push_str(self.paint.end())
    }
}

/// How many decimal digits a number has: at most 20.
fn digits(number: usize) -> usize {
    match number.checked_ilog10() {
        Some(log) => log as usize + 1,
        None => 1,
    }
}
