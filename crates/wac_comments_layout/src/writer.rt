// Writing lines.
use crate::columns::column_at_end;
use std::alloc::{AllocError, Global};

/// How lines are written.
#[derive(Clone, Copy, Debug)]
pub struct Style<'a> {
    /// What indents a line by one level: a tab, or blanks.
    pub indent: &'a str,
    /// What ends a line: LF, or CR and LF.
    pub line_end: &'a str,
}

impl Style<'_> {
    /// How many columns a tab takes: four where lines are indented by tabs, so that a comment finds its column again.
    pub fn tab(&self) -> usize {
        if self.indent == "\t" { 4 } else { 1 }
    }
}

/// Writes a text line by line.
#[derive(Drop)]
pub(crate) struct Writer<'a> {
    text: String,
    style: Style<'a>,
    depth: usize,
}

impl<'a> Writer<'a> {
    pub(crate) fn new(alloc: Global, style: Style<'a>) -> Self {
        Writer {
            text: String::new(alloc),
            style,
            depth: 0,
        }
    }

    pub(crate) fn into_text(self) -> String {
        let Writer { text, .. } = self;
        text
    }

    /// The column at which the next text will begin.
    pub(crate) fn column(&self) -> usize {
        column_at_end(self.text.as_str(), self.style.tab())
    }

    /// How deep the line is.
    pub(crate) fn depth(&self) -> usize {
        self.depth
    }

    pub(crate) fn write(&mut self, text: &str) -> Result<(), AllocError> {
        self.text.push_str(text)
    }

    fn repeat(&mut self, text: &str, times: usize) -> Result<(), AllocError> {
        for _ in 0..times {
            self.write(text)?;
        }
        Ok(())
    }

    /// So many blanks.
    pub(crate) fn blanks(&mut self, count: usize) -> Result<(), AllocError> {
        for _ in 0..count {
            self.text.push(' ')?;
        }
        Ok(())
    }

    /// Ends so many lines.
    pub(crate) fn end_lines(&mut self, count: usize) -> Result<(), AllocError> {
        self.repeat(self.style.line_end, count)
    }

    /// Ends so many lines, and begins one as deep as this.
    pub(crate) fn begin_line(&mut self, depth: usize, line_ends: usize) -> Result<(), AllocError> {
        self.end_lines(line_ends)?;
        self.repeat(self.style.indent, depth)?;
        self.depth = depth;
        Ok(())
    }

    /// Ends the line, and begins one whose text begins at a column.
    pub(crate) fn begin_below(&mut self, column: usize) -> Result<(), AllocError> {
        self.end_lines(1)?;
        let mut left = column;
        if self.style.indent == "\t" {
            self.repeat("\t", column / 4)?;
            left = column % 4;
        }
        self.blanks(left)
    }
}
