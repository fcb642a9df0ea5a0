//! What is written so far.

use crate::fault::{Fault, Reason};
use crate::line::Line;
use std::alloc::Global;
use wac_components_types::{NameId, Table};

/// The text of a body, and the item that is being written, which is added to it once it is whole.
pub(crate) struct Writer<'d> {
    pub table: &'d Table,
    pub line: Line,
    /// The items of the `use` that is being written.
    pub used: String,
    pub text: String,
    /// Whether an item was written last in this body, so that an empty line follows it.
    gap: bool,
    warnings: Vec<String>,
    /// What the warnings are of.
    place: String,
}

impl<'d> Drop for Writer<'d> {
    fn drop(self) {
        let Writer {
            table: _,
            line: _,
            used: _,
            text: _,
            gap: _,
            warnings: _,
            place: _,
        } = self;
    }
}

impl<'d> Writer<'d> {
    pub(crate) fn new(alloc: Global, table: &'d Table, steps: u64) -> Self {
        Writer {
            table,
            line: Line::new(alloc, steps),
            used: String::new(alloc),
            text: String::new(alloc),
            gap: false,
            warnings: Vec::new(alloc),
            place: String::new(alloc),
        }
    }

    /// The warnings alone.
    pub(crate) fn into_warnings(self) -> Vec<String> {
        let Writer {
            table: _,
            line: _,
            used: _,
            text: _,
            gap: _,
            warnings,
            place: _,
        } = self;
        warnings
    }

    pub(crate) fn alloc(&self) -> Global {
        self.line.alloc
    }

    /// Takes so many of the steps that are left.
    pub(crate) fn take(&mut self, steps: u64) -> Result<(), Fault> {
        self.line.steps.take(steps)
    }

    /// Names what the warnings are of.
    pub(crate) fn set_place(&mut self, place: &str) -> Result<(), Fault> {
        self.place.clear();
        self.place.push_str(place)?;
        Ok(())
    }

    /// Begins a body anew, without text.
    pub(crate) fn begin(&mut self, depth: usize) {
        self.text.clear();
        self.line.clear();
        self.line.depth = depth;
        self.gap = false;
    }

    /// Appends the blanks before an item or a comment to the text, with an empty line where an item is before it.
    fn begin_line(&mut self) -> Result<(), Fault> {
        self.text.push_str(if self.gap { "\n" } else { "" })?;
        for _ in 0..self.line.depth {
            self.text.push_str("    ")?;
        }
        Ok(())
    }

    /// Adds the line that was written to the text, after that.
    fn end_line(&mut self, before: &str) -> Result<(), Fault> {
        self.begin_line()?;
        self.text.push_str(before)?;
        self.text.push_str(self.line.text.as_str())?;
        self.text.push_str("\n")?;
        Ok(())
    }

    /// Adds the item that was written to the text.
    pub(crate) fn end_item(&mut self) -> Result<(), Fault> {
        self.end_line("")?;
        self.line.text.clear();
        self.gap = true;
        Ok(())
    }

    /// Adds the line that was written to the text, as the first of a body.
    pub(crate) fn open(&mut self) -> Result<(), Fault> {
        self.end_item()?;
        self.line.depth = self.line.depth.saturating_add(1);
        self.gap = false;
        Ok(())
    }

    /// Ends a body by that line.
    pub(crate) fn close(&mut self, end: &str) -> Result<(), Fault> {
        self.line.depth = self.line.depth.saturating_sub(1);
        self.gap = false;
        self.line.push(end)?;
        self.end_item()
    }

    /// The comment that was written, as a warning.
    fn warning(&self) -> Result<String, Fault> {
        let mut warning = String::from_str(self.line.alloc, self.place.as_str())?;
        warning.push_str(": ")?;
        warning.push_str(self.line.text.as_str())?;
        Ok(warning)
    }

    /// Adds the comment that was written to the text, and to the warnings.
    fn end_comment(&mut self) -> Result<(), Fault> {
        self.end_line("// ")?;
        self.gap = false;
        let length = self.place.len();
        self.take(length as u64)?;
        let warning = self.warning()?;
        self.line.text.clear();
        self.warnings.push(warning)?;
        Ok(())
    }

    /// Adds a comment: a text, and a name if it isn't one that a line can hold.
    pub(crate) fn comment(&mut self, before: &str, name: NameId) -> Result<(), Fault> {
        self.line.push(before)?;
        self.line.push_shown(self.table, name)?;
        self.end_comment()
    }

    /// Adds the comment that WAC can't say an item, and forgets what was written of it.
    pub(crate) fn refuse(&mut self, name: NameId, reason: Reason) -> Result<(), Fault> {
        self.line.refuse(self.table, name, reason)?;
        self.end_comment()
    }

    /// Whether an item was written; where WAC can't say it, the comment is added that says so.
    pub(crate) fn is_written(
        &mut self,
        written: Result<(), Fault>,
        name: NameId,
    ) -> Result<bool, Fault> {
        match written {
            Ok(()) => Ok(true),
            Err(Fault::Reason(reason)) => match self.refuse(name, reason) {
                Ok(()) => Ok(false),
                Err(fault) => Err(fault),
            },
            Err(other) => Err(other),
        }
    }

    /// Adds the item that was written to the text, or the comment that WAC can't say it. Whether it is there.
    pub(crate) fn settle(
        &mut self,
        written: Result<(), Fault>,
        name: NameId,
    ) -> Result<bool, Fault> {
        if self.is_written(written, name)? {
            self.end_item()?;
            Ok(true)
        } else {
            Ok(false)
        }
    }
}
