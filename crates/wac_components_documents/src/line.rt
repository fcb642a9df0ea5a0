//! The item that is being written.

use crate::fault::{Fault, Reason};
use crate::pieces::Piece;
use crate::steps::Steps;
use std::alloc::Global;
use wac_components_types::{NameId, Table};
use wac_components_words::{identifier, path_of};

/// The item that is being written, which is added to the text of its body once it is whole.
pub(crate) struct Line {
    pub alloc: Global,
    pub text: String,
    /// What is still to be written of the item, the next at the end.
    pub pieces: Vec<Piece>,
    /// How many bodies are open.
    pub depth: usize,
    pub steps: Steps,
}

impl Drop for Line {
    fn drop(self) {
        let Line {
            alloc: _,
            text: _,
            pieces: _,
            depth: _,
            steps: _,
        } = self;
    }
}

/// Whether all bytes of a text are printable ASCII, so that a line comment can hold it.
fn is_plain(text: &str) -> bool {
    for byte in text.as_bytes() {
        if *byte < 0x20 || *byte > 0x7e {
            return false;
        }
    }
    true
}

impl Line {
    pub(crate) fn new(alloc: Global, steps: u64) -> Self {
        Line {
            alloc,
            text: String::new(alloc),
            pieces: Vec::new(alloc),
            depth: 0,
            steps: Steps::new(steps),
        }
    }

    /// Forgets what was written of the item.
    pub(crate) fn clear(&mut self) {
        self.text.clear();
        self.pieces.clear();
    }

    /// Appends to the item, a step for each byte.
    pub(crate) fn push(&mut self, text: &str) -> Result<(), Fault> {
        self.steps.take(text.len() as u64)?;
        self.text.push_str(text)?;
        Ok(())
    }

    /// Appends an identifier, which is that name or a part of it.
    pub(crate) fn push_identifier(&mut self, text: &str, name: NameId) -> Result<(), Fault> {
        self.steps.take(text.len() as u64)?;
        match identifier(self.alloc, text)? {
            Some(word) => self.push(word.as_str()),
            None => Err(Fault::Reason(Reason::Name(name))),
        }
    }

    /// Appends a name.
    pub(crate) fn push_name(&mut self, table: &Table, name: NameId) -> Result<(), Fault> {
        self.push_identifier(table.name(name), name)
    }

    /// Appends how an interface is named in a document of that package.
    pub(crate) fn push_path(
        &mut self,
        table: &Table,
        interface: NameId,
        package: &str,
    ) -> Result<(), Fault> {
        let text = table.name(interface);
        self.steps.take(text.len() as u64)?;
        match path_of(text) {
            None => Err(Fault::Reason(Reason::Use(interface))),
            Some(path) => {
                if path.is_of(package) {
                    self.push_identifier(path.name, interface)
                } else {
                    self.push(text)
                }
            }
        }
    }

    /// Appends the blanks of a line in the innermost body and so many bodies further in.
    pub(crate) fn push_indent(&mut self, further: usize) -> Result<(), Fault> {
        for _ in 0..self.depth.saturating_add(further) {
            self.push("    ")?;
        }
        Ok(())
    }

    /// Appends a name as it is, but `?` where it holds a character that ends a line.
    pub(crate) fn push_shown(&mut self, table: &Table, name: NameId) -> Result<(), Fault> {
        let text = table.name(name);
        self.steps.take(text.len() as u64)?;
        self.push(if is_plain(text) { text } else { "?" })
    }

    /// Writes the comment that WAC can't say an item, in place of what was written of it.
    pub(crate) fn refuse(
        &mut self,
        table: &Table,
        name: NameId,
        reason: Reason,
    ) -> Result<(), Fault> {
        self.clear();
        self.push_shown(table, name)?;
        self.push(": not expressible in WAC: ")?;
        self.push_reason(table, reason)
    }

    fn push_reason(&mut self, table: &Table, reason: Reason) -> Result<(), Fault> {
        let (before, of, after) = reason.parts();
        self.push(before)?;
        if let Some(of) = of {
            self.push_shown(table, of)?;
        }
        self.push(after)
    }
}
