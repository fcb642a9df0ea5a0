//! How much may still be done.

use crate::fault::Fault;

/// How many steps are left: one is taken for each byte that is written, and for each thing that is looked at.
#[derive(Clone, Copy)]
pub(crate) struct Steps {
    left: u64,
}

impl Steps {
    pub(crate) fn new(left: u64) -> Self {
        Steps { left }
    }

    /// Takes so many of the steps that are left.
    pub(crate) fn take(&mut self, steps: u64) -> Result<(), Fault> {
        if steps <= self.left {
            self.left -= steps;
            Ok(())
        } else {
            Err(Fault::TooLarge)
        }
    }

    pub(crate) fn left(&self) -> u64 {
        self.left
    }
}
