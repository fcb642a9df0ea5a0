// What became of files, and what was told of them.
use indexmap::IndexMap;
use std::alloc::{AllocError, Global};
use wac_cli_console::{Action, Outcome, Status};

/// What became of files, each by the one path without links that leads to it, and what was done before.
#[derive(Drop)]
pub(crate) struct Tally {
    outcomes: IndexMap<String, Outcome>,
    done: IndexMap<String, ()>,
}

/// How bad an outcome is.
fn rank(outcome: Outcome) -> u8 {
    match outcome {
        Outcome::Good => 0,
        Outcome::Untidy => 1,
        Outcome::Unresolved => 2,
        Outcome::Rejected => 3,
        Outcome::Failed => 4,
        Outcome::OutOfMemory => 5,
    }
}

/// Whether an outcome is that of a file of which something was told.
fn is_bad(outcome: Outcome) -> bool {
    match outcome {
        Outcome::Good | Outcome::Untidy | Outcome::Unresolved => false,
        Outcome::Rejected | Outcome::Failed | Outcome::OutOfMemory => true,
    }
}

impl Tally {
    pub(crate) fn new(alloc: Global) -> Tally {
        Tally {
            outcomes: IndexMap::new(alloc),
            done: IndexMap::new(alloc),
        }
    }

    /// Notes what became of the file at a place. Of two outcomes of a file the worse counts.
    pub(crate) fn note(
        &mut self,
        alloc: Global,
        place: &str,
        outcome: Outcome,
    ) -> Result<(), AllocError> {
        let is_better = match self.outcomes.get(place) {
            Some(before) => rank(outcome) <= rank(*before),
            None => false,
        };
        if !is_better {
            self.outcomes
                .insert(String::from_str(alloc, place)?, outcome)?;
        }
        Ok(())
    }

    /// Whether something was told of the file at a place.
    pub(crate) fn is_told(&self, place: &str) -> bool {
        match self.outcomes.get(place) {
            Some(outcome) => is_bad(*outcome),
            None => false,
        }
    }

    /// Whether something is to be done now, of which this is the name. It is to be done once.
    pub(crate) fn is_first(&mut self, name: String) -> Result<bool, AllocError> {
        if self.done.contains_key(name.as_str()) {
            return Ok(false);
        }
        self.done.insert(name, ())?;
        Ok(true)
    }

    /// What became of the files, each once.
    pub(crate) fn outcomes(&self, alloc: Global) -> Result<Vec<Outcome>, AllocError> {
        let mut all = Vec::with_capacity(alloc, self.outcomes.len())?;
        for (_, outcome) in self.outcomes.iter() {
            all.push(*outcome)?;
        }
        Ok(all)
    }

    /// The status that the files lead to.
    pub(crate) fn status(&self) -> Status {
        let mut status = Status::Well;
        for (_, outcome) in self.outcomes.iter() {
            status = status.or(outcome.status(Action::Check));
        }
        status
    }
}
