// The last line of a run.
use crate::options::Action;
use crate::outcome::Outcome;
use std::alloc::{AllocError, Global};

/// Which command a summary is of.
#[derive(Clone, Copy, PartialEq, Eq)]
pub enum Task {
    /// `fmt`, with what it does with a file that is not tidy.
    Format(Action),
    /// `check`.
    Check,
}

impl Task {
    /// What was asked of files that are not tidy. `check` asks nothing of them.
    pub fn action(self) -> Action {
        match self {
            Task::Format(action) => action,
            Task::Check => Action::Check,
        }
    }
}

/// How many files had an outcome.
fn count(outcomes: &[Outcome], wanted: Outcome) -> usize {
    outcomes
        .iter()
        .filter(|outcome| **outcome == wanted)
        .count()
}

/// How many files there were, and what became of them, on a line.
pub fn summary(alloc: Global, task: Task, outcomes: &[Outcome]) -> Result<String, AllocError> {
    let mut line = String::new(alloc);
    match outcomes.len() {
        1 => line.push_str("1 file")?,
        files => write!(line, "{files} files")?,
    }
    let untidy = count(outcomes, Outcome::Untidy);
    match task {
        Task::Format(Action::Write) => write!(line, ", {untidy} changed")?,
        Task::Format(_) => write!(line, ", {untidy} not tidy")?,
        Task::Check => {}
    }
    let rejected = count(outcomes, Outcome::Rejected);
    write!(line, ", {rejected} with errors")?;
    push_count(
        &mut line,
        count(outcomes, Outcome::Unresolved),
        "not resolved",
    )?;
    let failed = count(outcomes, Outcome::Failed);
    let without_memory = count(outcomes, Outcome::OutOfMemory);
    push_count(&mut line, failed.saturating_add(without_memory), "failed")?;
    line.push('\n')?;
    Ok(line)
}

/// Appends how many there are, if there are any.
fn push_count(line: &mut String, count: usize, what: &str) -> Result<(), AllocError> {
    if count == 0 {
        return Ok(());
    }
    write!(line, ", {count} {what}")
}
