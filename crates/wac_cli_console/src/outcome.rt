// What became of files, and the status that follows.
ghost use Rattle.std.specs.Prelude.{◌≡◌, ◌≤◌};
ghost use Rattle.wac_cli_console.specs.Outcomes.{code_of, failure_of, status_of};

use crate::options::Action;
use wac_files::FileError;

/// What became of a file.
#[derive(Clone, Copy, Debug, PartialEq, Eq)]
pub enum Outcome {
    /// It is tidy, or has no error.
    Good,
    /// It was not tidy; it is, if it was to be written.
    Untidy,
    /// It mentions foreign packages, so it was parsed and not resolved.
    Unresolved,
    /// Its text has an error.
    Rejected,
    /// It could not be read or written.
    Failed,
    /// A request for memory failed.
    OutOfMemory,
}

/// What a run of the program came to, the worst last.
#[derive(Clone, Copy, Debug, PartialEq, Eq)]
pub enum Status {
    /// All is well.
    Well,
    /// A text has an error, or is not tidy.
    Wrong,
    /// A file, or standard input or output, could not be read or written.
    FileFailed,
    /// A request for memory failed.
    MemoryFailed,
}

impl Status {
    /// The number that the program ends with.
    pub fn code(self) -> u8
        ensures { result ≡ code_of self }
    {
        match self {
            Status::Well => 0,
            Status::Wrong => 1,
            Status::FileFailed => 3,
            Status::MemoryFailed => 4,
        }
    }

    /// The worse of two.
    pub fn or(self, other: Status) -> Status
        ensures first { code_of self ≤ code_of result }
        ensures second { code_of other ≤ code_of result }
    {
        if self.code() < other.code() {
            other
        } else {
            self
        }
    }
}

impl Outcome {
    /// What becomes of a file by a failure.
    pub fn of_failure(error: FileError) -> Outcome
        ensures { result ≡ failure_of error }
    {
        match error {
            FileError::NotFound
            | FileError::PermissionDenied
            | FileError::ReadOnly
            | FileError::NotAFile
            | FileError::ChangedMeanwhile
            | FileError::NameNotUtf8
            | FileError::NameTooLong
            | FileError::TooLarge(_)
            | FileError::Interrupted(_)
            | FileError::HalfWritten(_)
            | FileError::System(_) => Outcome::Failed,
            FileError::OutOfMemory => Outcome::OutOfMemory,
        }
    }

    /// The status that one file leads to.
    pub fn status(self, action: Action) -> Status
        ensures { result ≡ status_of self action }
    {
        match self {
            Outcome::Good | Outcome::Unresolved => Status::Well,
            Outcome::Untidy => match action {
                Action::Write => Status::Well,
                Action::Check | Action::Diff => Status::Wrong,
            },
            Outcome::Rejected => Status::Wrong,
            Outcome::Failed => Status::FileFailed,
            Outcome::OutOfMemory => Status::MemoryFailed,
        }
    }
}

/// The worst status that files lead to.
pub fn worst(outcomes: &[Outcome], action: Action) -> Status {
    let mut status = Status::Well;
    for outcome in outcomes {
        status = status.or(outcome.status(action));
    }
    status
}
