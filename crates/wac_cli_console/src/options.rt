// What a command is asked to do, as far as what it writes depends on it.

/// What `fmt` does with a file that is not tidy.
#[derive(Clone, Copy, Debug, PartialEq, Eq)]
pub enum Action {
    /// Writes it.
    Write,
    /// Names it.
    Check,
    /// Shows how it differs from the tidy one.
    Diff,
}

/// The form in which `check` reports errors.
#[derive(Clone, Copy, Debug, PartialEq, Eq)]
pub enum Report {
    /// For people, on standard error.
    Human,
    /// A JSON object for each, on a line of standard output.
    Json,
    /// A command of a GitHub workflow for each, on a line of standard output.
    Github,
}
