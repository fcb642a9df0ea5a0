// What `fmt` is asked to do.
use wac_cli_console::Action;
use wac_comments::Indent;

/// What ends the lines of a tidy file.
#[derive(Clone, Copy, Debug, PartialEq, Eq)]
pub enum LineEnds {
    /// What ends the first line outside strings and block comments.
    Auto,
    /// LF.
    Lf,
    /// CR and LF.
    CrLf,
}

/// What `fmt` does, and with which layout.
#[derive(Clone, Copy, Debug, PartialEq, Eq)]
pub struct FormatOptions {
    /// What is done with a file that is not tidy.
    pub action: Action,
    /// What indents a line by one level.
    pub indent: Indent,
    /// What ends a line.
    pub line_ends: LineEnds,
}
