//! Why a text was not printed.
use std::fmt;

/// Why a text was not printed.
#[derive(Clone, Copy, Debug, PartialEq, Eq)]
pub enum PrintError {
    /// The writer failed in this call. It holds a prefix of the text, and the printer prints no more.
    Writer,
    /// The writer had failed in an earlier call. Nothing was written.
    Failed,
}

impl fmt::Display for PrintError {
    ghost use Rattle.std.specs.Prelude.{Some};
    ghost use Rattle.wac_printer_pieces.specs.Messages.{message_of};

    ghost output = { λ e. Some (message_of e) };

    fn fmt<W: fmt::Write>(&self, f: &mut fmt::Formatter<W>) -> fmt::Result {
        match *self {
            PrintError::Writer => f.write_str("the writer failed"),
            PrintError::Failed => f.write_str("the printer has failed"),
        }
    }
}

impl std::error::Error for PrintError {}

/// What a method of the printer returns.
pub type PrintResult = Result<(), PrintError>;
