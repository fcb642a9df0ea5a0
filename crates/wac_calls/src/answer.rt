// What a caller is told.
ghost use Rattle.std.specs.Prelude.{◌≡◌};
ghost use Rattle.wac_calls.specs.Answers.{message_of, place_of, status_of, text_of, Ends, PutsMessage, PutsText};
ghost use Rattle.wac_calls.specs.Numbers.{status_number};

use crate::outcome::Outcome;
use crate::room::put;
use wac_lexer::SourceSpan;

/// How a call ended.
#[derive(Clone, Copy, Debug, PartialEq, Eq)]
pub enum Status {
    /// What the word writes is in the room for it.
    Well,
    /// The text is rejected, and the message says why.
    Rejected,
    /// No word has the number.
    Unknown,
    /// The bytes are not UTF-8.
    NotUtf8,
    /// A request for memory failed.
    OutOfMemory,
    /// Brackets are nested deeper than the limit.
    NestedTooDeep,
    /// The buffer of packages has no frames, or a frame declares no package.
    BadPackage,
}

impl Status {
    /// The number of a status. The program `wac` ends with it too, where it has that status.
    pub fn number(self) -> u32
        ensures { result ≡ status_number self }
    {
        match self {
            Status::Well => 0,
            Status::Rejected => 1,
            Status::Unknown => 2,
            Status::NotUtf8 => 3,
            Status::OutOfMemory => 4,
            Status::NestedTooDeep => 5,
            Status::BadPackage => 6,
        }
    }
}

/// What a call comes to.
#[derive(Clone, Copy, Debug)]
pub struct Answer {
    /// How it ended.
    pub status: Status,
    /// The place that is at fault, in bytes of the text, or, with `BadPackage`, of the buffer of packages.
    pub place: Option<SourceSpan>,
    /// How many bytes of the room were written. They end with a whole character.
    pub written: usize,
    /// How many bytes there are to write: a call with so much room writes them all.
    pub needed: usize,
    /// How many bytes of the room for the message were written. They end with a whole character too.
    pub message_written: usize,
    /// How many bytes the message has. Only a text that isn't rejected has none.
    pub message_needed: usize,
}

/// How a call ends that comes to this.
fn status_of(outcome: &Outcome) -> Status
    ensures { result ≡ status_of outcome.now }
{
    match outcome {
        Outcome::Written(_) => Status::Well,
        Outcome::Rejected { .. } => Status::Rejected,
        Outcome::NotUtf8 => Status::NotUtf8,
        Outcome::OutOfMemory => Status::OutOfMemory,
        Outcome::NestedTooDeep { .. } => Status::NestedTooDeep,
        Outcome::BadPackage { .. } => Status::BadPackage,
    }
}

/// The place that is at fault.
fn place_of(outcome: &Outcome) -> Option<SourceSpan>
    ensures { result ≡ place_of outcome.now }
{
    match outcome {
        Outcome::Rejected { span, .. } => *span,
        Outcome::NestedTooDeep { span } | Outcome::BadPackage { span, .. } => Some(*span),
        Outcome::Written(_) | Outcome::NotUtf8 | Outcome::OutOfMemory => None,
    }
}

/// What is written.
fn text_of(outcome: &Outcome) -> &[u8]
    ensures { result.now ≡ text_of outcome.now }
{
    match outcome {
        Outcome::Written(text) => text.as_slice(),
        Outcome::Rejected { .. }
        | Outcome::NotUtf8
        | Outcome::OutOfMemory
        | Outcome::NestedTooDeep { .. }
        | Outcome::BadPackage { .. } => b"",
    }
}

/// What is said where nothing is written.
fn message_of(outcome: &Outcome) -> &[u8]
    ensures { result.now ≡ message_of outcome.now }
{
    match outcome {
        Outcome::Written(_) => b"",
        Outcome::Rejected { message, .. } | Outcome::BadPackage { message, .. } => {
            message.as_bytes()
        }
        Outcome::NotUtf8 => b"input is not UTF-8",
        Outcome::OutOfMemory => b"out of memory",
        Outcome::NestedTooDeep { .. } => b"brackets are nested deeper than the limit",
    }
}

/// Puts what is written, or what is said in its place, into the room for it, and says so.
pub(crate) fn tell(outcome: &Outcome, out: &mut [u8], message: &mut [u8]) -> Answer
    ensures ends { Ends outcome.now result }
    ensures text { PutsText outcome.now result out.old out.new }
    ensures message { PutsMessage outcome.now result message.old message.new }
{
    let text = text_of(outcome);
    let said = message_of(outcome);
    let written = put(text, out);
    let message_written = put(said, message);
    Answer {
        status: status_of(outcome),
        place: place_of(outcome),
        written,
        needed: text.len(),
        message_written,
        message_needed: said.len(),
    }
}
