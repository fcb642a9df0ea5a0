// What a call comes to, as C has it.
ghost use Rattle.wac_c.specs.Told.{IsPlace, IsUnknown, Tells};

use wac_calls::{Answer, Status};
use wac_lexer::SourceSpan;

/// What a call comes to: `wac_answer` of include/wac.h.
#[repr(C)]
#[derive(Clone, Copy)]
pub struct WacAnswer {
    /// The number of the status.
    pub status: u32,
    /// 1 where a place is at fault, and else 0.
    pub has_place: u8,
    /// Where that place begins, in bytes; 0 without one.
    pub offset: usize,
    /// How many bytes it has; 0 without one.
    pub length: usize,
    /// How many bytes of the room were written.
    pub written: usize,
    /// How many bytes there are to write.
    pub needed: usize,
    /// How many bytes of the room for the message were written.
    pub message_written: usize,
    /// How many bytes the message has.
    pub message_needed: usize,
}

/// Whether a place is at fault, where it begins, and how many bytes it has.
fn place_of(place: Option<SourceSpan>) -> (u8, usize, usize)
    ensures { IsPlace place result.0 result.1 result.2 }
{
    match place {
        Some(span) => (1, span.offset(), span.len()),
        None => (0, 0, 0),
    }
}

/// An answer as C has it.
pub(crate) fn c_answer(answer: Answer) -> WacAnswer
    ensures { Tells answer result }
{
    let (has_place, offset, length) = place_of(answer.place);
    WacAnswer {
        status: answer.status.number(),
        has_place,
        offset,
        length,
        written: answer.written,
        needed: answer.needed,
        message_written: answer.message_written,
        message_needed: answer.message_needed,
    }
}

/// The answer where no word has the number. Nothing is written.
pub(crate) fn unknown() -> WacAnswer
    ensures { IsUnknown result }
{
    WacAnswer {
        status: Status::Unknown.number(),
        has_place: 0,
        offset: 0,
        length: 0,
        written: 0,
        needed: 0,
        message_written: 0,
        message_needed: 0,
    }
}
