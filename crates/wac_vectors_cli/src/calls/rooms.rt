// What a call leaves, as a line.
use std::alloc::{AllocError, Global};
use wac_calls::{Answer, Status};

/// What bytes of a room are that no call wrote.
pub(crate) const UNTOUCHED: u8 = b'#';

/// Room of so many bytes.
pub(crate) fn room(alloc: Global, size: usize) -> Result<Vec<u8>, AllocError> {
    vec![in alloc; UNTOUCHED; size]
}

/// A word for a status.
fn status_word(status: Status) -> &'static str {
    match status {
        Status::Well => "well",
        Status::Rejected => "rejected",
        Status::Unknown => "unknown",
        Status::NotUtf8 => "not utf-8",
        Status::OutOfMemory => "out of memory",
        Status::NestedTooDeep => "nested too deep",
        Status::BadPackage => "bad package",
    }
}

/// The text at the start of a room, or `?` where it is none, or where a byte after it was written.
fn text_in(room: &[u8], written: usize) -> &str {
    let Some((text, rest)) = room.split_at_checked(written) else {
        return "?";
    };
    if rest.iter().any(|byte| *byte != UNTOUCHED) {
        return "?";
    }
    str::from_utf8(text).unwrap_or("?")
}

/// What a call left: its status, its place, and of what is written and of the message what is in the room and, where
/// that isn't all, how many bytes there are.
pub(crate) fn line(
    alloc: Global,
    answer: Answer,
    out: &[u8],
    message: &[u8],
) -> Result<String, AllocError> {
    let mut line = String::from_str(alloc, status_word(answer.status))?;
    if let Some(span) = answer.place {
        write!(line, " {}+{}", span.offset(), span.len())?;
    }
    push_room(&mut line, out, answer.written, answer.needed)?;
    push_room(
        &mut line,
        message,
        answer.message_written,
        answer.message_needed,
    )?;
    Ok(line)
}

/// Appends what is in a room, unless nothing was to be written.
fn push_room(
    line: &mut String,
    room: &[u8],
    written: usize,
    needed: usize,
) -> Result<(), AllocError> {
    let text = text_in(room, written);
    if needed > 0 || text == "?" {
        line.push_str(" | ")?;
        line.push_str(text)?;
    }
    if written != needed {
        write!(line, " of {needed}")?;
    }
    Ok(())
}

/// Appends what a call left, where it isn't what was expected.
pub(crate) fn push_difference(
    all: &mut String,
    found: &str,
    wanted: &str,
) -> Result<(), AllocError> {
    if found != wanted {
        all.push_str(found)?;
        all.push('\n')?;
    }
    Ok(())
}
