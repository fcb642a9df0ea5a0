//! Where a message is among bytes.
ghost use Rattle.std.specs.Prelude.{◌≡◌, length};
ghost use Rattle.wac_lsp_messages.specs.Frames.{LiesIn};

use crate::header::{HeaderError, body_len};

/// The longest header that is received, in bytes.
const MOST_HEADER: usize = 8192;

/// The longest body that is received, in bytes.
const MOST_BODY: usize = 67_108_864;

/// What ends a header.
const END: &[u8] = b"\r\n\r\n";

/// What bytes begin with.
#[derive(Clone, Copy, Debug, PartialEq, Eq)]
pub enum Frame {
    /// The beginning of a message, or nothing.
    Partial,
    /// A message: where its body begins, and where it ends.
    Whole {
        /// The first byte of the body.
        start: usize,
        /// The first byte after the body.
        end: usize,
    },
    /// A message whose body has more than 64 MB: it is to be skipped.
    TooLong {
        /// The first byte after the body.
        end: usize,
    },
    /// No header of a message.
    Broken(HeaderError),
}

/// How many bytes of a header are before the empty line that ends it.
fn header_len(bytes: &[u8]) -> Option<usize> {
    bytes.windows(4).position(|window| window == END)
}

/// What bytes begin with. The length of a body is tested before any of its bytes came.
pub fn frame_in(bytes: &[u8]) -> Frame
    ensures { LiesIn (length bytes.now) result }
{
    match header_len(bytes) {
        Some(len) => match bytes.get(..len) {
            Some(header) => frame_after(header, len.saturating_add(END.len()), bytes.len()),
            None => Frame::Broken(HeaderError::Endless),
        },
        None if bytes.len() > MOST_HEADER => Frame::Broken(HeaderError::Endless),
        None => Frame::Partial,
    }
}

/// What a header and the bytes after it are: so many bytes, of which the body begins at `start`.
fn frame_after(header: &[u8], start: usize, len: usize) -> Frame
    ensures { LiesIn len result }
{
    if header.len() > MOST_HEADER {
        return Frame::Broken(HeaderError::Endless);
    }
    let Ok(header) = str::from_utf8(header) else {
        return Frame::Broken(HeaderError::NoField);
    };
    match body_len(header) {
        Ok(body) => frame_of(start, body, len),
        Err(error) => Frame::Broken(error),
    }
}

/// What a message is whose body begins at `start` and has so many bytes, of so many bytes that came.
fn frame_of(start: usize, body: usize, len: usize) -> Frame
    ensures { LiesIn len result }
{
    let end = start.saturating_add(body);
    if MOST_BODY < body {
        return Frame::TooLong { end };
    }
    if end <= len {
        Frame::Whole { start, end }
    } else {
        Frame::Partial
    }
}
