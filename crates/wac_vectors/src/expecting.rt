//! A writer that expects a text.

use std::io;
use std::io::{ErrorKind, Write};

/// A writer that expects a text. It takes at most `width` bytes a call, fails once it took `room`, and would then take all.
#[derive(Drop)]
pub(crate) struct Expecting {
    text: &'static [u8],
    width: usize,
    room: usize,
    taken: usize,
    is_text: bool,
}

impl Expecting {
    pub(crate) fn new(text: &'static str, width: usize, room: usize) -> Self {
        Expecting {
            text: text.as_bytes(),
            width,
            room,
            taken: 0,
            is_text: true,
        }
    }

    /// What the text has after the bytes that were taken.
    fn rest(&self) -> &'static [u8] {
        let (_, rest) = self.text.split_at(self.taken.min(self.text.len()));
        rest
    }

    /// Whether it took just the first `len` bytes of the text.
    pub(crate) fn took(&self, len: usize) -> bool {
        self.is_text && self.taken == len
    }
}

impl Write for Expecting {
    fn write(&mut self, buf: &[u8]) -> io::Result<usize> {
        let n = buf.len().min(self.width).min(self.room);
        if n == 0 {
            self.room = usize::MAX;
            return Err(io::Error::from(ErrorKind::BrokenPipe));
        }
        let (part, _) = buf.split_at(n);
        if !self.rest().starts_with(part) {
            self.is_text = false;
        }
        self.room -= n;
        self.taken = self.taken.wrapping_add(n);
        Ok(n)
    }

    fn flush(&mut self) -> io::Result<()> {
        Ok(())
    }
}
