//! A reader that gives few bytes a call, and a writer that takes one.

use std::alloc::Global;
use std::io;
use std::io::{ErrorKind, Read, Write};

/// A reader of bytes that gives at most `width` a call, and fails at its end where that is asked for.
#[derive(Drop)]
pub(crate) struct Pieces<'a> {
    bytes: &'a [u8],
    width: usize,
    fails: bool,
}

impl<'a> Pieces<'a> {
    pub(crate) fn new(bytes: &'a [u8], width: usize) -> Self {
        Pieces {
            bytes,
            width,
            fails: false,
        }
    }

    /// The same, which fails at its end or doesn't.
    pub(crate) fn failing(self, fails: bool) -> Self {
        Pieces { fails, ..self }
    }
}

impl Read for Pieces<'_> {
    fn read(&mut self, buf: &mut [u8]) -> io::Result<usize> {
        let n = buf.len().min(self.bytes.len()).min(self.width);
        if n == 0 && self.fails {
            return Err(io::Error::from(ErrorKind::BrokenPipe));
        }
        let (front, rest) = self.bytes.split_at(n);
        let (part, _) = buf.split_at_mut(n);
        part.copy_from_slice(front);
        self.bytes = rest;
        Ok(n)
    }
}

/// A writer that takes a byte a call, and fails where it holds so many.
#[derive(Drop)]
pub(crate) struct Narrow {
    bytes: Vec<u8>,
    room: usize,
}

impl Narrow {
    pub(crate) fn new(alloc: Global, room: usize) -> Self {
        Narrow {
            bytes: Vec::new(alloc),
            room,
        }
    }

    /// What it took.
    pub(crate) fn bytes(&self) -> &[u8] {
        self.bytes.as_slice()
    }
}

impl Write for Narrow {
    fn write(&mut self, buf: &[u8]) -> io::Result<usize> {
        if self.bytes.len() >= self.room {
            return Err(io::Error::from(ErrorKind::BrokenPipe));
        }
        match buf.first() {
            None => Ok(0),
            Some(byte) => {
                self.bytes.push(*byte)?;
                Ok(1)
            }
        }
    }

    fn flush(&mut self) -> io::Result<()> {
        Ok(())
    }
}
