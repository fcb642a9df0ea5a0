//! A narrow writer and reader.

ghost use Rattle.std.specs.Prelude.{◌≤◌, IfOk};

use std::io;
use std::io::{ErrorKind, Read, Write};

/// What a device does at a call once it has moved the bytes that it has room for.
#[derive(Clone, Copy)]
pub enum Stop {
    /// It fails, at each call.
    Fails,
    /// It fails, and would continue at the next call.
    FailsOnce,
    /// It moves nothing, and would continue at the next call.
    EndsOnce,
}

/// A writer or a reader of a text. It moves at most `width` bytes a call, stops once it has moved `room`, and knows whether
/// what was written is the text.
#[derive(Drop)]
pub struct Narrow<'a> {
    text: &'a [u8],
    width: usize,
    room: usize,
    stop: Stop,
    moved: usize,
    calls: usize,
    is_text: bool,
}

impl<'a> Narrow<'a> {
    pub fn new(text: &'a str, width: usize, room: usize) -> Self {
        Narrow {
            text: text.as_bytes(),
            width,
            room,
            stop: Stop::Fails,
            moved: 0,
            calls: 0,
            is_text: true,
        }
    }

    /// The same, which stops otherwise.
    pub fn stopping(self, stop: Stop) -> Self {
        Narrow { stop, ..self }
    }

    /// How many of the wanted bytes a call moves, if it does not fail.
    fn step(&mut self, wanted: usize) -> io::Result<usize>
        ensures { IfOk result (λ n. n ≤ wanted) }
    {
        if self.moved < self.room {
            return Ok(wanted.min(self.width).min(self.room - self.moved));
        }
        match self.stop {
            Stop::Fails => {}
            Stop::FailsOnce => self.room = usize::MAX,
            Stop::EndsOnce => {
                self.room = usize::MAX;
                return Ok(0);
            }
        }
        Err(io::Error::from(ErrorKind::BrokenPipe))
    }

    /// What the text has after the bytes that were moved.
    fn rest(&self) -> &'a [u8] {
        let (_, rest) = self.text.split_at(self.moved.min(self.text.len()));
        rest
    }

    /// How many bytes it has moved.
    pub fn moved(&self) -> usize {
        self.moved
    }

    /// How many calls there were.
    pub fn calls(&self) -> usize {
        self.calls
    }

    /// Whether just the first `moved` bytes of the text were written.
    pub fn holds(&self, moved: usize) -> bool {
        self.is_text && self.moved == moved
    }
}

impl Write for Narrow<'_> {
    fn write(&mut self, buf: &[u8]) -> io::Result<usize> {
        self.calls = self.calls.wrapping_add(1);
        let n = self.step(buf.len())?;
        let (part, _) = buf.split_at(n);
        if !self.rest().starts_with(part) {
            self.is_text = false;
        }
        self.moved = self.moved.wrapping_add(n);
        Ok(n)
    }

    fn flush(&mut self) -> io::Result<()> {
        Ok(())
    }
}

impl Read for Narrow<'_> {
    fn read(&mut self, buf: &mut [u8]) -> io::Result<usize> {
        self.calls = self.calls.wrapping_add(1);
        let rest = self.rest();
        let n = self.step(buf.len().min(rest.len()))?;
        let (part, _) = buf.split_at_mut(n);
        let (front, _) = rest.split_at(n);
        part.copy_from_slice(front);
        self.moved = self.moved.wrapping_add(n);
        Ok(n)
    }
}
