//! Devices of bytes: what goes through, in which calls, and where they fail.

ghost use Rattle.std.specs.Prelude.{◌≡◌, ◌<◌, ◌≤◌, IfOk, IfSome};

use std::alloc::{AllocError, Global};
use std::io;
use std::io::{ErrorKind, Read, Write};
use std::process::Abort;
use std::test::Fail;
use wac_lexer::{Blocks, Bytes, Feed, In, Out, Sink, put_all};

/// What a device does at some of its calls in place of moving bytes. A call after that one continues with the text.
#[derive(Clone, Copy)]
enum Pause {
    /// Nothing: it moves bytes at each call.
    Never,
    /// At the call of this number it fails by an error of this kind, or says that the text ends there.
    At(usize, Option<ErrorKind>),
    /// It fails at its first call, and at every second one after that.
    EverySecond,
}

/// A writer or a reader of a text. It moves at most `width` bytes a call, fails once it has moved `room`, and knows
/// whether what was written is the text.
#[derive(Drop)]
struct Device<'a> {
    text: &'a [u8],
    width: usize,
    room: usize,
    pause: Pause,
    /// How many calls there were.
    calls: usize,
    /// In how many of them it did not pause.
    moves: usize,
    moved: usize,
    is_text: bool,
}

impl<'a> Device<'a> {
    fn new(text: &'a [u8], width: usize, room: usize) -> Self {
        Device {
            text,
            width,
            room,
            pause: Pause::Never,
            calls: 0,
            moves: 0,
            moved: 0,
            is_text: true,
        }
    }

    /// The same, which pauses.
    fn pausing(self, pause: Pause) -> Self {
        Device { pause, ..self }
    }

    /// What the call gives that is the last so far, where it moves nothing.
    fn pauses(&self) -> Option<io::Result<usize>>
        ensures { IfSome result (λ given. IfOk given (λ n. n ≡ 0)) }
    {
        match self.pause {
            Pause::At(at, Some(kind)) if self.calls == at => Some(Err(io::Error::from(kind))),
            Pause::At(at, None) if self.calls == at => Some(Ok(0)),
            Pause::EverySecond if self.calls % 2 == 1 => {
                Some(Err(io::Error::from(ErrorKind::BrokenPipe)))
            }
            _ => None,
        }
    }

    /// Counts a call, and returns how many of so many bytes it moves, if it does not fail.
    fn step(&mut self, wanted: usize) -> io::Result<usize>
        ensures { IfOk result (λ n. n ≤ wanted) }
    {
        self.calls = self.calls.wrapping_add(1);
        if let Some(given) = self.pauses() {
            return given;
        }
        self.moves = self.moves.wrapping_add(1);
        if self.moved >= self.room {
            return Err(io::Error::from(ErrorKind::BrokenPipe));
        }
        Ok(wanted.min(self.width).min(self.room - self.moved))
    }

    /// What the text has after the bytes that were moved.
    fn rest(&self) -> &'a [u8] {
        let (_, rest) = self.text.split_at(self.moved.min(self.text.len()));
        rest
    }

    /// Whether the first so many bytes of the text were written, and in so many calls that did not pause.
    fn holds(&self, moved: usize, calls: usize) -> bool {
        self.is_text && self.moved == moved && self.moves == calls
    }
}

impl Write for Device<'_> {
    fn write(&mut self, buf: &[u8]) -> io::Result<usize> {
        let n = self.step(buf.len())?;
        let (part, _) = buf.split_at(n);
        if !self.rest().starts_with(part) {
            self.is_text = false;
        }
        self.moved = self.moved.wrapping_add(n);
        Ok(n)
    }

    fn flush(&mut self) -> io::Result<()> {
        Ok(())
    }
}

impl Read for Device<'_> {
    fn read(&mut self, buf: &mut [u8]) -> io::Result<usize> {
        let rest = self.rest();
        let n = self.step(buf.len().min(rest.len()))?;
        let (part, _) = buf.split_at_mut(n);
        let (front, _) = rest.split_at(n);
        part.copy_from_slice(front);
        self.moved = self.moved.wrapping_add(n);
        Ok(n)
    }
}

/// A device of a text that moves nothing at the call of this number: it fails by this error, or reports the end.
fn pausing(text: &[u8], kind: Option<ErrorKind>, at: usize) -> Device<'_> {
    Device::new(text, usize::MAX, usize::MAX).pausing(Pause::At(at, kind))
}

/// Errors of a device. After the first of them std's own loops try again.
static ERRORS: [ErrorKind; 2] = [ErrorKind::Interrupted, ErrorKind::BrokenPipe];

/// Whether what is kept in memory is what was put.
fn keeps(alloc: Global) -> bool {
    let mut kept = Bytes::new(alloc);
    let are_put = kept.put(b"ab") == Some(2)
        && kept.put(b"") == Some(0)
        && kept.put(b"c") == Some(1);
    let bytes = kept.into_vec();
    are_put && bytes.as_slice() == b"abc".as_slice()
}

/// Whether what is written is what was put.
fn writes(alloc: Global) -> bool {
    let mut written = Vec::new(alloc);
    let mut out = Out::new(&mut written);
    let are_put = out.put(b"let") == Some(3)
        && out.put(b"") == Some(0)
        && out.put(b" x") == Some(2);
    are_put && written.as_slice() == b"let x".as_slice()
}

/// Whether a writer that takes nothing fails, but for no bytes.
fn is_full() -> bool {
    let mut full = Out::new(Device::new(b"", 0, usize::MAX));
    full.put(b"y") == None && full.put(b"") == Some(0)
}

/// Whether a put of all fails, and one after it, where a writer fails after so many bytes; it took these.
fn fails_at(text: &[u8], room: usize) -> bool {
    let mut writer = Device::new(text, 1, room);
    let mut out = Out::new(&mut writer);
    let have_failed = !put_all(&mut out, text) && out.put(b"y") == None;
    have_failed && writer.holds(room, room.saturating_add(2))
}

/// Whether a put which fails asks the writer once, and leaves it to the next put to try again.
fn puts_once(pause: Option<ErrorKind>) -> bool {
    let mut writer = pausing(b"let x", pause, 2);
    let mut out = Out::new(&mut writer);
    let are_put = out.put(b"let") == Some(3) && out.put(b" x") == None;
    if !are_put || writer.calls != 2 {
        return false;
    }
    let is_put = Out::new(&mut writer).put(b" x") == Some(2);
    is_put && writer.calls == 3 && writer.holds(5, 2)
}

/// Whether a put of all asks it once.
fn puts_all_once(pause: Option<ErrorKind>) -> bool {
    let mut writer = pausing(b"let x", pause, 1);
    let is_put = put_all(&mut Out::new(&mut writer), b"let x");
    !is_put && writer.calls == 1
}

/// Whether blocks ask it once.
fn passes_once(pause: Option<ErrorKind>) -> bool {
    let mut writer = pausing(b"let x", pause, 1);
    let mut blocks = Blocks::new(Out::new(&mut writer));
    let are_held = put_all(&mut blocks, b"let x") && !blocks.flush();
    are_held && writer.calls == 1 && writer.holds(0, 0)
}

/// Asserts it of puts, of puts of all, and of blocks.
fn is_asked_once(rt: &impl Abort, pause: Option<ErrorKind>) {
    assert!(rt; puts_once(pause), "put");
    assert!(rt; puts_all_once(pause), "put all");
    assert!(rt; passes_once(pause), "blocks");
}

#[test]
fn sinks_do_not_try_again(rt: HostRuntime) {
    for kind in &ERRORS {
        is_asked_once(&rt, Some(*kind));
    }
    is_asked_once(&rt, None);
}

#[test]
fn sinks(rt: HostRuntime) {
    assert!(rt; keeps(rt.alloc()), "memory");
    assert!(rt; writes(rt.alloc()), "a vector");
    assert!(rt; is_full(), "a full writer");
    for room in 0..5 {
        assert!(rt; fails_at(b"let x", room), "at {room}");
    }
}

/// Whether a feed gives its text in parts.
fn gives(text: &[u8]) -> bool {
    let mut feed = In::new(text);
    let mut part = [0; 3];
    let first = feed.take(&mut []) == Some(0) && feed.take(&mut part) == Some(3) && part == *b"let";
    let second = feed.take(&mut part) == Some(2) && part == *b" xt";
    first && second && feed.take(&mut part) == Some(0)
}

/// Whether a feed gives each byte up to a failure, and then fails.
fn gives_up_to(text: &[u8], room: usize) -> bool {
    let mut feed = In::new(Device::new(text, 1, room));
    let mut part = [0; 3];
    for byte in text.iter().take(room) {
        if feed.take(&mut part) != Some(1) || part[0] != *byte {
            return false;
        }
    }
    feed.take(&mut part) == None
}

/// Whether a take which fails, or finds the end, asks the reader once, and leaves it to the next take to retry.
fn takes_once(pause: Option<ErrorKind>, taken: Option<usize>) -> bool {
    let mut reader = pausing(b"let x", pause, 2);
    let mut part = [0; 3];
    let mut feed = In::new(&mut reader);
    let are_taken = feed.take(&mut part) == Some(3) && feed.take(&mut part) == taken;
    if !are_taken || reader.calls != 2 || part != *b"let" {
        return false;
    }
    let is_taken = In::new(&mut reader).take(&mut part) == Some(2);
    is_taken && reader.calls == 3 && part == *b" xt"
}

#[test]
fn feeds_do_not_try_again(rt: HostRuntime) {
    for kind in &ERRORS {
        assert!(rt; takes_once(Some(*kind), None), "a failure");
    }
    assert!(rt; takes_once(None, Some(0)), "an end");
}

#[test]
fn feeds(rt: HostRuntime) {
    assert!(rt; gives(b"let x"), "all");
    for room in 0..5 {
        assert!(rt; gives_up_to(b"let x", room), "of {room}");
    }
}

/// So many bytes.
fn bytes(alloc: Global, len: usize) -> Result<Vec<u8>, AllocError> {
    let mut bytes = Vec::new(alloc);
    for i in 0..len {
        bytes.push((i % 251) as u8)?;
    }
    Ok(bytes)
}

/// Puts a text into blocks over a writer, in parts of a length, and returns whether the writer took all of it.
fn passes(writer: &mut Device<'_>, text: &[u8], part: usize) -> bool
    requires { 0 < part }
{
    let mut blocks = Blocks::new(Out::new(writer));
    for part in text.chunks(part) {
        if !put_all(&mut blocks, part) {
            return false;
        }
    }
    blocks.flush()
}

/// Whether a text arrives whole, in so many calls of a writer of this width.
fn arrives(text: &[u8], part: usize, width: usize, calls: usize) -> bool
    requires { 0 < part }
{
    let mut writer = Device::new(text, width, usize::MAX);
    passes(&mut writer, text, part) && writer.holds(text.len(), calls)
}

/// Whether it arrives in parts of several lengths.
fn blocks_arrive(text: &[u8]) -> bool {
    arrives(text, 1, usize::MAX, 3)
        && arrives(text, 100, usize::MAX, 3)
        && arrives(text, 16_400, usize::MAX, 3)
        && arrives(text, 7, 1, 16_400)
        && arrives(text, 8192, 3, 5468)
}

/// Whether no call is made for no bytes.
fn nothing_arrives(text: &[u8]) -> bool {
    let mut writer = Device::new(text, 1, 0);
    passes(&mut writer, b"", 1) && writer.holds(0, 0)
}

/// Whether the bytes before a failure arrive.
fn arrives_up_to(text: &[u8], room: usize) -> bool {
    let mut writer = Device::new(text, usize::MAX, room);
    !passes(&mut writer, text, 4096) && writer.holds(room, room.div_ceil(8192).wrapping_add(1))
}

/// Whether they do so where the writer fails at each byte in turn.
fn blocks_arrive_up_to_a_failure(text: &[u8]) -> bool {
    for room in 0..text.len() {
        if !arrives_up_to(text, room) {
            return false;
        }
    }
    true
}

/// Puts a text into blocks and passes it on, whatever fails, and returns whether the last call succeeded.
fn put_and_flush(writer: &mut Device<'_>, text: &[u8]) -> bool {
    let mut blocks = Blocks::new(Out::new(writer));
    let mut rest = text;
    let mut flushed = false;
    for _ in 0..10_000 {
        if rest.is_empty() {
            flushed = blocks.flush();
        } else if let Some(n) = blocks.put(rest) {
            let (_, after) = rest.split_at(n);
            rest = after;
        }
    }
    flushed
}

/// Whether failures lose no byte and double none.
fn blocks_pass_failures(text: &[u8]) -> bool {
    let mut writer = Device::new(text, 3, usize::MAX).pausing(Pause::EverySecond);
    put_and_flush(&mut writer, text) && writer.holds(text.len(), 5468)
}

#[test]
fn blocks(rt: HostRuntime) -> Result<(), Fail> {
    let text = bytes(rt.alloc(), 16_400)?;
    assert!(rt; blocks_arrive(&text), "whole");
    assert!(rt; nothing_arrives(&text), "nothing");
    assert!(rt; blocks_arrive_up_to_a_failure(&text), "up to a failure");
    assert!(rt; blocks_pass_failures(&text), "after failures");
    Ok(())
}
