//! Devices of bytes: sinks and feeds, and those over any writer and any reader.
ghost use Rattle.std.specs.Prelude.{◌≡◌, ◌+◌, ◌++◌, ◌≤◌, ◌<◌, ℕ, List, [], Option, true, false, length, take, min, ◌-◌};
ghost use Rattle.wac_lexer.specs.Device.{PutGives, PutGrows, PutsInto, TakeLeaves, TakesFrom, TookAll, TookSome};
ghost use Rattle.wac_lexer.specs.Blocks.{IsBelow, IsEmptied, given, holding, over};

use std::alloc::Global;
use std::io::{Read, Write};
use std::marker::Model;

/// What bytes go into, in order.
///
/// A sink counts its failures. The count exists in contracts alone: it takes no memory, and has no greatest value.
pub trait Sink {
    /// The bytes that it was given so far.
    ghost bytes: { Self → List ℕ };

    /// The calls that failed so far.
    ghost failures: { Self → ℕ };

    /// Which borrow the sink is, where it is one. No call changes it, so a sink that was lent and returned is known.
    ghost borrow: { Self → ℕ } = { λ _. 0 };

    /// Appends bytes from the start of `part`, and returns how many: none only where `part` is empty.
    /// `None` appended nothing.
    fn put(&mut self, part: &[u8]) -> Option<usize>
        ensures puts { PutsInto bytes failures self.old part.now result self.new }
        ensures same { borrow self.new ≡ borrow self.old };
}

/// What bytes come from, in order.
///
/// A feed counts its failures, as a [`Sink`] does.
pub trait Feed {
    /// The bytes that it gave so far.
    ghost taken: { Self → List ℕ };

    /// The calls that failed so far.
    ghost failures: { Self → ℕ };

    /// The bytes that it has yet to give, where they are known.
    ghost left: { Self → Option (List ℕ) };

    /// Puts the next bytes at the start of `part`, and returns how many: none only where `part` is empty, or at the
    /// end. `None` took nothing.
    fn take(&mut self, part: &mut [u8]) -> Option<usize>
        ensures takes { TakesFrom taken failures self.old part.new result self.new }
        ensures leaves { TakeLeaves (left self.old) part.new result (left self.new) };
}

impl<S: Sink> Sink for &mut S {
    ghost bytes = { λ s. S.bytes s.now };

    ghost failures = { λ s. S.failures s.now };

    ghost borrow = { λ s. s.ghost_name };

    fn put(&mut self, part: &[u8]) -> Option<usize> {
        (**self).put(part)
    }
}

impl<F: Feed> Feed for &mut F {
    ghost taken = { λ f. F.taken f.now };

    ghost failures = { λ f. F.failures f.now };

    ghost left = { λ f. F.left f.now };

    fn take(&mut self, part: &mut [u8]) -> Option<usize> {
        (**self).take(part)
    }
}

/// A step of a device: it is made, or moves bytes, or fails.
#[derive(Clone, Copy)]
enum Step<'a> {
    Begins,
    Moves(&'a Tally, &'a [u8]),
    Fails(&'a Tally),
}

/// What a device did. It exists in contracts alone, and takes no memory.
#[derive(Drop)]
struct Tally {
    ghost moved: { List ℕ },
    ghost failures: { ℕ },
}

impl Model for Tally {
    ghost use base.Fml.{ftrue};

    ghost also_owns = { λ _. ftrue };
}

impl Tally {
    ghost use Rattle.wac_lexer.specs.Tally.{moved_by, failures_by};

    fn after(_step: &Step<'_>) -> Tally
        ensures { (result.moved ≡ moved_by _step.now) × (result.failures ≡ failures_by _step.now) }
    {
        Tally {}
    }
}

/// A sink over a writer. An error of the writer is a failure, and so is a writer that takes none of some bytes. Each
/// call asks the writer once: none tries again after an error, not after `Interrupted` either.
#[derive(Drop)]
pub struct Out<W: Write> {
    inner: W,
    tally: Tally,
}

impl<W: Write> Model for Out<W> {
    ghost use Rattle.wac_lexer.specs.Device.{Device};

    ghost Value = { Device };

    ghost view = { λ o. record { moved = o.tally.moved; failures = o.tally.failures; known = W.contents o.inner } };
}

impl<W: Write> Out<W> {
    /// Over a writer.
    pub fn new(inner: W) -> Self
        ensures { result ≡ record { moved = []; failures = 0; known = W.contents inner } }
    {
        Out {
            inner,
            tally: Tally::after(&Step::Begins),
        }
    }
}

impl<W: Write> Sink for Out<W> {
    ghost bytes = { λ o. o.moved };

    ghost failures = { λ o. o.failures };

    fn put(&mut self, part: &[u8]) -> Option<usize>
        ensures puts { PutGives self.old.moved self.old.failures part.now result self.new.moved self.new.failures }
        ensures grows { PutGrows self.old.known part.now result self.new.known }
    {
        match self.inner.write(part) {
            Ok(n) if n > 0 || part.is_empty() => {
                self.tally = Tally::after(&Step::Moves(&self.tally, &part[..n]));
                Some(n)
            }
            _ => {
                self.tally = Tally::after(&Step::Fails(&self.tally));
                None
            }
        }
    }
}

/// A sink that keeps the bytes that it is given. A request for memory that fails is a failure.
///
/// ```text
/// let mut kept = Bytes::new(alloc);
/// kept.put(b"abc");                   // Some(3)
/// let bytes = kept.into_vec();
/// ```
#[derive(Drop)]
pub struct Bytes {
    bytes: Vec<u8>,
    tally: Tally,
}

impl Model for Bytes {
    ghost use Rattle.wac_lexer.specs.Device.{Kept};

    ghost Value = { Kept };

    ghost view = { λ b. record { bytes = b.bytes.items; failures = b.tally.failures } };
}

impl Bytes {
    /// With no byte.
    pub fn new(alloc: Global) -> Self
        ensures { result ≡ record { bytes = []; failures = 0 } }
    {
        Bytes {
            bytes: Vec::new(alloc),
            tally: Tally::after(&Step::Begins),
        }
    }

    /// The bytes, in order.
    pub fn into_vec(self) -> Vec<u8>
        ensures { result.items ≡ self.bytes }
    {
        let Bytes { bytes, .. } = self;
        bytes
    }
}

impl Sink for Bytes {
    ghost bytes = { λ b. b.bytes };

    ghost failures = { λ b. b.failures };

    fn put(&mut self, part: &[u8]) -> Option<usize> {
        if self.bytes.extend_from_slice(part).is_ok() {
            return Some(part.len());
        }
        self.tally = Tally::after(&Step::Fails(&self.tally));
        None
    }
}

/// Puts all of some bytes into a sink, in as many calls as it needs, and returns whether it took them.
///
/// It ends at the first call that fails. What the sink took by then is a prefix of the bytes, and not the whole.
pub fn put_all<S: Sink>(sink: &mut S, part: &[u8]) -> bool
    ensures taken { result ≡ true → TookAll S.bytes S.failures sink.old part.now sink.new }
    ensures failed { result ≡ false → TookSome S.bytes S.failures sink.old part.now sink.new }
    ensures same { S.borrow sink.new ≡ S.borrow sink.old }
{
    put_until_failure(sink, part) == part.len()
}

/// Puts bytes into a sink until a call fails, and returns how many it took.
fn put_until_failure<S: Sink>(sink: &mut S, part: &[u8]) -> usize
    ensures count { result ≤ length part.now }
    ensures taken { S.bytes sink.new ≡ S.bytes sink.old ++ take result part.now }
    ensures all { result ≡ length part.now → S.failures sink.new ≡ S.failures sink.old }
    ensures some { result < length part.now → S.failures sink.new ≡ S.failures sink.old + 1 }
    ensures same { S.borrow sink.new ≡ S.borrow sink.old }
{
    let mut at = 0;
    'put: while at < part.len() {
        let (_, rest) = part.split_at(at);
        match sink.put(rest) {
            Some(n) => at += n,
            None => return at,
        }
    }
    at
}

/// How many bytes a sink of blocks passes on at once.
const BLOCK: usize = 8192;

/// A sink over a sink: it holds bytes until they fill a block of 8 KB, and then passes them on. It takes no memory.
///
/// A call fails where the sink below does; what that did not take stays held, so a failure loses no byte and moves none
/// twice. Bytes that are still held when it is dropped are lost: call [`flush`](Blocks::flush) first.
///
/// ```text
/// let mut blocks = Blocks::new(&mut out);
/// put_all(&mut blocks, b"abc");       // true, and `out` has been given nothing yet
/// blocks.flush();                     // true where `out` took all three
/// ```
#[derive(Drop)]
pub struct Blocks<S: Sink> {
    sink: S,
    block: [u8; BLOCK],
    start: usize,
    end: usize,
    tally: Tally,
}

impl<S: Sink> Model for Blocks<S> {
    ghost use Rattle.std.specs.Prelude.{◌≤◌, length};
    ghost use Rattle.wac_lexer.specs.Blocks.{Holding, over, with_block};

    ghost Value = { Holding };

    ghost view = { λ b. with_block b.block b.start b.end b.tally.moved (over S.bytes S.failures S.borrow b.sink) };

    ghost invariant = { λ b. (b.start ≤ b.end) × (b.end ≤ 8192) × (length b.tally.moved ≤ length (S.bytes b.sink)) };
}

impl<S: Sink> Blocks<S> {
    /// Over a sink, with no byte held.
    pub fn new(sink: S) -> Self
        ensures { result ≡ over S.bytes S.failures S.borrow sink }
    {
        Blocks {
            sink,
            block: [0; BLOCK],
            start: 0,
            end: 0,
            tally: Tally::after(&Step::Begins),
        }
    }

    /// Passes on all that is held, and returns whether the sink below took it.
    pub fn flush(&mut self) -> bool
        ensures same { given self.new ≡ given self.old }
        ensures passed { result ≡ true → IsEmptied self.old self.new }
        ensures failed { result ≡ false → self.new.failures ≡ self.old.failures + 1 }
        ensures full { result ≡ false → self.new.room ≡ self.old.room }
    {
        let (front, _) = self.block.as_slice().split_at(self.end);
        let (_, rest) = front.split_at(self.start);
        let wanted = rest.len();
        let n = put_until_failure(&mut self.sink, rest);
        self.tally = Tally::after(&Step::Moves(&self.tally, &rest[..n]));
        if n < wanted {
            self.start += n;
            return false;
        }
        self.start = 0;
        self.end = 0;
        true
    }

    /// Holds bytes from the start of `part`, as many as there is room for, and returns how many.
    fn hold(&mut self, part: &[u8]) -> usize
        ensures count { result ≡ min (length part.now) self.old.room }
        ensures held { self.new ≡ holding self.old result part.now }
    {
        let end = self.end;
        let n = part.len().min(BLOCK - end);
        let (front, _) = part.split_at(n);
        let (_, free) = self.block.as_mut_slice().split_at_mut(end);
        let (room, _) = free.split_at_mut(n);
        room.copy_from_slice(front);
        self.end = end + n;
        n
    }

    /// The sink below. Bytes that are held are lost.
    pub fn into_sink(self) -> S
        ensures { IsBelow S.bytes S.failures S.borrow result self }
    {
        let Blocks { sink, .. } = self;
        sink
    }
}

impl<S: Sink> Sink for Blocks<S> {
    ghost use Rattle.wac_lexer.specs.Blocks.{given, PutHolds};

    ghost bytes = { λ b. given b };

    ghost failures = { λ b. b.failures };

    fn put(&mut self, part: &[u8]) -> Option<usize>
        ensures puts { PutGives (given self.old) self.old.failures part.now result (given self.new) self.new.failures }
        ensures holds { PutHolds self.old part.now result self.new }
    {
        if self.end == BLOCK && !self.flush() {
            return None;
        }
        Some(self.hold(part))
    }
}

/// A feed over a reader. An error of the reader is a failure. Each call asks the reader once: none tries again after an
/// error, not after `Interrupted` either, nor after the end.
#[derive(Drop)]
pub struct In<R: Read> {
    inner: R,
    tally: Tally,
}

impl<R: Read> Model for In<R> {
    ghost use Rattle.wac_lexer.specs.Device.{Device};

    ghost Value = { Device };

    ghost view = { λ i. record { moved = i.tally.moved; failures = i.tally.failures; known = R.remaining i.inner } };
}

impl<R: Read> In<R> {
    /// Over a reader.
    pub fn new(inner: R) -> Self
        ensures { result ≡ record { moved = []; failures = 0; known = R.remaining inner } }
    {
        In {
            inner,
            tally: Tally::after(&Step::Begins),
        }
    }
}

impl<R: Read> Feed for In<R> {
    ghost taken = { λ i. i.moved };

    ghost failures = { λ i. i.failures };

    ghost left = { λ i. i.known };

    fn take(&mut self, part: &mut [u8]) -> Option<usize> {
        match self.inner.read(part) {
            Ok(n) => {
                self.tally = Tally::after(&Step::Moves(&self.tally, &part[..n]));
                Some(n)
            }
            Err(_) => {
                self.tally = Tally::after(&Step::Fails(&self.tally));
                None
            }
        }
    }
}
