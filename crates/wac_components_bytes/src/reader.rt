//! A reader of bytes that counts its work.
ghost use Rattle.std.specs.Prelude.{◌≡◌, ◌+◌, ◌-◌, ◌<◌, ◌≤◌, length, IfErr, OnErr, OnOk};

mod numbers;
mod pieces;

use crate::error::{DecodeError, ErrorKind, error_at};

/// A place in the bytes, the end of what may be read, and the work that is left.
///
/// Each call either reads what it is named for, and is then after it, or returns the error of its first wrong byte.
/// After an error the place is somewhere in the bytes.
#[derive(Drop)]
pub struct Reader<'a> {
    bytes: &'a [u8],
    position: usize,
    end: usize,
    work: u64,
    ghost ordered: { position ≤ end },
    ghost within: { end ≤ length bytes.now },
}

impl<'a> Reader<'a> {
    /// A reader of all these bytes, which reads at most `work` of them, counted each time they are read.
    pub fn new(bytes: &'a [u8], work: u64) -> Self
        ensures bytes { result.bytes.now ≡ bytes.now }
        ensures work { result.work ≡ work }
    {
        Reader {
            bytes,
            position: 0,
            end: bytes.len(),
            work,
        }
    }

    /// The offset of the next byte.
    pub fn position(&self) -> usize
        ensures within { result ≤ length self.now.bytes.now }
        ensures position { result ≡ self.now.position }
    {
        self.position
    }

    /// The offset at which reading ends.
    pub fn end(&self) -> usize
        ensures within { result ≤ length self.now.bytes.now }
        ensures end { result ≡ self.now.end }
    {
        self.end
    }

    /// How much work is left.
    pub fn work(&self) -> u64
        ensures { result ≡ self.now.work }
    {
        self.work
    }

    /// How many bytes are left before the end.
    pub fn rest(&self) -> usize
        ensures { result ≡ self.now.end - self.now.position }
    {
        self.end - self.position
    }

    /// Goes to a place and sets the end, each at most as far as the bytes go.
    pub fn seek(&mut self, position: usize, end: usize)
        ensures bytes { self.new.bytes.now ≡ self.old.bytes.now }
        ensures work { self.new.work ≡ self.old.work }
    {
        let last = if end <= self.bytes.len() {
            end
        } else {
            self.bytes.len()
        };
        let place = if position <= last { position } else { last };
        self.end = last;
        self.position = place;
    }

    /// Takes units of work, for what lies at an offset.
    pub fn charge(&mut self, units: u64, offset: usize) -> Result<(), DecodeError>
        ensures ok { OnOk result (self.new.work + units ≡ self.old.work) }
        ensures err { IfErr result (λ e. e ≡ record { kind = ErrorKind.Work; offset = offset }) }
        ensures short { OnErr result (self.old.work < units) }
        ensures work { self.new.work ≤ self.old.work }
        ensures bytes { self.new.bytes.now ≡ self.old.bytes.now }
        ensures place { (self.new.position ≡ self.old.position) × (self.new.end ≡ self.old.end) }
    {
        if units <= self.work {
            self.work -= units;
            Ok(())
        } else {
            error_at(ErrorKind::Work, offset)
        }
    }
}
