//! Reads bytes, flags and names.
ghost use Rattle.std.specs.Prelude.{◌≡◌, ◌+◌, ◌<◌, ◌≤◌, ◌∷◌, ◌⊎◌, if◌then◌else◌, length, take, drop, IfErr, IfOk, OnErr, OnOk};
ghost use Rattle.wac_components_bytes.specs.Reading.{unread, Reads, IsName};

use super::Reader;
use crate::error::{DecodeError, ErrorKind, error_at};

impl<'a> Reader<'a> {
    /// The next byte, which stays unread.
    pub fn peek(&self) -> Result<u8, DecodeError>
        ensures ok { IfOk result (λ b. unread self.now ≡ b ∷ drop 1 (unread self.now)) }
        ensures left { OnOk result (self.now.position < self.now.end) }
        ensures end { OnErr result (self.now.end ≤ self.now.position) }
        ensures err { IfErr result (λ e. e.offset ≤ length self.now.bytes.now) }
    {
        if self.position < self.end {
            Ok(self.bytes[self.position])
        } else {
            error_at(ErrorKind::UnexpectedEnd, self.position)
        }
    }

    /// The next byte.
    pub fn byte(&mut self) -> Result<u8, DecodeError>
        ensures ok { IfOk result (λ b. unread self.old ≡ b ∷ unread self.new) }
        ensures err { IfErr result (λ e. e.offset ≤ length self.old.bytes.now) }
        ensures work { self.new.work ≤ self.old.work }
        ensures taken { OnOk result (self.new.work + 1 ≡ self.old.work) }
        ensures end { OnErr result ((self.old.end ≤ self.old.position) ⊎ (self.old.work < 1)) }
        ensures bytes { self.new.bytes.now ≡ self.old.bytes.now }
    {
        let byte = self.peek()?;
        self.charge(1, self.position)?;
        self.position += 1;
        Ok(byte)
    }

    /// A name: its length in bytes, and as many bytes of UTF-8.
    pub fn name(&mut self) -> Result<&'a str, DecodeError>
        ensures ok { IfOk result (λ s. Reads (unread self.old) (λ bs. IsName bs s.now) (unread self.new)) }
        ensures err { IfErr result (λ e. e.offset ≤ length self.old.bytes.now) }
        ensures work { self.new.work ≤ self.old.work }
        ensures bytes { self.new.bytes.now ≡ self.old.bytes.now }
    {
        let start = self.position;
        let length = self.number()? as usize;
        if length > self.end - self.position {
            return error_at(ErrorKind::UnexpectedEnd, start);
        }
        self.charge(length as u64, start)?;
        let text = text_at(self.bytes, self.position, length)?;
        self.position += length;
        Ok(text)
    }

    /// Whether something follows: a byte 0 or 1.
    pub fn flag(&mut self) -> Result<bool, DecodeError>
        ensures ok { IfOk result (λ f. unread self.old ≡ (if f then 1 else 0) ∷ unread self.new) }
        ensures err { IfErr result (λ e. e.offset ≤ length self.old.bytes.now) }
        ensures work { self.new.work ≤ self.old.work }
        ensures bytes { self.new.bytes.now ≡ self.old.bytes.now }
    {
        let start = self.position;
        match self.byte()? {
            0 => Ok(false),
            1 => Ok(true),
            _ => error_at(ErrorKind::Opcode, start),
        }
    }
}

/// The text of so many bytes from an offset on.
fn text_at(bytes: &[u8], first: usize, count: usize) -> Result<&str, DecodeError>
    requires { first + count ≤ length bytes.now }
    ensures ok { IfOk result (λ s. s.now ≡ take count (drop first bytes.now)) }
    ensures err { IfErr result (λ e. e.offset ≤ length bytes.now) }
{
    match str::from_utf8(&bytes[first..first + count]) {
        Ok(text) => Ok(text),
        Err(fault) => error_at(
            ErrorKind::Utf8,
            first.saturating_add(fault.valid_up_to()).min(bytes.len()),
        ),
    }
}
