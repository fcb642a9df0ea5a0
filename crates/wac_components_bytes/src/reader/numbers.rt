//! Reads numbers in LEB128.
ghost use Rattle.std.specs.Prelude.{◌≡◌, ◌+◌, ◌*◌, ◌%◌, ◌<◌, ◌≤◌, ◌^◌, length, IfErr, IfOk};
ghost use Rattle.wac_components_bytes.specs.Leb128.{IsGroups, IsLeb128, IsIndex};
ghost use Rattle.wac_components_bytes.specs.Reading.{unread, Reads};

use super::Reader;
use crate::error::{DecodeError, ErrorKind, error_at};

impl<'a> Reader<'a> {
    /// At most five groups of seven bits: the number that they are, and the last byte.
    fn groups(&mut self) -> Result<(u64, u8), DecodeError>
        ensures ok { IfOk result (λ g. Reads (unread self.old) (λ bs. IsGroups bs g.0 g.1) (unread self.new)) }
        ensures err { IfErr result (λ e. e.offset ≤ length self.old.bytes.now) }
        ensures work { self.new.work ≤ self.old.work }
        ensures bytes { self.new.bytes.now ≡ self.old.bytes.now }
    {
        let start = self.position;
        let mut value: u64 = 0;
        for place in 0..5u32 {
            let byte = self.byte()?;
            value = with_group(value, byte, place);
            if byte < 0x80 {
                return Ok((value, byte));
            }
        }
        error_at(ErrorKind::LongNumber, start)
    }

    /// A number below 2^32, in LEB128.
    pub fn number(&mut self) -> Result<u32, DecodeError>
        ensures ok { IfOk result (λ n. Reads (unread self.old) (λ bs. IsLeb128 bs n) (unread self.new)) }
        ensures err { IfErr result (λ e. e.offset ≤ length self.old.bytes.now) }
        ensures work { self.new.work ≤ self.old.work }
        ensures bytes { self.new.bytes.now ≡ self.old.bytes.now }
    {
        let start = self.position;
        let (value, _) = self.groups()?;
        match u32::try_from(value) {
            Ok(number) => Ok(number),
            Err(_) => error_at(ErrorKind::LongNumber, start),
        }
    }

    /// A signed number of 33 bits, in LEB128: `None` where it is below 0.
    pub fn index_or_opcode(&mut self) -> Result<Option<u32>, DecodeError>
        ensures ok { IfOk result (λ i. Reads (unread self.old) (λ bs. IsIndex bs i) (unread self.new)) }
        ensures err { IfErr result (λ e. e.offset ≤ length self.old.bytes.now) }
        ensures work { self.new.work ≤ self.old.work }
        ensures bytes { self.new.bytes.now ≡ self.old.bytes.now }
    {
        let start = self.position;
        let (value, last) = self.groups()?;
        if last < 0x40 {
            return match u32::try_from(value) {
                Ok(index) => Ok(Some(index)),
                Err(_) => error_at(ErrorKind::LongNumber, start),
            };
        }
        let high = value >> 32;
        if high == 0 || high == 7 {
            Ok(None)
        } else {
            error_at(ErrorKind::LongNumber, start)
        }
    }

    /// A number of at most ten bytes, which isn't needed.
    pub fn skip_long_number(&mut self) -> Result<(), DecodeError>
        ensures err { IfErr result (λ e. e.offset ≤ length self.old.bytes.now) }
        ensures work { self.new.work ≤ self.old.work }
        ensures bytes { self.new.bytes.now ≡ self.old.bytes.now }
    {
        let start = self.position;
        for _ in 0..10u32 {
            if self.byte()? < 0x80 {
                return Ok(());
            }
        }
        error_at(ErrorKind::LongNumber, start)
    }

    /// The number of items that follow. Each takes a byte at least, so there are no more of them than bytes.
    pub fn count(&mut self) -> Result<u32, DecodeError>
        ensures ok { IfOk result (λ n. Reads (unread self.old) (λ bs. IsLeb128 bs n) (unread self.new)) }
        ensures left { IfOk result (λ n. n ≤ length (unread self.new)) }
        ensures within { IfOk result (λ n. n ≤ length self.old.bytes.now) }
        ensures err { IfErr result (λ e. e.offset ≤ length self.old.bytes.now) }
        ensures work { self.new.work ≤ self.old.work }
        ensures bytes { self.new.bytes.now ≡ self.old.bytes.now }
    {
        let start = self.position;
        let count = self.number()?;
        if count as usize <= self.end - self.position {
            Ok(count)
        } else {
            error_at(ErrorKind::Count, start)
        }
    }
}

/// A number with a group of seven bits added to it.
fn with_group(value: u64, byte: u8, place: u32) -> u64
    requires value { value < 2 ^ (7 * place) }
    requires place { place < 5 }
    ensures { result ≡ value + byte % 128 * 2 ^ (7 * place) }
{
    value | (u64::from(byte & 0x7f) << (7 * place))
}
