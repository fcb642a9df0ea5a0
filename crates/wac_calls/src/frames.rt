// Frames: several texts in one buffer.
ghost use Rattle.std.specs.Prelude.{◌≡◌, ◌<◌, ◌++◌, IfSome, IfOk, length};
ghost use Rattle.std.specs.Int.{w64, to_le_bytes};
ghost use Rattle.wac_calls.specs.Frames.{frame, framed};
ghost use Rattle.wac_calls.specs.declared.frames.FrameError.TheVariants.{Memory};

use std::alloc::{AllocFailed, Global};

/// How many bytes the length of a frame takes.
pub(crate) const HEAD: usize = 8;

/// Why a buffer has no frames.
#[derive(Clone, Copy, Debug, PartialEq, Eq)]
pub(crate) enum FrameError {
    /// The frame that begins at this byte has no whole length, or fewer bytes than that.
    Cut { offset: usize },
    /// Memory ran out.
    Memory,
}

impl<T: Drop> From<AllocFailed<T>> for FrameError {
    ghost from_gives = { λ _ e. e ≡ Memory };

    fn from(_error: AllocFailed<T>) -> FrameError {
        FrameError::Memory
    }
}

/// The number that eight bytes are, the lowest first.
fn number(bytes: [u8; HEAD]) -> usize
    ensures { to_le_bytes w64 result ≡ bytes }
{
    usize::from_le_bytes(bytes)
}

/// The first frame of a buffer, and what comes after it.
fn next_frame(buffer: &[u8]) -> Option<(&[u8], &[u8])>
    ensures is { IfSome result (λ f. buffer.now ≡ frame f.0.now ++ f.1.now) }
    ensures less { IfSome result (λ f. length f.1.now < length buffer.now) }
{
    let (head, rest) = buffer.split_first_chunk::<HEAD>()?;
    rest.split_at_checked(number(*head))
}

/// The frames of a buffer. Each is a length of eight bytes, lowest first, and so many bytes.
///
/// ```text
/// frames_of(alloc, b"\x02\0\0\0\0\0\0\0hi\0\0\0\0\0\0\0\0")      // Ok([b"hi", b""])
/// frames_of(alloc, b"\x02\0\0\0\0\0\0\0h")                       // Err(FrameError::Cut { offset: 0 })
/// ```
pub(crate) fn frames_of(alloc: Global, buffer: &[u8]) -> Result<Vec<&[u8]>, FrameError>
    ensures { IfOk result (λ found. framed found.items ≡ buffer.now) }
{
    let mut found = Vec::new(alloc);
    let mut rest = buffer;
    'frame: while !rest.is_empty() {
        let Some((text, after)) = next_frame(rest) else {
            return Err(FrameError::Cut {
                offset: buffer.len().saturating_sub(rest.len()),
            });
        };
        found.push(text)?;
        rest = after;
    }
    Ok(found)
}
