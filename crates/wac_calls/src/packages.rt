// The packages in one buffer.
ghost use Rattle.std.specs.Prelude.{IfOk, IsTrue};
ghost use Rattle.wac_calls.specs.Frames.{framed};
ghost use Rattle.wac_calls.specs.Packages.{ArePackages, IsComponent, IsTested};

use crate::frames::{FrameError, HEAD, frames_of};
use crate::nesting::first_deeper;
use std::alloc::{AllocFailed, Global};
use std::fmt;
use wac_lexer::SourceSpan;

/// Why a buffer has no packages. Places are in bytes of the buffer.
#[derive(Clone, Copy, Debug, PartialEq, Eq)]
pub(crate) enum PackagesError {
    /// A frame has no whole length, or fewer bytes than that.
    Cut(SourceSpan),
    /// A frame has bytes that are no text.
    NotUtf8(SourceSpan),
    /// A bracket of a text is nested deeper than the limit.
    NestedTooDeep(SourceSpan),
    /// Memory ran out.
    Memory,
}

impl PackagesError {
    /// The place that is at fault.
    pub(crate) fn span(&self) -> Option<SourceSpan> {
        match self {
            PackagesError::Cut(span)
            | PackagesError::NotUtf8(span)
            | PackagesError::NestedTooDeep(span) => Some(*span),
            PackagesError::Memory => None,
        }
    }
}

impl fmt::Display for PackagesError {
    fn fmt<W: fmt::Write>(&self, f: &mut fmt::Formatter<W>) -> fmt::Result {
        f.write_str(match self {
            PackagesError::Cut(_) => "the frame of a package is cut",
            PackagesError::NotUtf8(_) => "a package is not UTF-8",
            PackagesError::NestedTooDeep(_) => {
                "brackets of a package are nested deeper than the limit"
            }
            PackagesError::Memory => "out of memory",
        })
    }
}

impl<T: Drop> From<AllocFailed<T>> for PackagesError {
    ghost use Rattle.std.specs.Prelude.{◌≡◌};
    ghost use Rattle.wac_calls.specs.declared.packages.PackagesError.TheVariants as errors;

    ghost from_gives = { λ _ e. e ≡ errors.Memory };

    fn from(_error: AllocFailed<T>) -> PackagesError {
        PackagesError::Memory
    }
}

/// The frames of a buffer. Each is a component, or a text whose brackets are nested no deeper than the limit.
pub(crate) fn package_frames(
    alloc: Global,
    buffer: &[u8],
    limit: usize,
) -> Result<Vec<&[u8]>, PackagesError>
    ensures { IfOk result (λ frames. ArePackages limit buffer.now frames.items) }
{
    match frames_of(alloc, buffer) {
        Ok(frames) => tested(alloc, frames.as_slice(), limit),
        Err(FrameError::Cut { offset }) => {
            let length = buffer.len().saturating_sub(offset);
            Err(PackagesError::Cut(SourceSpan::new(offset, length)))
        }
        Err(FrameError::Memory) => Err(PackagesError::Memory),
    }
}

/// These frames, which follow one another from the first byte of a buffer on, if each may be that of a package.
fn tested<'b>(
    alloc: Global,
    frames: &[&'b [u8]],
    limit: usize,
) -> Result<Vec<&'b [u8]>, PackagesError>
    ensures { IfOk result (λ found. ArePackages limit (framed frames.now) found.items) }
{
    let mut found = Vec::new(alloc);
    let mut start = 0usize;
    for frame in frames {
        start = start.saturating_add(HEAD);
        found.push(tested_frame(frame, start, limit)?)?;
        start = start.saturating_add(frame.len());
    }
    Ok(found)
}

/// A frame whose bytes begin at an offset of the buffer, if it may be that of a package.
fn tested_frame(frame: &[u8], start: usize, limit: usize) -> Result<&[u8], PackagesError>
    ensures { IfOk result (λ same. IsTested limit frame.now same) }
{
    if is_component(frame) {
        return Ok(frame);
    }
    let text = match str::from_utf8(frame) {
        Ok(text) => text,
        Err(error) => {
            let offset = start.saturating_add(error.valid_up_to());
            return Err(PackagesError::NotUtf8(SourceSpan::new(offset, 1)));
        }
    };
    match first_deeper(text, limit) {
        None => Ok(frame),
        Some(span) => {
            let offset = start.saturating_add(span.offset());
            Err(PackagesError::NestedTooDeep(SourceSpan::new(offset, span.len())))
        }
    }
}

/// Whether bytes begin as those of a component.
pub(crate) fn is_component(bytes: &[u8]) -> bool
    ensures { IsTrue result → IsComponent bytes.now }
{
    match bytes.split_first_chunk::<4>() {
        Some((head, _)) => *head == *b"\0asm",
        None => false,
    }
}
