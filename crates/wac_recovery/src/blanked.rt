//! Texts of which a part is blanked.
ghost use Rattle.std.specs.Prelude.{◌≡◌, ◌<◌, ◌++◌, IfOk, map, string_bytes};
ghost use Rattle.wac_lexer.specs.Reading.{Slices};
ghost use Rattle.wac_recovery.specs.Blanked.{blank, blanked};

use std::alloc::{AllocError, Global};
use wac_lexer::SourceSpan;

/// What stands in the place of a byte that is blanked.
fn blank(byte: u8) -> char
    ensures is { result ≡ blank byte }
    ensures ascii { result < 128 }
{
    match byte {
        b'\n' => '\n',
        b'\r' => '\r',
        _ => ' ',
    }
}

/// Adds a blank for each byte of a text, and its line ends.
fn push_blanks(found: &mut String, part: &str) -> Result<(), AllocError>
    ensures { IfOk result (λ _. string_bytes found.new ≡ string_bytes found.old ++ map blank part.now) }
{
    for byte in part.as_bytes() {
        found.push(blank(*byte))?;
    }
    Ok(())
}

/// A text of which one part is blanked, after another one.
pub(crate) fn blanked(
    alloc: Global,
    front: &str,
    text: &str,
    part: SourceSpan,
) -> Result<String, AllocError>
    requires { Slices text.now part }
    ensures { IfOk result (λ found. string_bytes found ≡ front.now ++ blanked part text.now) }
{
    let (before, rest) = text.split_at(part.offset());
    let (part, after) = rest.split_at(part.len());
    let mut found = String::from_str(alloc, front)?;
    found.push_str(before)?;
    push_blanks(&mut found, part)?;
    found.push_str(after)?;
    Ok(found)
}
