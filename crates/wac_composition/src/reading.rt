//! What bytes are before they are parsed.
ghost use Rattle.std.specs.Prelude.{IfOk};
ghost use Rattle.wac_composition.specs.Flat.{IsFlat, IsFlatText};

use std::alloc::{AllocError, Global};
use wac_comments_layout::too_deep;
use wac_first_error::{Reading, nested_too_deep, read_text};

/// Reads bytes as a text that can be parsed. They are rejected where they aren't UTF-8, where they begin with a byte
/// order mark, and where brackets are nested deeper than a thousand. The error is that memory ran out.
pub fn flat_text(alloc: Global, bytes: &[u8]) -> Result<Reading<'_>, AllocError>
    ensures { IfOk result (λ reading. IsFlat bytes.now reading) }
{
    match read_text(alloc, bytes) {
        Ok(Reading::Text(text)) => flat(alloc, text),
        Ok(Reading::Rejected(diagnostic)) => Ok(Reading::Rejected(diagnostic)),
        Err(_) => Err(AllocError),
    }
}

/// Rejects a text whose brackets are nested too deeply.
fn flat(alloc: Global, text: &str) -> Result<Reading<'_>, AllocError>
    ensures { IfOk result (λ reading. IsFlatText text.now reading) }
{
    match too_deep(text) {
        None => Ok(Reading::Text(text)),
        Some(span) => match nested_too_deep(alloc, span) {
            Ok(diagnostic) => Ok(Reading::Rejected(diagnostic)),
            Err(_) => Err(AllocError),
        },
    }
}
