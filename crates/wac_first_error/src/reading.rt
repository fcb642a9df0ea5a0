//! What is wrong with a text before it is parsed.
ghost use Rattle.std.specs.Prelude.{◌≡◌, IfOk};
ghost use Rattle.wac_first_error.specs.Reading.{
  begins_with_mark,
  IsReading,
  SaysMarked,
  SaysNotUtf8,
  SaysTooDeep,
};

use std::alloc::{AllocError, Global};
use wac_diagnostics::Diagnostic;
use wac_lexer::SourceSpan;

/// What bytes are.
#[derive(Debug, Drop)]
pub enum Reading<'s> {
    /// A text.
    Text(&'s str),
    /// No text, or one that begins with a byte order mark.
    Rejected(Diagnostic),
}

/// Whether bytes begin with a byte order mark, as UTF-8 has it.
fn begins_with_mark(bytes: &[u8]) -> bool
    ensures { result ≡ begins_with_mark bytes.now }
{
    bytes.len() >= 3 && bytes[0] == 0xef && bytes[1] == 0xbb && bytes[2] == 0xbf
}

/// Reads bytes as a text. They are rejected where they aren't UTF-8, at the first bad byte, and where they begin with a
/// byte order mark. The error is that memory ran out.
pub fn read_text(alloc: Global, bytes: &[u8]) -> Result<Reading<'_>, AllocError>
    ensures { IfOk result (λ reading. IsReading bytes.now reading) }
{
    match str::from_utf8(bytes) {
        Ok(text) => without_mark(alloc, text),
        Err(error) => match not_utf8(alloc, error.valid_up_to()) {
            Ok(diagnostic) => Ok(Reading::Rejected(diagnostic)),
            Err(_) => Err(AllocError),
        },
    }
}

/// Rejects a text that begins with a byte order mark.
fn without_mark(alloc: Global, text: &str) -> Result<Reading<'_>, AllocError>
    ensures { IfOk result (λ reading. IsReading text.now reading) }
{
    if !begins_with_mark(text.as_bytes()) {
        return Ok(Reading::Text(text));
    }
    match byte_order_mark(alloc) {
        Ok(diagnostic) => Ok(Reading::Rejected(diagnostic)),
        Err(_) => Err(AllocError),
    }
}

/// What is said of bytes that are UTF-8 only up to an offset.
fn not_utf8(alloc: Global, offset: usize) -> Result<Diagnostic, AllocError>
    ensures { IfOk result (λ diagnostic. SaysNotUtf8 offset diagnostic) }
{
    let message = format!(in alloc; "not UTF-8, the first bad byte is at offset {offset}")?;
    let help = String::from_str(alloc, "save the file as UTF-8")?;
    let mut diagnostic = Diagnostic::at("wac::not-utf-8", message, SourceSpan::new(offset, 1));
    diagnostic.help = Some(help);
    Ok(diagnostic)
}

/// What is said of a text that begins with a byte order mark.
fn byte_order_mark(alloc: Global) -> Result<Diagnostic, AllocError>
    ensures { IfOk result (λ diagnostic. SaysMarked diagnostic) }
{
    let message = String::from_str(alloc, "the text begins with a byte order mark")?;
    let help = String::from_str(alloc, "save the file as UTF-8 without a byte order mark")?;
    let mut diagnostic = Diagnostic::at("wac::byte-order-mark", message, SourceSpan::new(0, 3));
    diagnostic.help = Some(help);
    Ok(diagnostic)
}

/// What is said of a text whose brackets are nested too deeply. The place is the first bracket that is.
pub fn nested_too_deep(alloc: Global, span: SourceSpan) -> Result<Diagnostic, AllocError>
    ensures { IfOk result (λ diagnostic. SaysTooDeep span diagnostic) }
{
    let message = String::from_str(alloc, "brackets are nested deeper than 1,000")?;
    Ok(Diagnostic::at("wac::nested-too-deep", message, span))
}
