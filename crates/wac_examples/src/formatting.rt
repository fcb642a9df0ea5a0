//! Formatting texts.

ghost use Rattle.std.specs.Prelude.{◌↔◌, IfOk, IsTrue, string_bytes};
ghost use Rattle.wac_examples.specs.Documents.{IsDocument, IsFormatted};

use std::alloc::Global;
use wac_parser::{ParseResult, format};

/// A document in the one layout, with two spaces for each depth.
pub fn formatted(alloc: Global, source: &str) -> ParseResult<String>
    ensures { IfOk result (λ text. IsDocument (string_bytes text)) }
{
    format(alloc, source, Some("  "))
}

/// Whether a document has the one layout already, with four spaces for each depth.
pub fn is_formatted(alloc: Global, source: &str) -> ParseResult<bool>
    ensures { IfOk result (λ yes. IsTrue yes ↔ IsFormatted source.now) }
{
    let text = format(alloc, source, None)?;
    Ok(text.as_str() == source)
}
