//! The first error of bytes.
ghost use Rattle.std.specs.Prelude.{◌≡◌, IfOk, IsUtf8, false};
ghost use Rattle.wac_first_error.specs.Reading.{begins_with_mark};
ghost use Rattle.wac_first_error.specs.Verdicts.{IsVerdict};

use crate::finding::{Finding, find};
use crate::reading::{Reading, read_text};
use std::alloc::{AllocError, Global};
use wac_diagnostics::Diagnostic;

/// What bytes are.
#[derive(Debug, Drop)]
pub enum Verdict<'s> {
    /// A document, which was resolved where that was asked for.
    Document(&'s str),
    /// A document that mentions foreign packages, and so wasn't resolved.
    Unresolved(&'s str),
    /// Something else, or a document that breaks a rule: what is wrong first.
    Rejected(Diagnostic),
}

/// The first error of what a file holds.
///
/// What is tested, in this order: that the bytes are UTF-8, that they don't begin with a byte order mark, that the text
/// has no rejected character, that its brackets aren't nested deeper than a thousand, that it is a document, and where
/// `resolve` asks for it and the document mentions no foreign package, that it breaks no rule of resolving. The error
/// is that memory ran out.
pub fn first_error(alloc: Global, bytes: &[u8], resolve: bool) -> Result<Verdict<'_>, AllocError>
    ensures { IfOk result (λ verdict. IsVerdict bytes.now resolve verdict) }
{
    match read_text(alloc, bytes) {
        Ok(Reading::Text(text)) => judge(alloc, text, resolve),
        Ok(Reading::Rejected(diagnostic)) => Ok(Verdict::Rejected(diagnostic)),
        Err(_) => Err(AllocError),
    }
}

/// The first error of a text.
fn judge(alloc: Global, text: &str, resolve: bool) -> Result<Verdict<'_>, AllocError>
    requires utf8 { IsUtf8 text.now }
    requires bare { begins_with_mark text.now ≡ false }
    ensures { IfOk result (λ verdict. IsVerdict text.now resolve verdict) }
{
    match find(alloc, text, resolve) {
        Ok(Finding::Document) => Ok(Verdict::Document(text)),
        Ok(Finding::Unresolved) => Ok(Verdict::Unresolved(text)),
        Ok(Finding::Rejected(diagnostic)) => Ok(Verdict::Rejected(diagnostic)),
        Err(_) => Err(AllocError),
    }
}
