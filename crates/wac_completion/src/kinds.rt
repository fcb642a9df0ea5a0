//! Which kinds of tokens can stand at an offset.
ghost use Rattle.std.specs.Prelude.{◌≡◌, IfOk, []};
ghost use Rattle.std.specs.Str.{IsCharBoundary};
ghost use Rattle.wac_completion.specs.Standing.{AreKinds, CanFollow, Kept};
ghost use Rattle.wac_completion.specs.Words.{AreKindsAt};

use crate::begun::can_follow;
use crate::kind::KINDS;
use crate::word::word_start;
use std::alloc::{AllocError, Global};
use wac_comments_layout::too_deep;
use wac_lexer::Token;

/// Those of some kinds that can stand after a text.
fn kept(alloc: Global, text: &str, kinds: &[Token]) -> Result<Vec<Token>, AllocError>
    ensures { IfOk result (λ found. Kept (CanFollow text.now) kinds.now found.items) }
{
    let mut found = Vec::new(alloc);
    for kind in kinds {
        let can = can_follow(alloc, text, *kind)?;
        if !can {
            continue;
        }
        found.push(*kind)?;
    }
    Ok(found)
}

/// The kinds of tokens that can stand after a text and a blank, in the order of [`Token`].
///
/// A kind is among them exactly where some document begins with the text, a blank and a token of that kind. In a comment
/// and in a string that is none; nor is there one where the text has a fault, or has brackets that are nested more than a
/// thousand deep. It takes the time of some seventy parses of the text. The error is that memory ran out.
pub fn kinds_after(alloc: Global, text: &str) -> Result<Vec<Token>, AllocError>
    ensures { IfOk result (λ found. AreKinds text.now found.items) }
{
    match too_deep(text) {
        Some(_) => Ok(Vec::new(alloc)),
        None => kept(alloc, text, &KINDS),
    }
}

/// The kinds of tokens that can stand at an offset, in the order of [`Token`].
///
/// They are those that can stand after the text before the offset, of which a word is cut off first: the letters,
/// digits, `-` and `%` that touch the offset from the left. An offset past the text's end or within a character has none.
pub fn kinds_at(alloc: Global, source: &str, offset: usize) -> Result<Vec<Token>, AllocError>
    ensures kinds { IfOk result (λ found. AreKindsAt source.now offset found.items) }
    ensures none { ¬ (IsCharBoundary source.now offset) → IfOk result (λ found. found.items ≡ []) }
{
    if !source.is_char_boundary(offset) {
        return Ok(Vec::new(alloc));
    }
    let (before, _) = source.split_at(offset);
    let (text, _) = before.split_at(word_start(before));
    kinds_after(alloc, text)
}
