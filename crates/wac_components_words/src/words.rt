//! Identifiers.
ghost use Rattle.std.specs.Prelude.{◌≡◌, ◌↔◌, ◌++◌, IfOk, IsTrue, MatchOption, Ok, Some, codes, string_bytes};
ghost use Rattle.wac_components_words.specs.Words.{HasNoIdentifier, IsIdentifierOf, IsOneToken, begins_with_percent};
ghost use Rattle.wac_lexer.specs.Item.{next_token};
ghost use Rattle.wac_lexer.specs.Reading.{left};
ghost use Rattle.wac_lexer.specs.Span.{span};

use std::alloc::{AllocError, Global};
use wac_lexer::{Lexer, SourceSpan, Token};

/// Whether a text is one token of that kind, and nothing else.
///
/// ```text
/// is_token("get-value", Token::Ident)     // true
/// is_token("get value", Token::Ident)     // false
/// ```
pub fn is_token(text: &str, token: Token) -> bool
    ensures { IsTrue result ↔ IsOneToken text.now token }
{
    match Lexer::new(text) {
        Err(_) => false,
        Ok(lexer) => begins_with(lexer, token, text.len()),
    }
}

/// Whether the next item of a lexer is a token of that kind at the start of its source, and of that length.
fn begins_with(lexer: Lexer<'_>, token: Token, length: usize) -> bool
    ensures { IsTrue result ↔ next_token (left lexer.entry) ≡ Some (Ok token, span 0 length) }
{
    match lexer.peek() {
        Some((Ok(found), place)) => is_same(found, token) && is_whole(place, length),
        _ => false,
    }
}

/// Whether two tokens are the same.
fn is_same(found: Token, token: Token) -> bool
    ensures { IsTrue result ↔ found ≡ token }
{
    found == token
}

/// Whether a span begins at 0 and has that length.
#[tactic(auto, using(crate::proofs::Same::span_is))]
fn is_whole(place: SourceSpan, length: usize) -> bool
    ensures { IsTrue result ↔ place ≡ span 0 length }
{
    place.offset() == 0 && place.len() == length
}

/// Whether a text begins with `%`.
fn is_escaped(text: &str) -> bool
    ensures { result ≡ begins_with_percent text.now }
{
    matches!(text.as_bytes(), [b'%', ..])
}

/// The name after `%`.
fn escaped(alloc: Global, name: &str) -> Result<String, AllocError>
    ensures { IfOk result (λ word. string_bytes word ≡ codes "%" ++ name.now) }
{
    let mut word = String::from_str(alloc, "%")?;
    word.push_str(name)?;
    Ok(word)
}

/// How a name is written: as it is, or after `%` where it is a keyword. None where it isn't an identifier of WAC, as
/// one that begins with `%` itself.
///
/// ```text
/// identifier(alloc, "get-value")?     // Some("get-value")
/// identifier(alloc, "use")?           // Some("%use")
/// identifier(alloc, "a.b")?           // None
/// ```
pub fn identifier(alloc: Global, name: &str) -> Result<Option<String>, AllocError>
    ensures { IfOk result (λ found. MatchOption found (HasNoIdentifier name.now)
        (λ word. IsIdentifierOf name.now (string_bytes word))) }
{
    if is_escaped(name) {
        return Ok(None);
    }
    if is_token(name, Token::Ident) {
        return Ok(Some(String::from_str(alloc, name)?));
    }
    let word = escaped(alloc, name)?;
    if is_token(word.as_str(), Token::Ident) {
        Ok(Some(word))
    } else {
        Ok(None)
    }
}
