//! The bodies of a document: in whose declaration a bracket is.
use crate::lexed::{is_before, opener_of};
use crate::reading::Reading;
use wac_lexer::Token;

/// The number of the name that is bound at a token.
fn bound_by(reading: &Reading, token: usize) -> Option<usize> {
    let lexed = reading.tokens.get(token)?;
    reading.names.binding_at(lexed.span.offset())
}

/// The number of the name whose body a brace opens: `interface x {`, `world x {`, `x: interface {`, or an import with
/// another name after `as`.
pub(crate) fn owner_of(reading: &Reading, brace: usize) -> Option<usize> {
    let tokens = reading.tokens.as_slice();
    let before = brace.checked_sub(1)?;
    if !is_before(tokens, brace, Token::InterfaceKeyword) {
        return bound_by(reading, before);
    }
    let name = before.checked_sub(2)?;
    if is_before(tokens, name, Token::AsKeyword) {
        return bound_by(reading, name.checked_sub(2)?);
    }
    bound_by(reading, name)
}

/// The number of the name in whose body a token is.
pub(crate) fn owner_around(reading: &Reading, token: usize) -> Option<usize> {
    owner_of(reading, opener_of(reading.tokens.as_slice(), token)?)
}
