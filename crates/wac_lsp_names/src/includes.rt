//! What worlds include.
use crate::bodies::owner_around;
use crate::entries::{Entry, Side, push_entry};
use crate::lexed::is_token;
use crate::reading::Reading;
use std::alloc::AllocError;
use wac_lexer::Token;

/// An include of a world of the document.
#[derive(Clone, Copy)]
struct Inclusion {
    /// The number of the name of the world that includes.
    owner: usize,
    /// The number of the name of the world that is included.
    world: usize,
    /// The brace after `with`.
    with: Option<usize>,
}

/// The include that a token begins, if it begins one.
fn inclusion_at(reading: &Reading, token: usize) -> Option<Inclusion> {
    let tokens = reading.tokens.as_slice();
    if !is_token(tokens, token, Token::IncludeKeyword) {
        return None;
    }
    let world = reading.mentioned_by(token.saturating_add(1))?;
    let owner = owner_around(reading, token)?;
    let with = if is_token(tokens, token.saturating_add(2), Token::WithKeyword) {
        Some(token.saturating_add(3))
    } else {
        None
    };
    Some(Inclusion { owner, world, with })
}

/// Whether a name gets another one in the braces of `with`.
fn is_renamed(reading: &Reading, with: Option<usize>, word: &str) -> bool {
    let Some(brace) = with else {
        return false;
    };
    let tokens = reading.tokens.as_slice();
    let after = brace.saturating_add(1);
    for token in after..tokens.len() {
        if is_token(tokens, token, Token::CloseBrace) {
            return false;
        }
        let is_first = is_token(tokens, token.saturating_add(1), Token::AsKeyword);
        if is_first && reading.token_word(token) == word {
            return true;
        }
    }
    false
}

/// What a world has of a name of one that it includes.
fn included<'r>(reading: &Reading, inclusion: Inclusion, entry: Entry<'r>) -> Option<Entry<'r>> {
    let is_item = entry.side == Side::Imports || entry.side == Side::Exports;
    if !is_item
        || entry.scope != Some(inclusion.world)
        || is_renamed(reading, inclusion.with, entry.word)
    {
        return None;
    }
    Some(Entry {
        scope: Some(inclusion.owner),
        ..entry
    })
}

/// Adds what a world includes.
fn push_inclusion<'r>(
    reading: &Reading,
    inclusion: Inclusion,
    entries: &mut Vec<Entry<'r>>,
) -> Result<(), AllocError> {
    for at in 0..entries.len() {
        if let Some(entry) = entries.get(at).copied() {
            if let Some(entry) = included(reading, inclusion, entry) {
                push_entry(entries, entry)?;
            }
        }
    }
    Ok(())
}

/// Adds what the worlds of a document include. A world comes after those that it includes.
pub(crate) fn push_included<'r>(
    reading: &'r Reading,
    entries: &mut Vec<Entry<'r>>,
) -> Result<(), AllocError> {
    for token in 0..reading.tokens.len() {
        if let Some(inclusion) = inclusion_at(reading, token) {
            push_inclusion(reading, inclusion, entries)?;
        }
    }
    Ok(())
}
