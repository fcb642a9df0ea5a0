//! Tests of a new name before any edit is made.
use crate::entries::{Entry, Side, scope_of};
use crate::exports::{export_at, spread_expression};
use crate::lexed::{is_before, is_token};
use crate::origins::{Origin, origin_of, origin_of_token};
use crate::reading::Reading;
use crate::refusals::RenameError;
use crate::spelling::is_name_byte;
use wac_lexer::Token;
use wac_names::Kind;

/// Whether a scope has another name of this spelling where an entry is.
fn is_met(entries: &[Entry<'_>], entry: &Entry<'_>, new: &str) -> bool {
    entries.iter().any(|other| {
        other.scope == entry.scope
            && other.side == entry.side
            && other.word == new
            && other.number != entry.number
    })
}

/// Whether a new name is taken in one of the scopes that have the name of a number.
fn is_taken(entries: &[Entry<'_>], number: usize, new: &str) -> bool {
    entries.iter().any(|entry| entry.number == Some(number) && is_met(entries, entry, new))
}

/// Whether a name is a parameter of a method of a value, whose first parameter is `self`.
fn is_beside_self(reading: &Reading, number: usize) -> bool {
    let Some(name) = reading.name(number) else {
        return false;
    };
    let Some(method) = name.container else {
        return false;
    };
    let Some(token) = reading.token_of(method) else {
        return false;
    };
    let is_static = is_token(
        reading.tokens.as_slice(),
        token.saturating_add(2),
        Token::StaticKeyword,
    );
    name.kind == Kind::Parameter && reading.kind(method) == Some(Kind::Method) && !is_static
}

/// Whether the scope of a value exports the name of a number.
fn gives(reading: &Reading, entries: &[Entry<'_>], from: Origin, number: usize) -> bool {
    let Some(scope) = scope_of(reading, from) else {
        return false;
    };
    entries.iter().any(|entry| {
        entry.scope == Some(scope) && entry.side == Side::Exports && entry.number == Some(number)
    })
}

/// What is given on at a token: an argument with `...` before it, or the export that a semicolon ends.
fn spread_at(reading: &Reading, token: usize) -> Option<Origin> {
    let tokens = reading.tokens.as_slice();
    if is_token(tokens, token, Token::Semicolon) {
        let spread = spread_expression(tokens, export_at(tokens, token)?)?;
        return Some(origin_of(reading, spread));
    }
    if is_token(tokens, token, Token::Ident) && is_before(tokens, token, Token::Ellipsis) {
        return Some(origin_of_token(reading, token));
    }
    None
}

/// Whether a name is one of those that `...` gives on.
fn is_spread(reading: &Reading, entries: &[Entry<'_>], number: usize) -> bool {
    for token in 0..reading.tokens.len() {
        if let Some(from) = spread_at(reading, token) {
            if gives(reading, entries, from, number) {
                return true;
            }
        }
    }
    false
}

/// Whether a name is an import or an export of the world that the document targets.
fn is_targeted(reading: &Reading, entries: &[Entry<'_>], number: usize) -> bool {
    if !is_token(reading.tokens.as_slice(), 2, Token::TargetsKeyword) {
        return false;
    }
    let is_item = matches!(
        reading.kind(number),
        Some(Kind::WorldImport | Kind::WorldExport | Kind::IncludedItem)
    );
    match reading.mentioned_by(3) {
        Some(world) => {
            is_item
                && entries.iter().any(|entry| entry.scope == Some(world)
                    && entry.number == Some(number))
        }
        None => false,
    }
}

/// Why the name of a number can't get a new one, by what the scopes have.
pub(crate) fn scope_fault(
    reading: &Reading,
    entries: &[Entry<'_>],
    number: usize,
    new: &str,
) -> Option<RenameError> {
    if is_taken(entries, number, new) || new == "self" && is_beside_self(reading, number) {
        return Some(RenameError::Taken);
    }
    if is_spread(reading, entries, number) {
        return Some(RenameError::Spread);
    }
    if is_targeted(reading, entries, number) {
        return Some(RenameError::Target);
    }
    None
}

/// Whether a byte of a text isn't one of a name, or there is none.
fn is_edge(bytes: &[u8], at: Option<usize>) -> bool {
    match at {
        Some(at) => match bytes.get(at) {
            Some(byte) => !is_name_byte(*byte),
            None => true,
        },
        None => true,
    }
}

/// Whether a text has a word at an offset.
fn is_word_at(source: &[u8], at: usize, word: &[u8]) -> bool {
    let Some(rest) = source.get(at..) else {
        return false;
    };
    rest.starts_with(word)
        && is_edge(source, at.checked_sub(1))
        && is_edge(source, Some(at.saturating_add(word.len())))
}

/// Whether a word is in a part of a source that is blanked in what is left.
pub(crate) fn is_blanked_word(source: &str, left: &str, word: &str) -> bool {
    let bytes = source.as_bytes();
    for (at, byte) in left.as_bytes().iter().enumerate() {
        if *byte == b' ' && is_word_at(bytes, at, word.as_bytes()) {
            return true;
        }
    }
    false
}
