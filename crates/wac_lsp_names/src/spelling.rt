//! How names are spelled.
use crate::refusals::RenameError;
use std::alloc::{AllocError, Global};
use wac_lexer::{Lexer, Token};

/// Whether a byte may be in a name.
pub(crate) fn is_name_byte(byte: u8) -> bool {
    byte.is_ascii_alphanumeric() || byte == b'-'
}

/// What is wrong with a word of a name.
fn word_fault(word: &str) -> Option<RenameError> {
    let bytes = word.as_bytes();
    match bytes.first() {
        None => return Some(RenameError::Hyphen),
        Some(first) if !first.is_ascii_alphabetic() => return Some(RenameError::WordStart),
        Some(_) => {}
    }
    let is_small = bytes.iter().any(|byte| byte.is_ascii_lowercase());
    let is_capital = bytes.iter().any(|byte| byte.is_ascii_uppercase());
    if is_small && is_capital {
        Some(RenameError::MixedCase)
    } else {
        None
    }
}

/// What is wrong with a name, if something is: it has words with `-` between them, and each word a letter and then
/// letters and digits, all small or all capitals.
pub(crate) fn name_fault(name: &str) -> Option<RenameError> {
    if name.is_empty() {
        return Some(RenameError::Empty);
    }
    if !name.as_bytes().iter().all(|byte| is_name_byte(*byte)) {
        return Some(RenameError::Character);
    }
    for word in name.split('-') {
        if let Some(fault) = word_fault(word) {
            return Some(fault);
        }
    }
    None
}

/// Whether a text is a keyword.
fn is_keyword(name: &str) -> bool {
    let Ok(lexer) = Lexer::new(name) else {
        return false;
    };
    match lexer.peek() {
        Some((Ok(token), _)) => token != Token::Ident,
        _ => false,
    }
}

/// What a name is written with as an identifier: `%` before a keyword.
pub(crate) fn sign_of(name: &str) -> &'static str {
    if is_keyword(name) { "%" } else { "" }
}

/// A name as an identifier.
pub(crate) fn identifier(alloc: Global, name: &str) -> Result<String, AllocError> {
    let sign = sign_of(name);
    format!(in alloc; "{sign}{name}")
}

/// The part of a name after its last `/` and before a version, by which identifiers find it.
pub(crate) fn short_name(name: &str) -> &str {
    let text = match name.rsplit_once('/') {
        Some((_, last)) => last,
        None => name,
    };
    match text.split_once('@') {
        Some((first, _)) => first,
        None => text,
    }
}
