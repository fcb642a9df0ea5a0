//! Versions that aren't written as versions are.
use crate::hints::{Found, replace, say};
use crate::spot::Spot;
use std::alloc::Global;
use wac_lexer::{SourceSpan, Token};

/// Whether a byte belongs to a number.
fn is_digit(byte: u8) -> bool {
    byte.is_ascii_digit()
}

/// Whether a text is a number, without a zero before other digits.
fn is_number(text: &str) -> bool {
    let bytes = text.as_bytes();
    match bytes.first() {
        Some(b'0') => bytes.len() == 1,
        Some(_) => bytes.iter().all(|byte| is_digit(*byte)),
        None => false,
    }
}

/// A version of one number or two.
pub(crate) fn version_hint(alloc: Global, version: &str, span: SourceSpan) -> Found {
    let more = match version.split_once('.') {
        Some((major, minor)) if is_number(major) && is_number(minor) => ".0",
        None if is_number(version) => ".0.0",
        _ => return Ok(None),
    };
    let whole = format!(in alloc; "{version}{more}")?;
    let message = format!(in alloc; "the three numbers are `{whole}`")?;
    replace(alloc, message.as_str(), span, whole.as_str())
}

/// What comes after an `@` that no version follows.
pub(crate) fn version_mark_hint(alloc: Global, spot: &Spot<'_>) -> Found {
    if !spot.has(Token::At) {
        return Ok(None);
    }
    let Some(version) = spot.rest.strip_prefix("@v") else {
        return say(
            alloc,
            "after `@` comes a version of three numbers, as in `@1.2.3`",
        );
    };
    match version.as_bytes().first() {
        Some(byte) if is_digit(*byte) => {
            let mark = SourceSpan::new(spot.place.saturating_add(1), 1);
            replace(alloc, "a version has no `v`", mark, "")
        }
        _ => say(
            alloc,
            "after `@` comes a version of three numbers, as in `@1.2.3`",
        ),
    }
}
