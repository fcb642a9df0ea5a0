//! Escapes of surrogates in JSON.
//!
//! An editor whose texts are UTF-16 may send half of a pair: no text of UTF-8 has it, and it is read as U+FFFD, which
//! takes one unit of UTF-16 too, so that columns stay.
ghost use Rattle.std.specs.Prelude.{◌<◌};

use std::alloc::{AllocError, Global};

/// How many bytes an escape has, as `\ud83d`.
const ESCAPE: usize = 6;

/// The code that an escape at an offset has.
fn escape_at(bytes: &[u8], at: usize) -> Option<u32> {
    let escape = bytes.get(at..at.saturating_add(ESCAPE))?;
    if !escape.starts_with(b"\\u") {
        return None;
    }
    let mut code = 0u32;
    for byte in escape.get(2..)? {
        let digit = char::from(*byte).to_digit(16)?;
        code = code.wrapping_mul(16).wrapping_add(digit);
    }
    Some(code)
}

fn is_first_half(code: u32) -> bool {
    0xd800 <= code && code < 0xdc00
}

fn is_second_half(code: u32) -> bool {
    0xdc00 <= code && code < 0xe000
}

/// How many bytes are taken together at an offset, and whether they are half of a pair.
fn step_at(bytes: &[u8], at: usize) -> (usize, bool)
    ensures { 0 < result.0 }
{
    if bytes.get(at) != Some(&b'\\') {
        return (1, false);
    }
    let Some(code) = escape_at(bytes, at) else {
        return (2, false);
    };
    if is_second_half(code) {
        return (ESCAPE, true);
    }
    if !is_first_half(code) {
        return (ESCAPE, false);
    }
    match escape_at(bytes, at.saturating_add(ESCAPE)) {
        Some(next) if is_second_half(next) => (2 * ESCAPE, false),
        _ => (ESCAPE, true),
    }
}

/// A JSON text in which each escape of half of a pair is one of U+FFFD.
pub(crate) fn without_lone_surrogates(alloc: Global, bytes: &[u8]) -> Result<Vec<u8>, AllocError> {
    let mut found = Vec::with_capacity(alloc, bytes.len())?;
    let mut at = 0usize;
    while at < bytes.len() {
        let (len, is_half) = step_at(bytes, at);
        let end = at.saturating_add(len);
        if is_half {
            found.extend_from_slice(b"\\ufffd")?;
        } else {
            found.extend_from_slice(bytes.get(at..end).unwrap_or(&bytes[at..]))?;
        }
        at = end;
    }
    Ok(found)
}
