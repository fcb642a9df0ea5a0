// A printed text without comments.
ghost use Rattle.std.specs.Prelude.{◌≡◌, ◌≤◌, ◌++◌, IfOk, false, length, string_bytes};
ghost use Rattle.std.specs.List.{suffix_len};
ghost use Rattle.wac_comments_layout.specs.Plain.{is_line_end, with_line_ends, ended};

use crate::brackets::is_mark;
use std::alloc::{AllocError, Global};

/// How many line ends are at the end.
fn line_ends_at_end(bytes: &[u8]) -> usize
    ensures count { result ≡ suffix_len is_line_end bytes.now }
    ensures within { result ≤ length bytes.now }
{
    bytes
        .iter()
        .rev()
        .take_while(|byte| **byte == b'\n')
        .count()
}

/// Bytes with other line ends, but within strings.
fn with_line_ends(alloc: Global, bytes: &[u8], line_end: &[u8]) -> Result<Vec<u8>, AllocError>
    ensures { IfOk result (λ found. found.items ≡ with_line_ends line_end.now false bytes.now) }
{
    let mut found = Vec::new(alloc);
    let mut quoted = false;
    for byte in bytes {
        if *byte == b'\n' && !quoted {
            found.extend_from_slice(line_end)?;
        } else if found.push(*byte).is_err() {
            return Err(AllocError);
        }
        if *byte == b'"' {
            quoted = !quoted;
        }
    }
    Ok(found)
}

/// Bytes with these line ends, but within strings. Where these are LF, all are copied at once.
fn ended_by(alloc: Global, bytes: &[u8], line_end: &str) -> Result<Vec<u8>, AllocError>
    ensures { IfOk result (λ found. found.items ≡ with_line_ends line_end.now false bytes.now) }
{
    if !is_mark(line_end, b'\n') {
        return with_line_ends(alloc, bytes, line_end.as_bytes());
    }
    let mut found = Vec::with_capacity(alloc, bytes.len().saturating_add(1))?;
    found.extend_from_slice(bytes)?;
    Ok(found)
}

/// A printed text without comments, ended by one line end. Line ends outside strings become `line_end`.
pub fn plain(alloc: Global, printed: &str, line_end: &str) -> Result<String, AllocError>
    ensures { IfOk result (λ text. string_bytes text ≡ ended line_end.now printed.now) }
{
    let bytes = printed.as_bytes();
    let (front, _) = bytes.split_at(bytes.len() - line_ends_at_end(bytes));
    let mut found = ended_by(alloc, front, line_end)?;
    found.extend_from_slice(line_end.as_bytes())?;
    match String::from_utf8(found) {
        Ok(text) => Ok(text),
        Err(_) => Err(AllocError),
    }
}
