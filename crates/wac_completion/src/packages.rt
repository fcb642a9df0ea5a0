//! What is written of the name of a package at an offset.

use crate::begun::can_follow;
use crate::front::recover;
use crate::word::is_word;
use std::alloc::{AllocError, Global};
use wac_comments_layout::too_deep;
use wac_lexer::{Lexer, Token};

/// What is written at an offset of the name of a package or of a path in one.
#[derive(Clone, Copy, Debug)]
pub struct PackageWord<'t> {
    /// Where it begins. It ends at the offset, and may be empty.
    pub start: usize,
    /// What is written: `shop:ca`, `shop:carts/` or `shop:carts/api@1.0`.
    pub text: &'t str,
    /// Whether the name of a package can stand there.
    pub may_be_name: bool,
    /// Whether a path can.
    pub may_be_path: bool,
}

/// Whether a byte may belong to the name of a package or to a path, with its version.
fn is_part(byte: u8) -> bool {
    is_word(byte) || matches!(byte, b':' | b'/' | b'@' | b'.' | b'+')
}

/// Where the name or the path at the end of a text begins. Where there is none, that is its end.
fn part_start(text: &str) -> usize {
    match text.as_bytes().iter().rposition(|byte| !is_part(*byte)) {
        Some(last) => last.saturating_add(1),
        None => 0,
    }
}

/// The text before what is written at an offset, and what is written. `None` where the offset isn't between two characters.
fn before(source: &str, offset: usize) -> Option<(&str, &str)> {
    let front = source.get(..offset)?;
    let start = part_start(front);
    Some((front.get(..start)?, front.get(start..)?))
}

/// Whether a text ends with the keyword of a directive, after which a package gets its own name.
fn begins_directive(text: &str) -> bool {
    let Ok(mut lexer) = Lexer::new(text) else {
        return false;
    };
    let mut is_keyword = false;
    while let Some((item, _)) = lexer.next() {
        is_keyword = matches!(item, Ok(Token::PackageKeyword));
    }
    is_keyword
}

/// The name or the path that can stand after a text whose faulty statements are blanked.
fn word_in<'t>(
    alloc: Global,
    text: &str,
    start: usize,
    written: &'t str,
) -> Result<Option<PackageWord<'t>>, AllocError> {
    if too_deep(text).is_some() || begins_directive(text) {
        return Ok(None);
    }
    let may_be_name = can_follow(alloc, text, Token::PackageName)?;
    let may_be_path = can_follow(alloc, text, Token::PackagePath)?;
    if !may_be_name && !may_be_path {
        return Ok(None);
    }
    Ok(Some(PackageWord {
        start,
        text: written,
        may_be_name,
        may_be_path,
    }))
}

/// The name or the path that can stand after a text.
fn word_after<'t>(
    alloc: Global,
    text: &str,
    written: &'t str,
) -> Result<Option<PackageWord<'t>>, AllocError> {
    match recover(alloc, text)? {
        Some(recovered) => word_in(alloc, recovered.text(), text.len(), written),
        None => Ok(None),
    }
}

/// The name or the path that can stand after the first colon of what is written, with no blank between them.
fn word_after_colon<'t>(
    alloc: Global,
    front: &'t str,
    written: &'t str,
) -> Result<Option<PackageWord<'t>>, AllocError> {
    match written.split_once(':') {
        Some((_, rest)) => {
            let text = front.strip_suffix(rest).unwrap_or(front);
            word_after(alloc, text, rest)
        }
        None => Ok(None),
    }
}

/// What is written at an offset in bytes of the name of another package, or of a path: the letters, digits and signs of
/// such names that touch the offset from the left. It is there if the name of a package or a path can stand after the
/// text before it, of which faulty statements are blanked; where none can, that is asked of what follows its first colon,
/// which may be one after a name that is bound.
///
/// `None` where none can, as in a comment, in a string, in a faulty statement that has no end and after `package`, and
/// where the offset isn't between two characters. The error is that memory ran out.
///
/// ```text
/// package_at(alloc, "package a:b; let x = new c:", 27)?;             // `c:`, at 25: a name
/// package_at(alloc, "package a:b; import x: c:d/e@1.", 31)?;         // `c:d/e@1.`, at 23: a path
/// package_at(alloc, "package a:b; import x:c", 23)?;                 // `c`, at 22: a path
/// package_at(alloc, "package a:b; let x = ", 21)?;                   // none
/// ```
pub fn package_at<'t>(
    alloc: Global,
    source: &'t str,
    offset: usize,
) -> Result<Option<PackageWord<'t>>, AllocError> {
    let Some((text, written)) = before(source, offset) else {
        return Ok(None);
    };
    match word_after(alloc, text, written) {
        Ok(Some(word)) => Ok(Some(word)),
        Ok(None) => word_after_colon(alloc, source.get(..offset).unwrap_or(""), written),
        Err(error) => Err(error),
    }
}
