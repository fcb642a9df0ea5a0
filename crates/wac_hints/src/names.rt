//! Names that aren't written as names are.
use crate::hints::{Found, insert, replace, say};
use crate::spot::Spot;
use std::alloc::{AllocError, Global};
use wac_lexer::{Lexer, SourceSpan, Token};

/// Whether a byte may be in a name, as other languages have it too.
pub(crate) fn is_name_byte(byte: u8) -> bool {
    byte.is_ascii_alphanumeric() || byte == b'-' || byte == b'_' || byte == b'%'
}

/// Where the name begins that goes on to an end.
fn start_of_name(bytes: &[u8]) -> usize {
    let len = bytes
        .iter()
        .rev()
        .take_while(|byte| is_name_byte(**byte))
        .count();
    bytes.len().saturating_sub(len)
}

/// How many bytes of a text are a name.
fn name_len(bytes: &[u8]) -> usize {
    bytes.iter().take_while(|byte| is_name_byte(**byte)).count()
}

/// Whether a token may be a part of a name of other languages.
fn is_part_of_name(spot: &Spot<'_>) -> bool {
    match spot.rest.as_bytes().first() {
        Some(byte) => byte.is_ascii_alphabetic() || *byte == b'_' || *byte == b'%',
        None => false,
    }
}

/// What is said of names. Those of other languages come first, since they are many tokens here.
pub(crate) fn name_hint(alloc: Global, spot: &Spot<'_>) -> Found {
    if let Some(hint) = kebab_hint(alloc, spot)? {
        return Ok(Some(hint));
    }
    if let Some(hint) = keyword_hint(alloc, spot)? {
        return Ok(Some(hint));
    }
    if let Some(hint) = joined_hint(alloc, spot)? {
        return Ok(Some(hint));
    }
    if let Some(hint) = quoted_hint(alloc, spot)? {
        return Ok(Some(hint));
    }
    namespace_hint(alloc, spot)
}

/// A name with capitals or underscores, of which a part was taken for another token.
fn kebab_hint(alloc: Global, spot: &Spot<'_>) -> Found {
    if !is_part_of_name(spot) {
        return Ok(None);
    }
    let Some(before) = spot.source.get(..spot.place) else {
        return Ok(None);
    };
    let start = start_of_name(before.as_bytes());
    let end = spot.place.saturating_add(name_len(spot.rest.as_bytes()));
    if start == spot.place && (spot.text != "_" || end <= spot.place.saturating_add(1)) {
        return Ok(None);
    }
    let Some(name) = spot.source.get(start..end) else {
        return Ok(None);
    };
    let kebab = kebab_of(alloc, name)?;
    let span = SourceSpan::new(start, end.saturating_sub(start));
    if is_name(kebab.as_str()) {
        let message = format!(in alloc;
            "a name has small letters, and `-` between its words: `{kebab}`"
        )?;
        return replace(alloc, message.as_str(), span, kebab.as_str());
    }
    say(
        alloc,
        "a name has small letters and digits, and `-` between its words",
    )
}

/// Whether a text is one name.
pub(crate) fn is_name(text: &str) -> bool {
    let Ok(mut lexer) = Lexer::new(text) else {
        return false;
    };
    match lexer.next() {
        Some((Ok(Token::Ident), span)) => span.len() == text.len(),
        _ => false,
    }
}

/// The words of a name, in small letters and with hyphens between; a keyword gets its `%`.
fn kebab_of(alloc: Global, name: &str) -> Result<String, AllocError> {
    let mut kebab = String::new(alloc);
    let mut last = b'_';
    for (at, byte) in name.as_bytes().iter().enumerate() {
        if byte.is_ascii_alphanumeric() {
            let next = name
                .as_bytes()
                .get(at.saturating_add(1))
                .copied()
                .unwrap_or(b'_');
            if begins_word(last, *byte, next) && !kebab.is_empty() {
                kebab.push('-')?;
            }
            kebab.push(char::from(byte.to_ascii_lowercase()))?;
        }
        last = *byte;
    }
    if is_keyword(kebab.as_str()) {
        return format!(in alloc; "%{kebab}");
    }
    Ok(kebab)
}

/// Whether a word of a name begins with a byte, by the bytes on both sides.
fn begins_word(last: u8, byte: u8, next: u8) -> bool {
    if !last.is_ascii_alphanumeric() {
        return true;
    }
    byte.is_ascii_uppercase() && (!last.is_ascii_uppercase() || next.is_ascii_lowercase())
}

/// Whether a text is a keyword.
pub(crate) fn is_keyword(text: &str) -> bool {
    let Ok(mut lexer) = Lexer::new(text) else {
        return false;
    };
    match lexer.next() {
        Some((Ok(token), span)) => {
            token != Token::Ident
                && span.len() == text.len()
                && text.as_bytes().iter().all(|byte| is_name_byte(*byte))
                && text != "_"
        }
        _ => false,
    }
}

/// A keyword in the place of a name.
fn keyword_hint(alloc: Global, spot: &Spot<'_>) -> Found {
    if !spot.expects(Token::Ident) || !is_keyword(spot.text) {
        return Ok(None);
    }
    if let Some(hint) = function_first_hint(alloc, spot)? {
        return Ok(Some(hint));
    }
    if !spot.expects_only(Token::Ident) && !is_declared(spot) {
        return Ok(None);
    }
    let word = spot.text;
    let message = format!(in alloc; "`{word}` is a keyword; as a name it is `%{word}`")?;
    insert(alloc, message.as_str(), spot.place, "%")
}

/// Whether what was found is followed by a colon, as a name is that is declared.
fn is_declared(spot: &Spot<'_>) -> bool {
    match spot.rest.get(spot.text.len()..) {
        Some(after) => after.trim_start().starts_with(':'),
        None => false,
    }
}

/// `func` before the name of a function.
fn function_first_hint(alloc: Global, spot: &Spot<'_>) -> Found {
    if !spot.has(Token::FuncKeyword) {
        return Ok(None);
    }
    let Some(after) = spot.rest.get(spot.text.len()..) else {
        return Ok(None);
    };
    let trimmed = after.trim_start();
    let Some(name) = trimmed.get(..name_len(trimmed.as_bytes())) else {
        return Ok(None);
    };
    if name.is_empty() {
        return Ok(None);
    }
    let blanks = after.len().saturating_sub(trimmed.len());
    let whole = spot
        .text
        .len()
        .saturating_add(blanks)
        .saturating_add(name.len());
    let text = format!(in alloc; "{name}: func")?;
    let message = format!(in alloc; "the name comes first: `{text}`")?;
    replace(alloc, message.as_str(), spot.ahead(whole), text.as_str())
}

/// A package name or path in the place of a name: a blank is missing after the colon, or the name.
fn joined_hint(alloc: Global, spot: &Spot<'_>) -> Found {
    if !spot.has(Token::PackageName) && !spot.has(Token::PackagePath) {
        return Ok(None);
    }
    if !spot.expects(Token::Ident) || spot.expects(Token::PackagePath) {
        return Ok(None);
    }
    let Some((name, rest)) = spot.text.split_once(':') else {
        return Ok(None);
    };
    if spot.has(Token::PackagePath) && !rest.as_bytes().contains(&b':') {
        return nameless_hint(alloc, spot, rest);
    }
    let message = format!(in alloc; "a blank comes after the colon: `{name}: {rest}`")?;
    let colon = spot.place.saturating_add(name.len()).saturating_add(1);
    insert(alloc, message.as_str(), colon, " ")
}

/// An import of a path, without a name. The last segment of the path can be one.
fn nameless_hint(alloc: Global, spot: &Spot<'_>, rest: &str) -> Found {
    if !spot.follows(Token::ImportKeyword) {
        return Ok(None);
    }
    let segment = match rest.rsplit_once('/') {
        Some((_, segment)) => segment,
        None => rest,
    };
    let name = segment.split_once('@').map_or(segment, |parts| parts.0);
    let text = format!(in alloc; "{name}: ")?;
    let path = spot.text;
    let message = format!(in alloc; "an import has a name: `{text}{path}`")?;
    insert(alloc, message.as_str(), spot.place, text.as_str())
}

/// A string in the place of a name.
fn quoted_hint(alloc: Global, spot: &Spot<'_>) -> Found {
    let wanted = spot.expects(Token::Ident) || spot.expects(Token::PackageName);
    if !spot.has(Token::String) || !wanted || spot.open.is_some() {
        return Ok(None);
    }
    let inside = spot.text.trim_matches('"');
    let message = format!(in alloc; "names are written without quotes: `{inside}`")?;
    replace(alloc, message.as_str(), spot.ahead(spot.text.len()), inside)
}

/// A package without a namespace, or with another mark after it.
fn namespace_hint(alloc: Global, spot: &Spot<'_>) -> Found {
    if !spot.expects(Token::PackageName) || !spot.has(Token::Ident) {
        return Ok(None);
    }
    let name = spot.text;
    let after = spot.rest.get(name.len()..).unwrap_or("");
    let len = if after.starts_with("::") {
        2
    } else if after.starts_with('.') || after.starts_with('/') {
        1
    } else {
        let message = format!(in alloc; "a package's name has a namespace, as `my:{name}`")?;
        return say(alloc, message.as_str());
    };
    let mark = SourceSpan::new(spot.place.saturating_add(name.len()), len);
    replace(alloc, "one `:` comes after a namespace", mark, ":")
}
