//! Characters with which no token begins.
use crate::hints::{Found, replace, say};
use crate::names::is_name_byte;
use crate::spot::slice;
use std::alloc::Global;
use wac_lexer::{Error, SourceSpan};

/// Characters for which another is written, that one, and what is said.
static OTHERS: [(char, &str, &str); 15] = [
    ('\u{feff}', "", "remove the byte order mark"),
    (
        '\u{a0}',
        " ",
        "this is a no-break space; write a plain blank",
    ),
    ('\u{2009}', " ", "this is a thin space; write a plain blank"),
    (
        '\u{202f}',
        " ",
        "this is a narrow space; write a plain blank",
    ),
    ('\u{3000}', " ", "this is a wide space; write a plain blank"),
    ('\u{2010}', "-", "this is another hyphen; write `-`"),
    ('\u{2013}', "-", "this is a dash; write `-`"),
    ('\u{2212}', "-", "this is a minus sign; write `-`"),
    ('\u{2026}', "...", "write three dots, `...`"),
    ('\u{2192}', "->", "write `->`"),
    ('\u{21d2}', "->", "write `->`"),
    ('\u{37e}', ";", "this is a Greek question mark; write `;`"),
    ('\u{ff1b}', ";", "this is a wide semicolon; write `;`"),
    ('\u{ff0c}', ",", "this is a wide comma; write `,`"),
    ('\u{ff1a}', ":", "this is a wide colon; write `:`"),
];

/// Characters that other languages have, and what is said.
static FOREIGN: [(char, &str); 9] = [
    (
        '&',
        "there are no references: a handle that is lent is `borrow<..>`",
    ),
    ('?', "a type whose value may be missing is `option<..>`"),
    ('*', "names are listed one by one, as in `.{a, b}`"),
    ('!', "there are no macros and no negation here"),
    ('$', "names have letters, digits and `-` alone"),
    ('|', "the cases of a choice are those of a `variant`"),
    ('+', "there are no sums here"),
    ('\\', "there are no escapes here"),
    ('~', "names have letters, digits and `-` alone"),
];

/// The mark that closes a quote that a character opens.
fn closing_quote(c: char) -> Option<char> {
    match c {
        '\'' | '`' => Some(c),
        '\u{2018}' => Some('\u{2019}'),
        '\u{201c}' => Some('\u{201d}'),
        '\u{201e}' => Some('\u{201c}'),
        '\u{ab}' => Some('\u{bb}'),
        '\u{2019}' | '\u{201d}' => Some(c),
        _ => None,
    }
}

/// What is said of a character with which no token begins.
pub(crate) fn character_hint(alloc: Global, source: &str, error: Error, span: SourceSpan) -> Found {
    if error != Error::UnexpectedToken {
        return Ok(None);
    }
    let Some(text) = slice(source, span) else {
        return Ok(None);
    };
    let Some(c) = text.chars().next() else {
        return Ok(None);
    };
    if let Some(close) = closing_quote(c) {
        return quote_hint(alloc, source, span, close);
    }
    for (other, text, message) in &OTHERS {
        if *other == c {
            return replace(alloc, message, span, text);
        }
    }
    sign_hint(alloc, source, span, c)
}

/// A text in other quotes, whose first lies at a span.
fn quote_hint(alloc: Global, source: &str, span: SourceSpan, close: char) -> Found {
    let message = "strings are between two `\"`";
    let start = span.offset().saturating_add(span.len());
    let Some(rest) = source.get(start..) else {
        return say(alloc, message);
    };
    let Some(len) = rest.find(close) else {
        return say(alloc, message);
    };
    let Some(inside) = rest.get(..len) else {
        return say(alloc, message);
    };
    if inside.as_bytes().contains(&b'\n') || inside.as_bytes().contains(&b'"') {
        return say(alloc, message);
    }
    let whole = span
        .len()
        .saturating_add(len)
        .saturating_add(close.len_utf8());
    let text = format!(in alloc; "\"{inside}\"")?;
    replace(
        alloc,
        message,
        SourceSpan::new(span.offset(), whole),
        text.as_str(),
    )
}

/// A sign or a letter that no token begins with.
fn sign_hint(alloc: Global, source: &str, span: SourceSpan, c: char) -> Found {
    if c == '#' {
        return replace(alloc, "a comment begins with `//`", span, "//");
    }
    if c == '-' {
        return hyphen_hint(alloc, source, span);
    }
    if c.is_ascii_digit() {
        return say(alloc, "a name begins with a letter");
    }
    for (foreign, message) in &FOREIGN {
        if *foreign == c {
            return say(alloc, message);
        }
    }
    if c.is_alphabetic() {
        return say(alloc, "names have the letters a to z alone");
    }
    Ok(None)
}

/// A hyphen that no name has.
fn hyphen_hint(alloc: Global, source: &str, span: SourceSpan) -> Found {
    let start = span.offset();
    if let Some(rest) = source.get(start..) {
        if rest.starts_with("--") {
            return replace(
                alloc,
                "a comment begins with `//`",
                SourceSpan::new(start, 2),
                "//",
            );
        }
    }
    let Some(before) = source.get(..start) else {
        return Ok(None);
    };
    match before.as_bytes().last() {
        Some(byte) if is_name_byte(*byte) => say(alloc, "after each `-` of a name comes a letter"),
        _ => Ok(None),
    }
}
