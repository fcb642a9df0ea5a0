//! The types of names that are offered, as a text declares them.
use crate::named::text_at;
use crate::places::Place;
use crate::searching::plain;
use std::alloc::{AllocError, Global};
use wac_lexer::SourceSpan;

/// How many bytes are read for the types of all names that are offered together, at most.
const MOST_BYTES: usize = 8_388_608;

/// The keywords before the names of types.
static TYPES: [&str; 6] = ["type", "resource", "variant", "record", "flags", "enum"];

/// A text that declares names, and what in it has them.
#[derive(Clone, Copy)]
pub(crate) struct Declared<'d> {
    pub(crate) text: &'d str,
    pub(crate) place: Place<'d>,
}

/// The type of a name in front of this text.
fn type_before(text: &str) -> Option<&str> {
    let text = text.trim_start().strip_prefix(':')?;
    let (found, _) = text.split_once(';')?;
    match found.split_once('{') {
        Some((front, _)) => Some(front.trim()),
        None => Some(found.trim()),
    }
}

/// The keyword of a type after this text.
fn keyword_at_end(text: &str) -> Option<&'static str> {
    let text = text.trim_end();
    for keyword in TYPES.as_slice() {
        if text.ends_with(*keyword) {
            return Some(*keyword);
        }
    }
    None
}

/// Adds a word to a line: after a blank, but not within brackets at their ends, nor after a last comma.
fn push_word(line: &mut String, word: &str) -> Result<(), AllocError> {
    if word.starts_with(')') {
        if line.ends_with(',') {
            let _ = line.pop();
        }
    } else if !line.is_empty() && !line.ends_with('(') {
        line.push(' ')?;
    }
    line.push_str(word)
}

/// A text on one line.
fn one_line(alloc: Global, text: &str) -> Result<String, AllocError> {
    let mut line = String::new(alloc);
    for word in text.split_whitespace() {
        push_word(&mut line, word)?;
    }
    Ok(line)
}

/// The type of the name in a span of a text, or the keyword of a type.
fn type_at(text: &str, span: SourceSpan) -> Option<&str> {
    let end = span.offset().saturating_add(span.len());
    match type_before(text.get(end..)?) {
        Some(found) => Some(found),
        None => keyword_at_end(text.get(..span.offset())?),
    }
}

impl<'d> Declared<'d> {
    /// The type of a name, if the text declares it.
    fn type_of(self, name: &str) -> Option<&'d str> {
        let span = self.place.declares(self.text, name)?;
        if plain(text_at(self.text, span)) != plain(name) {
            return None;
        }
        type_at(self.text, span)
    }

    /// Whether the types of so many names are searched for.
    pub(crate) fn has_few(self, count: usize) -> bool {
        self.text.len().saturating_mul(count) <= MOST_BYTES
    }
}

/// What is shown beside a name: its type where a text declares it, and else the whole name.
pub(crate) fn detail(
    alloc: Global,
    declared: Option<Declared<'_>>,
    name: &str,
) -> Result<String, AllocError> {
    match declared.and_then(|declared| declared.type_of(name)) {
        Some(found) => one_line(alloc, found),
        None => String::from_str(alloc, name),
    }
}
