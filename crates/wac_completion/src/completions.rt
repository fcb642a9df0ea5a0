//! What can stand at an offset, by its text.

use crate::front::{before, recover};
use crate::kind::text_of;
use crate::kinds::kinds_after;
use crate::names::{Candidate, names_after};
use crate::word::begins_with;
use std::alloc::{AllocError, Global};
use wac_lexer::Token;

/// What a completion is.
#[derive(Clone, Copy)]
pub enum Completed {
    /// A keyword or a symbol.
    Token(Token),
    /// A name.
    Name(Candidate),
}

/// Something that can stand at an offset.
#[derive(Drop)]
pub struct Completion {
    /// Its text.
    pub label: String,
    /// What it is.
    pub what: Completed,
}

/// What can stand at an offset.
#[derive(Drop)]
pub struct Completions {
    /// Where the word begins that each of them can replace. It ends at the offset, and may be empty.
    pub start: usize,
    /// The names in the order of the text, then the keywords and symbols in the order of [`Token`].
    pub all: Vec<Completion>,
    /// Whether no name was left out, as [`names_at`](crate::names_at) does where there are very many.
    pub is_complete: bool,
}

/// The text of a keyword or a symbol. Other kinds of tokens have many.
fn label(kind: Token) -> Option<&'static str> {
    match kind {
        Token::Comment
        | Token::BlockComment
        | Token::Ident
        | Token::String
        | Token::PackageName
        | Token::PackagePath => None,
        _ => Some(text_of(kind)),
    }
}

/// Adds a completion with a copy of this text.
fn add(
    alloc: Global,
    found: &mut Vec<Completion>,
    text: &str,
    what: Completed,
) -> Result<(), AllocError> {
    let label = String::from_str(alloc, text)?;
    found.push(Completion { label, what })?;
    Ok(())
}

/// Adds names, each as the source has it.
fn add_names(
    alloc: Global,
    found: &mut Vec<Completion>,
    source: &str,
    names: &[Candidate],
) -> Result<(), AllocError> {
    for name in names {
        add(alloc, found, name.text_in(source), Completed::Name(*name))?;
    }
    Ok(())
}

/// Adds those keywords and symbols of some kinds that begin with a word.
fn add_tokens(
    alloc: Global,
    found: &mut Vec<Completion>,
    word: &str,
    kinds: &[Token],
) -> Result<(), AllocError> {
    for kind in kinds {
        if let Some(text) = label(*kind) {
            if begins_with(text, word) {
                add(alloc, found, text, Completed::Token(*kind))?;
            }
        }
    }
    Ok(())
}

/// No completions of a word that begins at an offset.
fn no_completions(alloc: Global, start: usize) -> Completions {
    Completions {
        start,
        all: Vec::new(alloc),
        is_complete: true,
    }
}

/// The names, keywords and symbols that can stand after a text and begin with a word.
fn completions_after(
    alloc: Global,
    source: &str,
    text: &str,
    word: &str,
) -> Result<Completions, AllocError> {
    let mut found = no_completions(alloc, text.len());
    let Some(recovered) = recover(alloc, text)? else {
        return Ok(found);
    };
    let names = names_after(alloc, &recovered, source, word)?;
    found.is_complete = names.is_complete;
    add_names(alloc, &mut found.all, source, &names.all)?;
    let kinds = kinds_after(alloc, recovered.text())?;
    add_tokens(alloc, &mut found.all, word, &kinds)?;
    Ok(found)
}

/// The names, keywords and symbols that can stand at an offset and begin with the word that touches it from the left.
///
/// They are those that [`names_at`](crate::names_at) and [`kinds_at`](crate::kinds_at) give of the source with its faulty
/// statements before the offset blanked. A name that begins with `%` is compared without it too. There are none in a faulty
/// statement that has no end, and where the offset is past the text's end or within a character. The error is that memory
/// ran out.
pub fn completions_at(
    alloc: Global,
    source: &str,
    offset: usize,
) -> Result<Completions, AllocError> {
    match before(source, offset) {
        Some((text, word)) => completions_after(alloc, source, text, word),
        None => Ok(no_completions(alloc, offset)),
    }
}
