//! A document as it is read: its text without faulty statements, its tokens and its names.
ghost use Rattle.std.specs.Prelude.{◌≡◌, ◌≤◌, IfOk, option_map};
ghost use Rattle.wac_lsp_names.specs.Read.{AreNamesOf, IsLeft, IsRead, attempt_of, read_of};

use crate::lexed::{Lexed, number_at, tokens_of};
use std::alloc::{AllocError, Global};
use wac_lexer::SourceSpan;
use wac_names::{Kind, Name, Names, without_percent};
use wac_recovery::{Recovery, recover};

/// How many faulty statements are blanked at most.
const MOST: usize = 100;

/// How many are blanked of a long text.
const LEAST: usize = 16;

/// How many bytes are read again for them, about.
const MOST_BYTES: usize = 1048576;

/// A document as it is read.
#[derive(Drop)]
pub(crate) struct Reading {
    /// The text, of which faulty statements are blanked.
    pub(crate) text: String,
    /// How many bytes at the beginning of it the document doesn't have.
    pub(crate) skip: usize,
    pub(crate) names: Names,
    pub(crate) tokens: Vec<Lexed>,
}

/// How many faulty statements of a text are blanked: fewer of a long one, since each costs a parse.
fn most_faults(text: &str) -> usize
    ensures { 16 ≤ result }
{
    match MOST_BYTES.checked_div(text.len()) {
        Some(count) => count.min(MOST).max(LEAST),
        None => MOST,
    }
}

/// What is left of a text without its faulty statements, which are blanked.
#[derive(Drop)]
struct Left {
    text: String,
    skip: usize,
}

/// Blanks the faulty statements of a text.
fn blanked(alloc: Global, source: &str) -> Result<Left, AllocError>
    ensures { IfOk result (λ left. IsLeft source.now (attempt_of left)) }
{
    let recovery = recover(alloc, source, most_faults(source))?;
    let Recovery {
        faults: _,
        text,
        skip,
    } = recovery;
    Ok(Left { text, skip })
}

/// What is left of a text, with its names and its tokens.
fn reading_of(alloc: Global, left: Left, names: Names) -> Result<Reading, AllocError>
    ensures names { IfOk result (λ reading. (read_of reading).names ≡ names) }
    ensures skip { IfOk result (λ reading. (read_of reading).skip ≡ (attempt_of left).skip) }
{
    let Left { text, skip } = left;
    let tokens = tokens_of(alloc, text.as_str())?;
    Ok(Reading {
        text,
        skip,
        names,
        tokens,
    })
}

/// Reads what is left of a text, if it is a document.
fn read_left(alloc: Global, left: Left) -> Result<Option<Reading>, AllocError>
    ensures { IfOk result (λ found. AreNamesOf (attempt_of left) (option_map read_of found)) }
{
    match Names::of_text(alloc, left.text.as_str())? {
        Some(names) => Ok(Some(reading_of(alloc, left, names)?)),
        None => Ok(None),
    }
}

/// Reads a text. There is nothing to read where too many statements are faulty.
pub(crate) fn read(alloc: Global, source: &str) -> Result<Option<Reading>, AllocError>
    ensures { IfOk result (λ found. IsRead source.now (option_map read_of found)) }
{
    read_left(alloc, blanked(alloc, source)?)
}

impl Reading {
    /// What the text has in a span.
    pub(crate) fn slice(&self, span: SourceSpan) -> &str {
        let end = span.offset().saturating_add(span.len());
        self.text.as_str().get(span.offset()..end).unwrap_or("")
    }

    /// The name that the text has in a span.
    pub(crate) fn word(&self, span: SourceSpan) -> &str {
        without_percent(self.slice(span))
    }

    /// The name of a number, where it is bound.
    pub(crate) fn name(&self, number: usize) -> Option<&Name> {
        self.names.bindings.get(number)
    }

    /// What binds the name of a number.
    pub(crate) fn kind(&self, number: usize) -> Option<Kind> {
        Some(self.name(number)?.kind)
    }

    /// The number of the token with which a name is bound.
    pub(crate) fn token_of(&self, number: usize) -> Option<usize> {
        number_at(self.tokens.as_slice(), self.name(number)?.span.offset())
    }

    /// The text of a token, empty where there is none.
    pub(crate) fn token_text(&self, number: usize) -> &str {
        match self.tokens.get(number) {
            Some(lexed) => self.slice(lexed.span),
            None => "",
        }
    }

    /// The name that a token is, or that stands between its quotes.
    pub(crate) fn token_word(&self, number: usize) -> &str {
        without_percent(self.token_text(number).trim_matches('"'))
    }

    /// The number of the name that the token of a number stands for, where it is used.
    pub(crate) fn mentioned_by(&self, number: usize) -> Option<usize> {
        let lexed = self.tokens.get(number)?;
        let start = lexed.span.offset();
        let end = start.saturating_add(lexed.span.len());
        let last = self
            .names
            .mentions
            .iter()
            .filter(|mention| start <= mention.span.offset() && mention.span.offset() < end)
            .last()?;
        Some(last.binding)
    }
}
