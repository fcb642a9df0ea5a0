//! The text before an offset.

use crate::word::word_start;
use std::alloc::{AllocError, Global};
use wac_ast_base::Error;
use wac_recovery::{Attempt, Fault, Round, first_round};

/// How many faulty statements are blanked at most.
const MOST: usize = 100;

/// What is put after the text while its faulty statements are searched for, so that it shows which of them has no end.
const MARK: &str = " a";

/// The text before an offset, without the word at its end, and that word. `None` where the offset isn't between two
/// characters.
pub(crate) fn before(source: &str, offset: usize) -> Option<(&str, &str)> {
    if !source.is_char_boundary(offset) {
        return None;
    }
    let (front, _) = source.split_at(offset);
    Some(front.split_at(word_start(front)))
}

/// A text without its faulty statements, which are blanked.
#[derive(Drop)]
pub(crate) struct Recovered {
    /// The text, with the mark after it.
    attempt: Attempt,
}

impl Recovered {
    /// The text: a directive, where its own was faulty, and what isn't blanked of it.
    pub(crate) fn text(&self) -> &str {
        let marked = self.attempt.text();
        marked.strip_suffix(MARK).unwrap_or("")
    }

    /// How many bytes at the beginning of it the source doesn't have.
    pub(crate) fn skip(&self) -> usize {
        self.attempt.skip()
    }
}

/// Whether a fault is that the text ends too early.
fn is_end(fault: &Fault) -> bool {
    match fault {
        Fault::Parse(
            Error::Expected { found, .. }
            | Error::ExpectedEither { found, .. }
            | Error::ExpectedMultiple { found, .. },
        ) => found.is_none(),
        _ => false,
    }
}

/// A text with its faulty statements blanked. `None` where one has no end, or there are too many.
pub(crate) fn recover(alloc: Global, text: &str) -> Result<Option<Recovered>, AllocError> {
    let mut marked = String::from_str(alloc, text)?;
    marked.push_str(MARK)?;
    let mut attempt = Attempt::new(alloc, marked.as_str())?;
    for _ in 0..MOST {
        let Some(round) = first_round(alloc, &attempt)? else {
            return Ok(Some(Recovered { attempt }));
        };
        let Round { fault, next } = round;
        if is_end(&fault) || fault.span().offset() > text.len() {
            return Ok(Some(Recovered { attempt }));
        }
        match next {
            Some(next) => attempt = next,
            None => return Ok(None),
        }
        if !attempt.text().ends_with(MARK) {
            return Ok(None);
        }
    }
    Ok(None)
}
