//! The texts that are tried, one after another.
use crate::blanked::blanked;
use crate::statements::{Part, part_at};
use std::alloc::{AllocError, Global};

/// The directive that stands in for one that is missing or faulty.
pub(crate) const STAND_IN: &str = "package a:b;";

/// A source of which faulty statements are blanked.
#[derive(Drop)]
pub struct Attempt {
    /// The text, which begins with a directive where the source's own was blanked.
    pub(crate) text: String,
    /// How many bytes of it the source doesn't have: the length of that directive, or 0.
    pub(crate) skip: usize,
}

impl Attempt {
    ghost use Rattle.std.specs.Prelude.{◌≡◌, IfOk, option_map};
    ghost use Rattle.wac_lexer.specs.Reading.{Slices};
    ghost use Rattle.wac_recovery.specs.Attempts.{IsSourceOf, attempt_of, front, next, whole, without};
    ghost use Rattle.wac_recovery.specs.Statements.{leads};

    /// A source as it is.
    pub fn new(alloc: Global, source: &str) -> Result<Attempt, AllocError>
        ensures { IfOk result (λ attempt. attempt_of attempt ≡ whole source.now) }
    {
        let text = String::from_str(alloc, source)?;
        Ok(Attempt { text, skip: 0 })
    }

    /// The text that is tried: a directive, where the source's own was blanked, and the source with these statements
    /// blanked.
    pub fn text(&self) -> &str
        ensures { result.now ≡ (attempt_of self.now).text }
    {
        self.text.as_str()
    }

    /// How many bytes at the beginning of `text` the source doesn't have.
    pub fn skip(&self) -> usize
        ensures { result ≡ (attempt_of self.now).skip }
    {
        self.skip
    }

    /// The source with these statements blanked: it is as long as the source.
    pub fn source(&self) -> &str
        ensures { IsSourceOf (attempt_of self.now) result.now }
    {
        let text = self.text.as_str();
        if !text.is_char_boundary(self.skip) {
            return "";
        }
        let (_, own) = text.split_at(self.skip);
        own
    }

    /// What comes before the text without a part.
    fn front(&self, part: &Part) -> &'static str
        requires { part.now.leads ≡ leads (attempt_of self.now).text part.now.span }
        ensures { result.now ≡ front (attempt_of self.now) part.now.span }
    {
        if self.skip == 0 && part.leads {
            STAND_IN
        } else {
            ""
        }
    }

    /// The attempt without a part.
    fn without(&self, alloc: Global, part: &Part) -> Result<Attempt, AllocError>
        requires leads { part.now.leads ≡ leads (attempt_of self.now).text part.now.span }
        requires slices { Slices (attempt_of self.now).text part.now.span }
        ensures { IfOk result (λ attempt. attempt_of attempt ≡ without (attempt_of self.now) part.now.span) }
    {
        let front = self.front(part);
        let skip = self.skip.max(front.len());
        let text = blanked(alloc, front, self.text.as_str(), part.span)?;
        Ok(Attempt { text, skip })
    }

    /// What is tried after a fault at a place of its text: the text with the statement there blanked, or nothing where
    /// there is nothing to blank. The error is that memory ran out.
    pub fn next(&self, alloc: Global, place: usize) -> Result<Option<Attempt>, AllocError>
        ensures { IfOk result (λ found. option_map attempt_of found ≡ next (attempt_of self.now) place) }
    {
        match part_at(self.text.as_str(), place) {
            Some(part) => match self.without(alloc, &part) {
                Ok(attempt) => Ok(Some(attempt)),
                Err(_) => Err(AllocError),
            },
            None => Ok(None),
        }
    }
}
