//! What writes pieces: how it is made, and what it writes with.
ghost use Rattle.std.specs.Prelude.{◌≡◌, ◌≤◌, ◌+◌, ℕ, List, [], ◌∷◌, ◌++◌, Option, Some, None, IfSome, unwrap_or, codes, length, take, drop};
ghost use Rattle.std.specs.List.{list_all};
ghost use Rattle.wac_lexer.specs.Reading.{slice, Slices};
ghost use Rattle.wac_printer_layout.specs.Printed.{Piece, token, blank, line, fresh_after, times, deeper};
ghost use Rattle.wac_printer_pieces.specs.Printed.{IsSinkOf, Printer, Prints, is_space, new_printer, printer, spaces, space_of};

use crate::error::{PrintError, PrintResult};
use std::marker::Model;
use wac_lexer::{Sink, SourceSpan, put_all};

/// Writes the pieces of a layout into a sink, and knows the source that tokens are spelled in, how deep it is, and whether it has failed.
///
/// A contract sees it as a `Printer`.
#[derive(Drop)]
pub struct Pieces<'a, S: Sink> {
    sink: S,
    source: &'a str,
    space: &'a str,
    depth: usize,
    fresh: bool,
    failed: bool,
}

impl<'a, S: Sink> Model for Pieces<'a, S> {
    ghost Value = { Printer };

    ghost view = { λ p. printer S.bytes S.failures S.borrow p.sink p.source.now p.space.now p.depth p.fresh p.failed };

    ghost invariant = { λ p. Unit {0} };
}

fn is_fresh_after(text: &str, fresh: bool) -> bool
    ensures { result ≡ fresh_after fresh text.now }
{
    match text.as_bytes().last() {
        None => fresh,
        Some(byte) => *byte == b'\n',
    }
}

fn one_deeper(depth: usize) -> usize
    ensures { result ≡ deeper depth }
{
    if depth == usize::MAX {
        depth
    } else {
        depth + 1
    }
}

/// Blanks, of which most indentations are a prefix.
const BLANKS: &str = "                                                                ";

/// Whether a text is blanks alone.
fn are_blanks(text: &str) -> bool
    ensures { result ≡ list_all is_space text.now }
{
    text.as_bytes().iter().all(|byte| *byte == b' ')
}

/// A text so many times, where that is at most sixty-four blanks.
fn blanks(text: &str, count: usize) -> Option<&'static str>
    ensures { IfSome result (λ whole. whole.now ≡ times count text.now) }
{
    if !are_blanks(text) {
        return None;
    }
    let len = text.len().checked_mul(count)?;
    if len > BLANKS.len() {
        return None;
    }
    let (whole, _) = BLANKS.split_at(len);
    Some(whole)
}

impl<'a, S: Sink> Pieces<'a, S> {
    /// Pieces that are put into `writer`, tokens as the text `source` spells them, at depth 0 and at the beginning of a line.
    ///
    /// `space` is written once for each depth where a line begins: four spaces where it is `None`.
    pub fn new(writer: S, source: &'a str, space: Option<&'a str>) -> Self
        ensures { result ≡ new_printer S.bytes S.failures S.borrow writer source.entry.now (space_of space.entry) }
    {
        let space = match space {
            Some(space) => space,
            None => "    ",
        };
        Pieces {
            sink: writer,
            source,
            space,
            depth: 0,
            fresh: true,
            failed: false,
        }
    }

    /// What was written into.
    pub fn into_writer(self) -> S
        ensures { IsSinkOf S.bytes S.failures S.borrow result self.entry }
    {
        self.sink
    }

    /// Writes a text.
    ///
    /// [`PrintError::Writer`] where the sink fails, and [`PrintError::Failed`], with nothing written, where it has failed before.
    pub fn blank(&mut self, text: &str) -> PrintResult
        ensures { Prints self.old result self.new (blank text.now ∷ []) }
    {
        if self.failed {
            return Err(PrintError::Failed);
        }
        if !put_all(&mut self.sink, text.as_bytes()) {
            self.failed = true;
            return Err(PrintError::Writer);
        }
        self.fresh = is_fresh_after(text, self.fresh);
        Ok(())
    }

    /// Writes a token.
    #[tactic(auto, using(crate::proofs::Printing::as_token))]
    pub fn token(&mut self, text: &str) -> PrintResult
        ensures { Prints self.old result self.new (token text.now ∷ []) }
    {
        self.blank(text)
    }
}

#[tactic(auto, using(crate::proofs::Printing::seq))]
impl<'a, S: Sink> Pieces<'a, S> {
    /// Writes the space so many times.
    #[tactic(auto, using(crate::proofs::Indentation::seq_many))]
    fn many(&mut self, count: usize) -> PrintResult
        ensures { Prints self.old result self.new (spaces count self.old.space) }
    {
        self.ready()?;
        'space: for i in 0..count {
            self.blank(self.space)?;
        }
        Ok(())
    }

    /// Writes the space once for each depth; by one call of the sink, where these are a few blanks.
    #[tactic(auto, using(crate::proofs::Indentation::seq_many))]
    fn indentation(&mut self) -> PrintResult
        ensures { Prints self.old result self.new (spaces self.old.depth self.old.space) }
    {
        match blanks(self.space, self.depth) {
            Some(whole) => self.blank(whole),
            None => self.many(self.depth),
        }
    }

    /// Whether it can continue: [`PrintError::Failed`] where the sink has failed.
    pub fn ready(&self) -> PrintResult
        ensures { Prints self.now result self.now [] }
    {
        if self.failed {
            Err(PrintError::Failed)
        } else {
            Ok(())
        }
    }

    /// Writes the indentation, where nothing is on the line yet.
    #[tactic(auto, using(crate::proofs::Indentation::indents))]
    pub fn line(&mut self) -> PrintResult
        ensures { Prints self.old result self.new (line self.old.depth ∷ []) }
    {
        if self.fresh {
            self.indentation()
        } else {
            self.ready()
        }
    }

    /// The source at a span, which is in bytes.
    pub fn source(&self, span: SourceSpan) -> &'a str
        requires { Slices self.now.source span }
        ensures { result.now ≡ slice self.now.source span }
    {
        let start = span.offset();
        &self.source[start..start + span.len()]
    }

    /// Writes the source at a span.
    pub fn spelled(&mut self, span: SourceSpan) -> PrintResult
        requires { Slices self.old.source span }
        ensures { Prints self.old result self.new (token (slice self.old.source span) ∷ []) }
    {
        let text = self.source(span);
        self.token(text)
    }

    /// Goes one deeper, and returns the depth before.
    pub fn indent(&mut self) -> usize
        ensures { (result ≡ self.old.depth) × (self.new ≡ record self.old { depth = deeper self.old.depth }) }
    {
        let depth = self.depth;
        self.depth = one_deeper(depth);
        depth
    }

    /// Goes back to a depth.
    pub fn dedent(&mut self, depth: usize)
        ensures { self.new ≡ record self.old { depth = depth } }
    {
        self.depth = depth;
    }
}
