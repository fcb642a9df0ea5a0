// Finds the items of a source.
ghost use Rattle.std.specs.Prelude.{◌≡◌, ◌+◌, ◌<◌, length, drop, Some};
ghost use Rattle.std.specs.Str.{IsCharBoundary};
ghost use Rattle.wac_lexer.specs.Comments.{gap};
ghost use Rattle.wac_lexer.specs.Items.{first_char_len};
ghost use Rattle.wac_lexer.specs.Shapes.{shape_of};
ghost use Rattle.wac_lexer.specs.Tokens.{token_of};

use crate::automaton::longest_front;
use crate::comments::{gap, opens};
use crate::error::Error;
use crate::shape::Shape;
use crate::span::SourceSpan;
use crate::symbols::symbol;
use crate::token::Token;
use crate::words::keyword;

pub(super) type Item = (Result<Token, Error>, SourceSpan);

/// The token that a text of this shape is.
fn token_of(shape: Shape, text: &str) -> Token
    requires { shape_of text.now ≡ Some shape }
    ensures { token_of text.now ≡ Some result }
{
    match shape {
        Shape::Word => match keyword(text) {
            Some(token) => token,
            None => Token::Ident,
        },
        Shape::Name => Token::PackageName,
        Shape::Path => Token::PackagePath,
        Shape::Quoted => Token::String,
        Shape::Symbol => match symbol(text) {
            Some(token) => token,
            None => unreachable!(),
        },
    }
}

fn first_char_len(text: &str) -> usize
    requires { 0 < length text.now }
    ensures len { result ≡ first_char_len text.now }
    ensures within { IsCharBoundary text.now result }
    ensures some { 0 < result }
{
    match text.chars().next() {
        Some(first) => first.len_utf8(),
        None => 1,
    }
}

/// Where the first item after a place begins.
fn start_of(source: &str, place: usize) -> usize
    requires { IsCharBoundary source.now place }
    ensures start { result ≡ place + gap (drop place source.now) }
    ensures within { IsCharBoundary source.now result }
{
    let rest = &source[place..];
    place + gap(rest.as_bytes())
}

/// A source, and how many scans of it there were.
///
/// A scan is one search for the item at a place. Only [`first_item`](Scanner::first_item) finds one, and it counts
/// itself.
#[derive(Clone, Drop)]
pub(super) struct Scanner<'a> {
    pub(super) source: &'a str,
    scans: usize,
}

impl<'a> Scanner<'a> {
    ghost use Rattle.std.specs.Prelude.{◌≡◌, ◌+◌, ◌<◌, ◌^◌, IfSome, MatchOption};
    ghost use Rattle.std.specs.Str.{IsCharBoundary};
    ghost use Rattle.wac_lexer.specs.Items.{first_item, items_from};
    ghost use Rattle.wac_lexer.specs.Reading.{Slices, IsFound, IsAhead, items_after};
    ghost use Rattle.wac_lexer.specs.Span.{end_of};

    /// A source that was not scanned yet.
    pub(super) fn new(source: &'a str) -> Scanner<'a>
        ensures source { result.source ≡ source.entry }
        ensures scans { result.scans ≡ 0 }
    {
        Scanner { source, scans: 0 }
    }

    /// How many scans there were.
    pub(super) fn scans(&self) -> usize
        ensures { result ≡ self.now.scans }
    {
        self.scans
    }

    /// Finds what begins a text, and how many bytes it takes. This is a scan.
    fn first_item(&mut self, text: &str) -> Option<(Result<Token, Error>, usize)>
        requires { self.old.scans + 1 < 2 ^ 64 }
        ensures item { result ≡ first_item text.now }
        ensures within { IfSome result (λ found. IsCharBoundary text.now found.1) }
        ensures some { IfSome result (λ found. 0 < found.1) }
        ensures source { self.new.source ≡ self.old.source }
        ensures scans { self.new.scans ≡ self.old.scans + 1 }
    {
        self.scans += 1;
        if text.is_empty() {
            return None;
        }
        let bytes = text.as_bytes();
        if opens(bytes) {
            return Some((Err(Error::UnterminatedComment), bytes.len()));
        }
        match longest_front(bytes) {
            Some((len, shape)) => {
                let (front, _) = text.split_at(len);
                let token = token_of(shape, front);
                Some((Ok(token), len))
            }
            None => {
                if bytes[0] == b'"' {
                    Some((Err(Error::UnterminatedString), 1))
                } else {
                    Some((Err(Error::UnexpectedToken), first_char_len(text)))
                }
            }
        }
    }

    /// Finds the first item after a place, or that there is none. Either is one scan.
    fn scan(&mut self, place: usize) -> Option<Item>
        requires boundary { IsCharBoundary self.old.source.now place }
        requires counts { self.old.scans + 1 < 2 ^ 64 }
        ensures item { IsFound self.old.source.now (items_from self.old.source.now place) result }
        ensures source { self.new.source ≡ self.old.source }
        ensures scans { self.new.scans ≡ self.old.scans + 1 }
    {
        let source = self.source;
        let start = start_of(source, place);
        let (found, len) = self.first_item(&source[start..])?;
        Some((found, SourceSpan::new(start, len)))
    }

    /// Finds the item after another. Where there is no other the end was found before, and this is no scan.
    pub(super) fn scan_after(&mut self, item: Option<Item>) -> Option<Item>
        requires slices { IfSome item (λ x. Slices self.old.source.now x.1) }
        requires fits { IfSome item (λ x. end_of x.1 < 2 ^ 64) }
        requires counts { self.old.scans + 1 < 2 ^ 64 }
        ensures item { IsFound self.old.source.now (items_after self.old.source.now item) result }
        ensures source { self.new.source ≡ self.old.source }
        ensures scans { MatchOption item (self.new.scans ≡ self.old.scans) (λ _. self.new.scans ≡ self.old.scans + 1) }
    {
        let (_, span) = item?;
        self.scan(span.offset() + span.len())
    }

    /// Finds the first two items of a source that was not scanned yet.
    pub(super) fn scan_two(&mut self) -> (Option<Item>, Option<Item>)
        requires boundary { IsCharBoundary self.old.source.now 0 }
        requires unused { self.old.scans ≡ 0 }
        ensures ahead { IsAhead self.old.source.now 0 result.0 result.1 self.new.scans }
        ensures source { self.new.source ≡ self.old.source }
    {
        match self.scan(0) {
            Some((found, span)) => {
                let second = self.scan_after(Some((found, span)));
                (Some((found, span)), second)
            }
            None => (None, None),
        }
    }
}
