// Reads a source item by item. Its `comments` is in docs.rt, where no item can be searched for in its scanner.
mod items;

use self::items::{Item, Scanner};
use crate::characters::refused;
use crate::error::Error;
use crate::span::SourceSpan;
use crate::token::Token;
use std::marker::Model;

/// What an item is: a token, or the fault in a token's place.
pub type LexerResult<T> = Result<T, Error>;

/// Reads a source item by item, from its start on.
///
/// An item is a token or a fault, with its span in bytes. Blanks and comments lie between items. A token is the
/// longest text there that has a token's shape. After a fault the lexer continues. The next two items are kept, so each
/// is searched for once, however often it is peeked at. No call but `comments` takes memory.
///
/// ```
/// // Writes the documentation comments and the items of a source, each with its place.
/// let Ok(mut lexer) = Lexer::new("/// The name.\npackage a:b;") else { return Ok(()) };
/// for (text, span) in &lexer.comments(rt.alloc())? {
///     println!(rt; "{}+{} {text}", span.offset(), span.len())?; // 0+13 The name.
/// }
/// while let Some((item, span)) = lexer.next() {
///     match item {
///         Ok(token) => println!(rt; "{}+{} {token}", span.offset(), span.len())?, // 14+7 `package` keyword
///         Err(fault) => println!(rt; "{}+{} {fault}", span.offset(), span.len())?,
///     }
/// }
/// ```
#[derive(Clone, Drop)]
pub struct Lexer<'a> {
    scanner: Scanner<'a>,
    place: usize,
    last: SourceSpan,
    // The next two items. Where there is none the end was found, and it is not looked for again.
    first: Option<Item>,
    second: Option<Item>,
}

impl<'a> Model for Lexer<'a> {
    ghost use Rattle.wac_lexer.specs.Reading.{Reading, reading, Keeps};

    ghost Value = { Reading };

    ghost view = { λ l. reading l.scanner.source.now l.place l.last l.scanner.scans };

    ghost invariant = { λ l. Keeps (reading l.scanner.source.now l.place l.last l.scanner.scans) l.first l.second };
}

impl<'a> Lexer<'a> {
    ghost use Rattle.std.specs.Prelude.{◌≡◌, ◌<◌, ◌≤◌, ◌+◌, ◌^◌, ◌↔◌, ◌++◌, length, List, None, IsTrue, MatchResult, IfOk, IfSome, Some};
    ghost use Rattle.std.specs.Str.{IsCharBoundary};
    ghost use Rattle.wac_lexer.specs.Characters.{refused};
    ghost use Rattle.wac_lexer.specs.Item.{Item, next_token, after_first_item};
    ghost use Rattle.wac_lexer.specs.Items.{items};
    ghost use Rattle.wac_lexer.specs.Reading.{Slices, shown, slice, left, answered};
    ghost use Rattle.wac_lexer.specs.Span.{span, end_of};

    /// A lexer at the start of a source.
    ///
    /// A source with a rejected character, in a comment or a string too, is rejected as a whole: the error is
    /// that of the first one, with its offset and its length in UTF-8.
    #[tactic(auto, unfolding(crate::specs::Reading::left))]
    pub fn new(source: &'a str) -> Result<Lexer<'a>, (Error, SourceSpan)>
        ensures refused { MatchResult result (λ l. refused source.now ≡ None) (λ e. refused source.now ≡ Some e) }
        ensures source { IfOk result (λ l. l.source ≡ source.now) }
        ensures left { IfOk result (λ l. left l ≡ items source.now) }
        ensures place { IfOk result (λ l. l.place ≡ 0) }
        ensures last { IfOk result (λ l. l.last ≡ span 0 0) }
        ensures scans { IfOk result (λ l. l.scans ≤ answered l + 2) }
    {
        match refused(source) {
            Some(fault) => Err(fault),
            None => {
                let mut scanner = Scanner::new(source);
                let (first, second) = scanner.scan_two();
                Ok(Lexer {
                    scanner,
                    place: 0,
                    last: SourceSpan::new(0, 0),
                    first,
                    second,
                })
            }
        }
    }

    /// The item that `next` will give, which stays.
    #[tactic(auto, unfolding(crate::specs::Reading::left))]
    pub fn peek(&self) -> Option<(LexerResult<Token>, SourceSpan)>
        ensures gives { result ≡ next_token (left self.now) }
        ensures slices { IfSome result (λ item. Slices self.now.source item.1) }
        ensures fits { IfSome result (λ item. end_of item.1 < 2 ^ 64) }
        ensures scans { self.now.scans ≤ answered self.now + 2 }
    {
        self.first
    }

    /// The item after the next one. Both stay.
    #[tactic(auto, unfolding(crate::specs::Reading::left))]
    pub fn peek2(&self) -> Option<(LexerResult<Token>, SourceSpan)>
        ensures gives { result ≡ next_token (after_first_item (left self.now)) }
        ensures slices { IfSome result (λ item. Slices self.now.source item.1) }
        ensures fits { IfSome result (λ item. end_of item.1 < 2 ^ 64) }
        ensures scans { self.now.scans ≤ answered self.now + 2 }
    {
        self.second
    }

    /// How many scans there were: at most two more than `next` has given items.
    ///
    /// A scan is one search for the item at a place, also the one that finds the end. After the end there is none, and
    /// to read docs is none.
    pub fn scans(&self) -> usize
        ensures count { result ≡ self.now.scans }
        ensures scans { self.now.scans ≤ answered self.now + 2 }
        ensures within { result ≤ length self.now.source + 2 }
    {
        self.scanner.scans()
    }

    /// The whole source.
    pub(crate) fn text(&self) -> &'a str
        ensures { result.now ≡ self.now.source }
    {
        self.scanner.source
    }

    /// Where the last item ends.
    pub(crate) fn place(&self) -> usize
        ensures place { result ≡ self.now.place }
        ensures within { IsCharBoundary self.now.source result }
    {
        self.place
    }

    /// A lexer is always between two items of its source. This does nothing: its contract is the law.
    #[tactic(auto, unfolding(crate::specs::Reading::left))]
    pub fn stands_between_items(&self)
        ensures { (before : List Item) × (items self.now.source ≡ before ++ left self.now) }
    {
        let _ = &self.scanner;
    }

    /// The span of the item that `next` gave last, for messages.
    ///
    /// It is 0..0 before the first, and the empty one at the end once `next` has given None. A span that ends where
    /// the source ends becomes one byte, the byte before its start.
    pub fn span(&self) -> SourceSpan
        ensures { result ≡ shown self.now.source self.now.last }
    {
        let offset = self.last.offset();
        let len = self.last.len();
        if offset + len == self.scanner.source.len() {
            SourceSpan::new(offset.saturating_sub(1), 1)
        } else {
            self.last
        }
    }

    /// Whether the span is in range and cuts no character, as `source` requires.
    pub fn holds(&self, span: SourceSpan) -> bool
        ensures { IsTrue result ↔ Slices self.now.source span }
    {
        match span.offset().checked_add(span.len()) {
            Some(end) => {
                self.scanner.source.is_char_boundary(span.offset())
                    && self.scanner.source.is_char_boundary(end)
            }
            None => false,
        }
    }

    /// The text of the span. Each item's span can be given, and each one that `holds`.
    pub fn source(&self, span: SourceSpan) -> &'a str
        requires { Slices self.now.source span }
        ensures { result.now ≡ slice self.now.source span }
    {
        let (_, rest) = self.scanner.source.split_at(span.offset());
        let (text, _) = rest.split_at(span.len());
        text
    }
}

impl Iterator for Lexer<'_> {
    ghost use Rattle.std.specs.Prelude.{◌-◌, length};
    ghost use Rattle.std.specs.Iterator.{at_most};
    ghost use Rattle.wac_lexer.specs.Reading.{Nexts};

    type Item = (LexerResult<Token>, SourceSpan);

    ghost next_gives = { Nexts };

    ghost remaining = { λ l. at_most (length l.source - l.place) };

    #[tactic(auto, unfolding(crate::specs::Reading::left))]
    fn next(&mut self) -> Option<(LexerResult<Token>, SourceSpan)> {
        match self.first {
            Some((found, span)) => {
                self.place = span.offset() + span.len();
                self.last = span;
                self.first = self.second;
                self.second = self.scanner.scan_after(self.first);
                Some((found, span))
            }
            None => {
                self.place = self.scanner.source.len();
                self.last = SourceSpan::new(self.place, 0);
                None
            }
        }
    }
}
