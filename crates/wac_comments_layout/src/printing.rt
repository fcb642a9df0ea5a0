// What printing changes about the tokens of a text.
ghost use Rattle.std.specs.Prelude.{◌≡◌, ◌+◌, ◌<◌, ◌^◌, ◌≤◌, ◌++◌, IfOk, MatchOption, Some, None, false, [], ◌∷◌, length, map};
ghost use Rattle.wac_comments_layout.specs.Kept.{is_comment};
ghost use Rattle.wac_comments_layout.specs.Printing.{now_of, token_at, token_before, stand_at, is_among, is_last_comma, is_near_nothing, goes, goes_far_from_nothing, ends_resource, needs_none, needs_comma, added, innermost, may_go, may_be_of_with, empty_with, tokens_of, printed, spelled, with_comment, with_added, with_token, with_piece, with_printed, with_waiting, passed, progress};
ghost use Rattle.wac_comments_layout.specs.Texts.{texts_of};

use crate::brackets::{Brackets, closes, is_mark, opened_by, opens};
use crate::pieces::Piece;
use std::alloc::{AllocError, Global};
use std::marker::Model;

/// The token at an index, and an empty text where there is none.
fn token_at<'a>(tokens: &[&'a str], at: usize) -> &'a str
    ensures { result.now ≡ token_at (now_of tokens.now) at }
{
    match tokens.get(at) {
        Some(token) => *token,
        None => "",
    }
}

/// The token so many tokens before an index.
fn token_before<'a>(tokens: &[&'a str], at: usize, back: usize) -> &'a str
    ensures { result.now ≡ token_before (now_of tokens.now) at back }
{
    if back <= at {
        token_at(tokens, at - back)
    } else {
        ""
    }
}

/// Whether the token at an index is as long as the first of these. Most are not, and to compare all costs more.
fn may_stand_at(tokens: &[&str], at: usize, these: &[&str]) -> bool
    ensures { result ≡ false → stand_at (now_of tokens.now) at (now_of these.now) ≡ false }
{
    these.is_empty() || token_at(tokens, at).len() == token_at(these, 0).len()
}

/// Whether the tokens that begin at an index are these.
fn stand_at(tokens: &[&str], at: usize, these: &[&str]) -> bool
    ensures { result ≡ stand_at (now_of tokens.now) at (now_of these.now) }
{
    if !may_stand_at(tokens, at, these) {
        return false;
    }
    let (_, rest) = tokens.split_at(at.min(tokens.len()));
    rest.starts_with(these)
}

/// Whether the token at an index is one of the first `count` of a place where these are.
fn is_among(tokens: &[&str], at: usize, these: &[&str], count: usize) -> bool
    ensures { result ≡ is_among (now_of tokens.now) at (now_of these.now) count }
{
    for back in 0..count {
        if back <= at && stand_at(tokens, at - back, these) {
            return true;
        }
    }
    false
}

/// Whether a text that printing drops in some place begins as this token does.
fn may_go(token: &str) -> bool
    ensures { result ≡ may_go token.now }
{
    match token.as_bytes().first() {
        Some(byte) => { matches!(*byte, b'w' | b'{' | b'}' | b'<' | b'_' | b'>' | b',' | b'-') }
        None => false,
    }
}

/// Whether a token of an empty `with` begins as this one does.
fn may_be_of_with(token: &str) -> bool
    ensures { result ≡ may_be_of_with token.now }
{
    match token.as_bytes().first() {
        Some(byte) => matches!(*byte, b'w' | b'{' | b'}'),
        None => false,
    }
}

/// Whether the token at an index is one of an empty `with`.
fn is_of_with(tokens: &[&str], at: usize) -> bool
    ensures { result ≡ is_among (now_of tokens.now) at empty_with 3 }
{
    if !may_be_of_with(token_at(tokens, at)) {
        return false;
    }
    is_among(tokens, at, &["with", "{", "}"], 3)
}

/// Whether the token at an index, or one beside it, is `_`.
fn is_near_nothing(tokens: &[&str], at: usize) -> bool
    requires { at < length tokens.now }
    ensures { result ≡ is_near_nothing (now_of tokens.now) at }
{
    is_mark(token_before(tokens, at, 1), b'_')
        || is_mark(token_at(tokens, at), b'_')
        || is_mark(token_at(tokens, at + 1), b'_')
}

/// Whether printing drops the token at an index, with no `_` near.
fn goes_far_from_nothing(tokens: &[&str], at: usize, around: Brackets) -> bool
    requires { at < length tokens.now }
    ensures { result ≡ goes_far_from_nothing (now_of tokens.now) at around }
{
    is_of_with(tokens, at)
        || is_among(tokens, at, &["->", ";"], 1)
        || is_last_comma(tokens, at, around)
}

/// Whether printing drops the token at an index: an empty `with`, results that are nothing, and a comma after the last
/// of a list.
fn goes(tokens: &[&str], at: usize, around: Brackets) -> bool
    requires { at < length tokens.now }
    ensures { result ≡ goes (now_of tokens.now) at around }
{
    if !may_go(token_at(tokens, at)) {
        return false;
    }
    if !is_near_nothing(tokens, at) {
        return goes_far_from_nothing(tokens, at, around);
    }
    is_of_with(tokens, at)
        || is_among(tokens, at, &["<", "_", ">"], 3)
        || is_among(tokens, at, &["<", "_", ",", "_", ">"], 5)
        || is_among(tokens, at, &[",", "_", ">"], 2)
        || is_among(tokens, at, &["->", ";"], 1)
        || is_last_comma(tokens, at, around)
}

/// Whether the token is a comma before the end of a list on one line, or after a fill that ends the arguments.
fn is_last_comma(tokens: &[&str], at: usize, around: Brackets) -> bool
    requires { at < length tokens.now }
    ensures { result ≡ is_last_comma (now_of tokens.now) at around }
{
    is_mark(token_at(tokens, at), b',')
        && closes(token_at(tokens, at + 1))
        && (around.is_flat() || token_before(tokens, at, 1) == "...")
}

/// Whether the token is the semicolon of a resource without a body, in whose place `{` and `}` are printed.
fn ends_resource(tokens: &[&str], at: usize) -> bool
    ensures { result ≡ ends_resource (now_of tokens.now) at }
{
    is_mark(token_at(tokens, at), b';') && token_before(tokens, at, 2) == "resource"
}

/// Whether no comma is printed after a token, before the end of rows or arguments.
fn needs_none(before: &str) -> bool
    ensures { result ≡ needs_none before.now }
{
    is_mark(before, b'{') || is_mark(before, b',') || before == "..."
}

/// Whether printing adds a comma before the token, which then ends rows or arguments.
fn needs_comma(tokens: &[&str], at: usize, around: Brackets) -> bool
    ensures { result ≡ needs_comma (now_of tokens.now) at around }
{
    is_mark(token_at(tokens, at), b'}')
        && around.has_commas()
        && !needs_none(token_before(tokens, at, 1))
}

/// The token that printing adds before the one at an index.
fn added(tokens: &[&str], at: usize, around: Brackets) -> Option<&'static str>
    ensures { let all = added (now_of tokens.now) at around in MatchOption result (all ≡ []) (λ t. all ≡ t.now ∷ []) }
{
    if ends_resource(tokens, at) {
        Some("{")
    } else if needs_comma(tokens, at, around) {
        Some(",")
    } else {
        None
    }
}

/// How the token at an index is printed, which has this text.
fn spelled<'a>(tokens: &[&str], at: usize, text: &'a str) -> &'a str
    ensures { result.now ≡ spelled (now_of tokens.now) at text.now }
{
    if ends_resource(tokens, at) { "}" } else { text }
}

/// Adds a piece with a text, after so many line ends, which lies where another one does.
fn push<'a>(
    pieces: &mut Vec<Piece<'a>>,
    text: &'a str,
    place: &Piece<'_>,
    breaks: usize,
) -> Result<(), AllocError>
    ensures { IfOk result (λ _. texts_of pieces.new.items ≡ texts_of pieces.old.items ++ text.now ∷ []) }
{
    let piece = Piece {
        text,
        span: place.span,
        breaks,
        column: place.column,
    };
    if pieces.push(piece).is_err() {
        return Err(AllocError);
    }
    Ok(())
}

/// Collects the pieces of a text as they are printed.
#[derive(Drop)]
struct Printing<'a> {
    // Up to the last token that was printed.
    pieces: Vec<Piece<'a>>,
    // The comments since then.
    waiting: Vec<Piece<'a>>,
    // The line ends before tokens that were dropped since the last piece.
    breaks: usize,
    // The index of the next token.
    at: usize,
    // What is in the brackets around the next token, the innermost last.
    opened: Vec<Brackets>,
}

impl<'a> Model for Printing<'a> {
    ghost use Rattle.wac_comments_layout.specs.Printing.{Progress, progress};
    ghost use Rattle.wac_comments_layout.specs.Texts.{texts_of};

    ghost Value = { Progress };

    ghost view = { λ p. progress (texts_of p.pieces.items) (texts_of p.waiting.items) p.at p.opened.items };
}

impl<'a> Printing<'a> {
    /// With room for so many pieces.
    fn new(alloc: Global, room: usize) -> Result<Self, AllocError>
        ensures { IfOk result (λ printing. printing ≡ progress [] [] 0 []) }
    {
        let pieces = Vec::with_capacity(alloc, room)?;
        Ok(Printing {
            pieces,
            waiting: Vec::new(alloc),
            breaks: 0,
            at: 0,
            opened: Vec::new(alloc),
        })
    }

    /// The pieces that were printed, and the comments after them.
    fn into_pieces(self) -> Result<Vec<Piece<'a>>, AllocError>
        ensures { IfOk result (λ pieces. texts_of pieces.items ≡ self.entry.done ++ self.entry.waiting) }
    {
        let Printing {
            mut pieces,
            waiting,
            ..
        } = self;
        pieces.extend_from_slice(waiting.as_slice())?;
        Ok(pieces)
    }

    /// A comment, or the next of the tokens.
    fn add(&mut self, tokens: &[&str], piece: &Piece<'a>) -> Result<(), AllocError>
        requires { is_comment piece.now.text.now ≡ false → self.old.at < length tokens.now }
        ensures { IfOk result (λ _. self.new ≡ with_piece (now_of tokens.now) piece.now.text.now self.old) }
    {
        if piece.is_comment() {
            self.add_comment(piece)
        } else {
            self.add_token(tokens, piece)
        }
    }

    /// A comment, which waits for the next token that is printed.
    fn add_comment(&mut self, comment: &Piece<'a>) -> Result<(), AllocError>
        ensures { IfOk result (λ _. self.new ≡ with_comment comment.now.text.now self.old) }
    {
        let breaks = comment.breaks.saturating_add(self.breaks);
        self.breaks = 0;
        push(&mut self.waiting, comment.text, comment, breaks)
    }

    /// The next of the tokens.
    fn add_token(&mut self, tokens: &[&str], piece: &Piece<'a>) -> Result<(), AllocError>
        requires { self.old.at < length tokens.now }
        ensures { IfOk result (λ _. self.new ≡ with_token (now_of tokens.now) piece.now.text.now self.old) }
    {
        let around = self.around();
        self.add_before(tokens, piece, around)?;
        if goes(tokens, self.at, around) {
            self.breaks = self.breaks.saturating_add(piece.breaks);
        } else {
            self.print(spelled(tokens, self.at, piece.text), piece)?;
        }
        self.pass(tokens)
    }

    /// The token that printing adds before the next one, whose piece and brackets these are.
    fn add_before(
        &mut self,
        tokens: &[&str],
        piece: &Piece<'a>,
        around: Brackets,
    ) -> Result<(), AllocError>
        requires { around ≡ innermost self.old.opened }
        ensures { IfOk result (λ _. self.new ≡ with_added (now_of tokens.now) self.old) }
    {
        if let Some(text) = added(tokens, self.at, around) {
            push(&mut self.pieces, text, piece, 0)?;
        }
        Ok(())
    }

    /// Prints the token of a piece, after the comments that wait for it.
    fn print(&mut self, text: &'a str, piece: &Piece<'_>) -> Result<(), AllocError>
        ensures { IfOk result (λ _. self.new ≡ with_printed text.now self.old) }
    {
        self.print_waiting()?;
        let breaks = piece.breaks.saturating_add(self.breaks);
        self.breaks = 0;
        push(&mut self.pieces, text, piece, breaks)
    }

    /// Prints the comments that wait.
    fn print_waiting(&mut self) -> Result<(), AllocError>
        ensures { IfOk result (λ _. self.new ≡ with_waiting self.old) }
    {
        if self.waiting.is_empty() {
            return Ok(());
        }
        self.pieces.extend_from_slice(self.waiting.as_slice())?;
        self.waiting.clear();
        Ok(())
    }

    /// What is in the innermost brackets. A text is a body.
    fn around(&self) -> Brackets
        ensures { result ≡ innermost self.now.opened }
    {
        match self.opened.last() {
            Some(brackets) => *brackets,
            None => Brackets::Body,
        }
    }

    /// Continues after the next token.
    fn pass(&mut self, tokens: &[&str]) -> Result<(), AllocError>
        requires { self.old.at < length tokens.now }
        ensures { IfOk result (λ _. self.new ≡ passed (now_of tokens.now) self.old) }
    {
        let token = token_at(tokens, self.at);
        if opens(token) {
            let before = token_before(tokens, self.at, 1);
            let brackets = opened_by(token, before, token_before(tokens, self.at, 2));
            if self.opened.push(brackets).is_err() {
                return Err(AllocError);
            }
        } else if closes(token) {
            let _ = self.opened.pop();
        }
        self.at += 1;
        Ok(())
    }
}

/// The texts of the tokens among pieces, in order.
fn tokens_of<'a>(alloc: Global, pieces: &[Piece<'a>]) -> Result<Vec<&'a str>, AllocError>
    ensures { IfOk result (λ tokens. now_of tokens.items ≡ tokens_of (texts_of pieces.now)) }
{
    let mut tokens = Vec::with_capacity(alloc, pieces.len())?;
    for piece in pieces {
        if !piece.is_comment() {
            if tokens.push(piece.text).is_err() {
                return Err(AllocError);
            }
        }
    }
    Ok(tokens)
}

/// The pieces of a text as they are printed: without the tokens that printing drops, and with those that it adds. The
/// comments before a token that is dropped come before the next one. A token that is added directly follows the one
/// before it.
pub fn printed<'a>(alloc: Global, pieces: &[Piece<'a>]) -> Result<Vec<Piece<'a>>, AllocError>
    ensures { IfOk result (λ found. texts_of found.items ≡ printed (texts_of pieces.now)) }
{
    let tokens = tokens_of(alloc, pieces)?;
    let mut printing = Printing::new(alloc, pieces.len())?;
    for piece in pieces {
        printing.add(tokens.as_slice(), piece)?;
    }
    printing.into_pieces()
}
