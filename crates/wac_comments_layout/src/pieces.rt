// The pieces of a text: its tokens and comments, in order.
ghost use Rattle.std.specs.Prelude.{◌≡◌, ◌+◌, ◌<◌, ◌≤◌, ◌++◌, IfOk, IfErr, OnOk, MatchOption, Some, None, [], ◌∷◌, alloc_error, drop, length, map};
ghost use Rattle.std.specs.Str.{IsCharBoundary};
ghost use Rattle.wac_lexer.specs.Characters.{refused};
ghost use Rattle.wac_lexer.specs.Comments.{part_len};
ghost use Rattle.wac_lexer.specs.Items.{items};
ghost use Rattle.wac_lexer.specs.Reading.{left};
ghost use Rattle.wac_comments_layout.specs.Kept.{is_line, is_comment, is_doc};
ghost use Rattle.wac_comments_layout.specs.Pieces.{piece, pieces, texts, comment_of_part, comments_at};
ghost use Rattle.wac_comments_layout.specs.Texts.{Adds, AddsPart, pieces_of, texts_of};
ghost use Rattle.wac_comments_layout.specs.Errors.{IsReadErrorOf};

use crate::columns::column_at_end;
use crate::parts::{is_blank, is_line_comment, kept_len, opens, part_len};
use std::alloc::{AllocError, Global};
use thiserror::Error;
use wac_lexer::{Lexer, SourceSpan};

/// Why the pieces of a text were not read.
#[derive(Debug, Drop, Error)]
pub enum ReadError {
    /// The text has a rejected character.
    #[error("{0}")]
    Refused(wac_lexer::Error, SourceSpan),
    /// A request for memory failed.
    #[error("out of memory")]
    Memory(AllocError),
}

/// A token or a comment of a text, or its end.
#[derive(Clone, Copy, Debug)]
pub struct Piece<'a> {
    /// The text of the token or comment. A line comment has no blanks at its end, and the end of the text is empty.
    pub text: &'a str,
    /// Where the piece lies in its source.
    pub span: SourceSpan,
    /// How many line ends are between the piece before it and this one.
    pub breaks: usize,
    /// The column at which a line comment begins. Of all else it is 0.
    pub column: usize,
}

impl Piece<'_> {
    /// Whether the piece is a comment. No token begins with `//` or `/*`.
    pub fn is_comment(&self) -> bool
        ensures { result ≡ is_comment self.now.text.now }
    {
        let bytes = self.text.as_bytes();
        is_line_comment(bytes) || opens(bytes)
    }

    /// Whether the piece is a line comment.
    pub fn is_line(&self) -> bool
        ensures { result ≡ is_line self.now.text.now }
    {
        is_line_comment(self.text.as_bytes())
    }

    /// Whether the parser takes the comment as a doc where docs may be: `///x` and `/**x*/` are docs, `/**/` is not.
    pub fn is_doc(&self) -> bool
        ensures { result ≡ is_doc self.now.text.now }
    {
        let bytes = self.text.as_bytes();
        bytes.starts_with(b"///") || (bytes.starts_with(b"/**") && bytes.len() > 4)
    }
}

/// There is room at once for a piece for each so many bytes.
const BYTES_A_PIECE: usize = 6;

/// Collects the pieces of a text.
#[derive(Drop)]
struct Reader<'a> {
    pieces: Vec<Piece<'a>>,
    // How many columns a tab takes.
    tab: usize,
    // The line ends since the last piece.
    breaks: usize,
}

impl<'a> Reader<'a> {
    /// With room for so many pieces.
    fn new(alloc: Global, tab: usize, room: usize) -> Result<Self, AllocError>
        ensures { IfOk result (λ reader. reader.pieces.items ≡ []) }
    {
        let pieces = Vec::with_capacity(alloc, room)?;
        Ok(Reader {
            pieces,
            tab,
            breaks: 0,
        })
    }

    /// Adds the piece at a span and a column. Its text may end before the span does.
    fn add(&mut self, text: &'a str, span: SourceSpan, column: usize) -> Result<(), AllocError>
        ensures { IfOk result (λ _. Adds self.old.pieces.items (piece text.now span ∷ []) self.new.pieces.items) }
    {
        let piece = Piece {
            text,
            span,
            breaks: self.breaks,
            column,
        };
        self.breaks = 0;
        if self.pieces.push(piece).is_err() {
            return Err(AllocError);
        }
        Ok(())
    }

    /// Adds the comment at a place, after a text. A part of one byte is a blank.
    fn add_part(&mut self, before: &str, part: &'a str, place: usize) -> Result<(), AllocError>
        ensures { IfOk result (λ _. Adds self.old.pieces.items (comment_of_part place part.now) self.new.pieces.items) }
    {
        let bytes = part.as_bytes();
        if bytes.len() < 2 {
            return Ok(());
        }
        let column = if is_line_comment(bytes) {
            column_at_end(before, self.tab)
        } else {
            0
        };
        let (kept, _) = part.split_at(kept_len(bytes));
        self.add(kept, SourceSpan::new(place, part.len()), column)
    }

    /// Adds the comment at a place of a source: how many bytes it takes, and 0 where there is none.
    fn read_comment(&mut self, source: &'a str, start: usize) -> Result<usize, AllocError>
        requires boundary { IsCharBoundary source.now start }
        requires within { start < length source.now }
        ensures len { IfOk result (λ len. len ≡ part_len (drop start source.now)) }
        ensures within { IfOk result (λ len. start + len ≤ length source.now) }
        ensures added { IfOk result (λ len. AddsPart self.old.pieces.items source.now start len self.new.pieces.items) }
    {
        let (before, rest) = source.split_at(start);
        let len = part_len(rest.as_bytes());
        let (part, _) = rest.split_at(len);
        self.add_part(before, part, start)?;
        Ok(len)
    }

    /// Adds the comment at a place of a source, or counts the blank: how many bytes it takes, and 0 where there is
    /// neither. Most are blanks.
    fn read_part(&mut self, source: &'a str, start: usize) -> Result<usize, AllocError>
        requires boundary { IsCharBoundary source.now start }
        requires within { start < length source.now }
        ensures len { IfOk result (λ len. len ≡ part_len (drop start source.now)) }
        ensures within { IfOk result (λ len. start + len ≤ length source.now) }
        ensures added { IfOk result (λ len. AddsPart self.old.pieces.items source.now start len self.new.pieces.items) }
    {
        let byte = source.as_bytes()[start];
        if is_blank(byte) {
            if byte == b'\n' {
                self.breaks = self.breaks.saturating_add(1);
            }
            return Ok(1);
        }
        if byte != b'/' {
            return Ok(0);
        }
        self.read_comment(source, start)
    }

    /// Adds the comments between a place of a source and the next item.
    fn gap(&mut self, source: &'a str, place: usize) -> Result<(), AllocError>
        requires { IsCharBoundary source.now place }
        ensures { IfOk result (λ _. Adds self.old.pieces.items (comments_at source.now place) self.new.pieces.items) }
    {
        let mut start = place;
        while start < source.len() {
            let len = self.read_part(source, start)?;
            if len == 0 {
                return Ok(());
            }
            start += len;
        }
        Ok(())
    }
}

/// The pieces of a text, and its end after them. `tab` is how many columns a tab takes.
pub fn read(alloc: Global, source: &str, tab: usize) -> Result<Vec<Piece<'_>>, ReadError>
    ensures found { IfOk result (λ found. pieces_of found.items ≡ pieces source.now) }
    ensures texts { IfOk result (λ found. texts_of found.items ≡ texts source.now) }
    ensures accepted { OnOk result (refused source.now ≡ None) }
    ensures error { IfErr result (λ e. IsReadErrorOf source.now e) }
{
    let lexer = match Lexer::new(source) {
        Ok(lexer) => lexer,
        Err((error, span)) => return Err(ReadError::Refused(error, span)),
    };
    match read_items(alloc, source, lexer, tab) {
        Ok(pieces) => Ok(pieces),
        Err(AllocError) => Err(ReadError::Memory(AllocError)),
    }
}

/// The pieces of a source, which the lexer is at the start of.
fn read_items<'a>(
    alloc: Global,
    source: &'a str,
    mut lexer: Lexer<'a>,
    tab: usize,
) -> Result<Vec<Piece<'a>>, AllocError>
    requires source { lexer.source ≡ source.now }
    requires left { left lexer ≡ items source.now }
    ensures { IfOk result (λ found. pieces_of found.items ≡ pieces source.now) }
{
    let mut reader = Reader::new(alloc, tab, source.len() / BYTES_A_PIECE)?;
    let mut place = 0;
    while let Some((_, span)) = lexer.next() {
        reader.gap(source, place)?;
        reader.add(lexer.source(span), span, 0)?;
        place = span.offset() + span.len();
    }
    reader.gap(source, place)?;
    reader.add("", SourceSpan::new(source.len(), 0), 0)?;
    let Reader { pieces, .. } = reader;
    Ok(pieces)
}
