// How deep brackets are nested.
ghost use Rattle.std.specs.Prelude.{◌≡◌, ℕ, List, None, count_by};
ghost use Rattle.wac_lexer.specs.Reading.{left};
ghost use Rattle.wac_comments_layout.specs.Nesting.{first_among, first_beyond, may_open, most, too_deep};
ghost use Rattle.wac_comments_layout.specs.Pieces.{pieces};
ghost use Rattle.wac_comments_layout.specs.Texts.{pieces_of};
ghost use Rattle.wac_lexer.specs.Characters.{refused};

use crate::brackets::{closes, opens};
use crate::pieces::Piece;
use wac_lexer::{Lexer, SourceSpan};

/// How deep brackets of all four kinds together may be nested.
const MOST: usize = 1000;

/// The first bracket that is nested deeper than a thousand, those in strings and comments not counted. A text with a
/// rejected character has none.
pub fn too_deep(source: &str) -> Option<SourceSpan>
    ensures { result ≡ too_deep source.now }
{
    if brackets(source.as_bytes()) <= MOST {
        return None;
    }
    match Lexer::new(source) {
        Ok(lexer) => first_too_deep(lexer),
        Err(_) => None,
    }
}

/// How many bytes are opening brackets, those in strings and comments too.
fn brackets(bytes: &[u8]) -> usize
    ensures { result ≡ count_by may_open bytes.now }
{
    bytes.iter().filter(|byte| may_open(**byte)).count()
}

fn may_open(byte: u8) -> bool
    ensures { result ≡ may_open byte }
{
    byte == b'(' || byte == b'[' || byte == b'<' || byte == b'{'
}

/// The first bracket among the items that a lexer has left.
fn first_too_deep(mut lexer: Lexer<'_>) -> Option<SourceSpan>
    ensures { result ≡ first_beyond most 0 (left lexer.entry) }
{
    let mut depth = 0usize;
    while let Some((_, span)) = lexer.next() {
        let text = lexer.source(span);
        if opens(text) {
            if depth >= MOST {
                return Some(span);
            }
            depth += 1;
        } else if closes(text) {
            depth = depth.saturating_sub(1);
        }
    }
    None
}

/// The first of a text's pieces that is a bracket nested deeper than a thousand: `too_deep` of the text, which is not
/// read again.
pub fn too_deep_among(found: &[Piece<'_>]) -> Option<SourceSpan>
    ensures { (text : List ℕ) → refused text ≡ None → pieces_of found.now ≡ pieces text → result ≡ too_deep text }
{
    first_among(found)
}

/// The first bracket among pieces that is nested deeper than a thousand.
fn first_among(pieces: &[Piece<'_>]) -> Option<SourceSpan>
    ensures { result ≡ first_among most 0 (pieces_of pieces.now) }
{
    let mut depth = 0usize;
    for piece in pieces {
        if opens(piece.text) {
            if depth >= MOST {
                return Some(piece.span);
            }
            depth += 1;
        } else if closes(piece.text) {
            depth = depth.saturating_sub(1);
        }
    }
    None
}
