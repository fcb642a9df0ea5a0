//! The statements of a document, by its tokens alone.
use std::alloc::{AllocError, Global};
use wac_comments_layout::Piece;

/// A statement with what comes before it.
#[derive(Clone, Copy)]
pub(crate) struct Statement {
    /// Where the statement before ends.
    pub(crate) start: usize,
    /// Where its first token begins, or a comment on lines of its own before it.
    pub(crate) first: usize,
    /// Where it ends.
    pub(crate) end: usize,
}

/// Goes over the pieces of a document.
#[derive(Drop)]
struct Walk {
    found: Vec<Statement>,
    /// How many brackets are open.
    depth: usize,
    /// Where the last statement ends.
    start: usize,
    /// Where the next one begins, once that is known.
    first: Option<usize>,
    /// Whether the next one ends with its brace, once its first token is known.
    has_brace: Option<bool>,
}

/// Whether a statement that begins with this word ends with its brace.
fn ends_with_brace(word: &str) -> bool {
    matches!(
        word,
        "interface" | "world" | "variant" | "record" | "flags" | "enum"
    )
}

impl Walk {
    /// Ends a statement.
    fn end(&mut self, end: usize) -> Result<(), AllocError> {
        let statement = Statement {
            start: self.start,
            first: self.first.unwrap_or(end),
            end,
        };
        self.start = end;
        self.first = None;
        self.has_brace = None;
        match self.found.push(statement) {
            Ok(()) => Ok(()),
            Err(_) => Err(AllocError),
        }
    }

    /// Notes where the next statement begins, if this is its first piece. A comment after the statement before is not.
    fn note(&mut self, piece: &Piece<'_>) {
        let begins = piece.breaks > 0 || !piece.is_comment();
        if begins && self.first.is_none() {
            self.first = Some(piece.span.offset());
        }
        if self.has_brace.is_none() && !piece.is_comment() {
            self.has_brace = Some(ends_with_brace(piece.text));
        }
    }

    /// Takes the next piece.
    fn take(&mut self, piece: &Piece<'_>) -> Result<(), AllocError> {
        self.note(piece);
        let end = piece.span.offset().saturating_add(piece.text.len());
        match piece.text {
            "{" | "(" | "[" => self.depth = self.depth.saturating_add(1),
            ")" | "]" => self.depth = self.depth.saturating_sub(1),
            "}" => {
                self.depth = self.depth.saturating_sub(1);
                if self.depth == 0 && self.has_brace == Some(true) {
                    self.end(end)?;
                }
            }
            ";" if self.depth == 0 => self.end(end)?,
            _ => {}
        }
        Ok(())
    }
}

/// The statements of a text with these pieces and so many bytes, and what comes after the last.
pub(crate) fn statements(
    alloc: Global,
    pieces: &[Piece<'_>],
    len: usize,
) -> Result<Vec<Statement>, AllocError> {
    let mut walk = Walk {
        found: Vec::new(alloc),
        depth: 0,
        start: 0,
        first: None,
        has_brace: None,
    };
    for piece in pieces {
        walk.take(piece)?;
    }
    walk.end(len)?;
    let Walk { found, .. } = walk;
    Ok(found)
}
