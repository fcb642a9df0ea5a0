//! Which parts of a text can be folded.
use std::alloc::{AllocError, Global};
use wac_comments_layout::Piece;

/// A part of a text that can be folded.
#[derive(Clone, Copy, Debug, PartialEq, Eq)]
pub struct Fold {
    /// Where it begins, in bytes: after a brace, or with a comment.
    pub start: usize,
    /// Where it ends: before the brace that closes it, or with the comment.
    pub end: usize,
    /// Whether it is a comment.
    pub is_comment: bool,
}

/// Collects comments, and what is between braces.
#[derive(Drop)]
struct Collector {
    found: Vec<Fold>,
    /// Where the insides of the braces begin that are open.
    open: Vec<usize>,
}

impl Collector {
    /// Adds a part.
    fn add(&mut self, start: usize, end: usize, is_comment: bool) -> Result<(), AllocError> {
        let fold = Fold {
            start,
            end,
            is_comment,
        };
        match self.found.push(fold) {
            Ok(()) => Ok(()),
            Err(_) => Err(AllocError),
        }
    }

    /// Opens a brace.
    fn enter(&mut self, start: usize) -> Result<(), AllocError> {
        match self.open.push(start) {
            Ok(()) => Ok(()),
            Err(_) => Err(AllocError),
        }
    }

    /// Closes the innermost brace.
    fn leave(&mut self, end: usize) -> Result<(), AllocError> {
        match self.open.pop() {
            Some(start) => self.add(start, end, false),
            None => Ok(()),
        }
    }

    /// Takes the next piece.
    fn take(&mut self, piece: &Piece<'_>) -> Result<(), AllocError> {
        let start = piece.span.offset();
        let end = start.saturating_add(piece.text.len());
        if piece.is_comment() {
            return self.add(start, end, true);
        }
        match piece.text {
            "{" => self.enter(end),
            "}" => self.leave(start),
            _ => Ok(()),
        }
    }
}

/// The comments among the pieces of a text, and what is between its braces, as they end; those of one line too. A brace
/// without its other one is passed over. The error is that memory ran out.
pub fn folds(alloc: Global, pieces: &[Piece<'_>]) -> Result<Vec<Fold>, AllocError> {
    let mut collector = Collector {
        found: Vec::new(alloc),
        open: Vec::new(alloc),
    };
    for piece in pieces {
        collector.take(piece)?;
    }
    let Collector { found, .. } = collector;
    Ok(found)
}
