//! What is around places of a document, from the inside to the outside.
use crate::pieces::pieces_of;
use crate::places::{Part, View};
use serde_json::{Value, json};
use std::alloc::{AllocError, Global};
use wac_comments_layout::Piece;
use wac_lsp_texts::offset_at;
use wac_positions::{ColumnUnit, Lines, Place};

/// How many parts around a place are told, and the whole text.
const MOST: usize = 32;

/// Collects the parts around an offset, each within the next: a token or a comment, and what is in brackets, with them.
#[derive(Drop)]
struct Around {
    offset: usize,
    parts: Vec<Part>,
    /// Where the brackets are that are open.
    open: Vec<usize>,
}

impl Around {
    /// Adds a part, if there are not many yet.
    fn add(&mut self, part: Part) -> Result<(), AllocError> {
        if MOST <= self.parts.len() {
            return Ok(());
        }
        match self.parts.push(part) {
            Ok(()) => Ok(()),
            Err(_) => Err(AllocError),
        }
    }

    /// Opens a bracket.
    fn enter(&mut self, start: usize) -> Result<(), AllocError> {
        match self.open.push(start) {
            Ok(()) => Ok(()),
            Err(_) => Err(AllocError),
        }
    }

    /// Closes the innermost bracket. At the ends of brackets the offset isn't in them: a piece beside them may be the one
    /// that counts there.
    fn leave(&mut self, end: usize) -> Result<(), AllocError> {
        match self.open.pop() {
            Some(start) if start < self.offset && self.offset < end => {
                self.add(Part { start, end })
            }
            _ => Ok(()),
        }
    }

    /// Takes the next piece. Of two that meet at the offset the first counts.
    fn take(&mut self, piece: &Piece<'_>) -> Result<(), AllocError> {
        let start = piece.span.offset();
        let end = start.saturating_add(piece.text.len());
        let is_first = self.parts.is_empty() && start < end;
        if is_first && start <= self.offset && self.offset <= end {
            self.add(Part { start, end })?;
        }
        match piece.text {
            "{" | "(" | "[" | "<" => self.enter(start),
            "}" | ")" | "]" | ">" => self.leave(end),
            _ => Ok(()),
        }
    }
}

/// The parts around an offset, each within the next.
fn parts_around(
    alloc: Global,
    pieces: &[Piece<'_>],
    offset: usize,
) -> Result<Vec<Part>, AllocError> {
    let mut around = Around {
        offset,
        parts: Vec::new(alloc),
        open: Vec::new(alloc),
    };
    for piece in pieces {
        around.take(piece)?;
    }
    let Around { parts, .. } = around;
    Ok(parts)
}

/// A part within another.
fn within(alloc: Global, view: &View<'_>, part: Part, parent: Value) -> Result<Value, AllocError> {
    let range = view.range(alloc, part.start, part.end)?;
    json!(in alloc; {"range": range, "parent": parent})
}

/// Parts, each within the next, and the last within the whole text.
fn selection(alloc: Global, view: &View<'_>, parts: &[Part]) -> Result<Value, AllocError> {
    let whole = view.range(alloc, 0, view.len())?;
    let mut value = json!(in alloc; {"range": whole})?;
    for part in parts.iter().rev() {
        value = within(alloc, view, *part, value)?;
    }
    Ok(value)
}

/// What is around each of these places.
fn selections_value(
    alloc: Global,
    view: &View<'_>,
    pieces: &[Piece<'_>],
    offsets: &[usize],
) -> Result<Value, AllocError> {
    let mut values = Vec::new(alloc);
    for offset in offsets {
        let parts = parts_around(alloc, pieces, *offset)?;
        values.push(selection(alloc, view, parts.as_slice())?)?;
    }
    Ok(Value::Array(values))
}

/// The offsets of places.
fn offsets_of(
    alloc: Global,
    text: &str,
    places: &[Place],
    unit: ColumnUnit,
) -> Result<Vec<usize>, AllocError> {
    let lines = Lines::new(alloc, text)?;
    let mut offsets = Vec::new(alloc);
    for place in places {
        offsets.push(offset_at(&lines, text.len(), *place, unit).unwrap_or(0))?;
    }
    Ok(offsets)
}

/// What is around places of a text. After a rejected character it is the whole text alone.
pub(crate) fn selections(
    alloc: Global,
    text: &str,
    places: &[Place],
    unit: ColumnUnit,
) -> Result<Value, AllocError> {
    let offsets = offsets_of(alloc, text, places, unit)?;
    let pieces = pieces_of(alloc, text)?;
    let view = View::new(alloc, text, unit)?;
    selections_value(alloc, &view, pieces.as_slice(), offsets.as_slice())
}
