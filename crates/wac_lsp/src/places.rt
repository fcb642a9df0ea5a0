//! Places of texts as values of the protocol.
ghost use Rattle.std.specs.Prelude.{◌≡◌, IfOk};
ghost use Rattle.serde_json.specs.View.{view};
ghost use Rattle.wac_lsp.specs.Edits.{between_data, position_data};

use serde_json::{Value, json};
use std::alloc::{AllocError, Global};
use wac_lexer::SourceSpan;
use wac_lsp_texts::Places;
use wac_positions::{ColumnUnit, Place};

/// A place as a position.
pub(crate) fn position(alloc: Global, place: Place) -> Result<Value, AllocError>
    ensures { IfOk result (λ value. view value ≡ position_data place) }
{
    let line = place.line;
    let character = place.column;
    json!(in alloc; {"line": line, "character": character})
}

/// From one position to another.
pub(crate) fn range_value(alloc: Global, start: Place, end: Place) -> Result<Value, AllocError>
    ensures { IfOk result (λ value. view value ≡ between_data start end) }
{
    let start = position(alloc, start)?;
    let end = position(alloc, end)?;
    let range = json!(in alloc; {"start": start, "end": end})?;
    Ok(range)
}

/// From one offset of a text to another.
#[derive(Clone, Copy)]
pub(crate) struct Part {
    pub(crate) start: usize,
    pub(crate) end: usize,
}

/// A text of which places are told.
#[derive(Drop)]
pub(crate) struct View<'a> {
    places: Places<'a>,
}

impl<'a> View<'a> {
    /// A view of a text with columns in these units.
    pub(crate) fn new(
        alloc: Global,
        text: &'a str,
        unit: ColumnUnit,
    ) -> Result<View<'a>, AllocError> {
        let places = Places::new(alloc, text, unit)?;
        Ok(View { places })
    }

    /// How many bytes the text has.
    pub(crate) fn len(&self) -> usize {
        self.places.len()
    }

    /// The place of an offset.
    pub(crate) fn place(&self, offset: usize) -> Place {
        self.places.place(offset)
    }

    /// From one offset to another as a range.
    pub(crate) fn range(
        &self,
        alloc: Global,
        start: usize,
        end: usize,
    ) -> Result<Value, AllocError> {
        range_value(alloc, self.place(start), self.place(end))
    }

    /// A span as a range, cut at the end of the text.
    pub(crate) fn span(&self, alloc: Global, span: SourceSpan) -> Result<Value, AllocError> {
        let end = span.offset().saturating_add(span.len());
        self.range(alloc, span.offset(), end)
    }
}
