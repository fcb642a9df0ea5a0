//! Where names are bound and used, and the edits that give them another one.
use crate::applying::workspace_edit;
use crate::places::View;
use crate::questions::{Answered, Subject};
use serde_json::{Value, json};
use std::alloc::{AllocError, Global};
use wac_lexer::SourceSpan;
use wac_lsp_messages::{Code, Refusal};
use wac_lsp_names::{Edit, Occurrences, Stopped, occurrences_at, rename};
use wac_lsp_texts::offset_at;
use wac_names::name_in;
use wac_positions::{Lines, Place};

/// The number of a highlight of a use.
const READ: u8 = 2;

/// The number of a highlight of a binding.
const WRITE: u8 = 3;

/// The offset of a place.
pub(crate) fn offset_of(
    alloc: Global,
    about: &Subject<'_>,
    place: Place,
) -> Result<usize, AllocError> {
    let lines = Lines::new(alloc, about.text)?;
    Ok(offset_at(&lines, about.text.len(), place, about.unit).unwrap_or(0))
}

/// The name at a place.
fn name_at(
    alloc: Global,
    about: &Subject<'_>,
    place: Place,
) -> Result<Option<Occurrences>, AllocError> {
    let offset = offset_of(alloc, about, place)?;
    occurrences_at(alloc, about.text, offset)
}

/// A span as a place of a document.
pub(crate) fn location(
    alloc: Global,
    view: &View<'_>,
    uri: &str,
    span: SourceSpan,
) -> Result<Value, AllocError> {
    let range = view.span(alloc, span)?;
    json!(in alloc; {"uri": uri, "range": range})
}

/// Where the name at a place is bound: null where there is none.
pub(crate) fn definition(
    alloc: Global,
    about: &Subject<'_>,
    place: Place,
) -> Result<Value, AllocError> {
    let Some(found) = name_at(alloc, about, place)? else {
        return Ok(Value::Null);
    };
    let view = View::new(alloc, about.text, about.unit)?;
    location(alloc, &view, about.uri, found.bound)
}

/// Spans as places of a document.
fn locations(
    alloc: Global,
    view: &View<'_>,
    uri: &str,
    spans: &[SourceSpan],
) -> Result<Vec<Value>, AllocError> {
    let mut values = Vec::new(alloc);
    for span in spans {
        values.push(location(alloc, view, uri, *span)?)?;
    }
    Ok(values)
}

/// Where a name is used, and first where it is bound, if that is asked for.
fn spans_of(
    alloc: Global,
    found: &Occurrences,
    includes_declaration: bool,
) -> Result<Vec<SourceSpan>, AllocError> {
    let mut spans = Vec::new(alloc);
    if includes_declaration {
        spans.push(found.bound)?;
    }
    spans.extend_from_slice(found.used.as_slice())?;
    Ok(spans)
}

/// Where the name at a place is used, and first where it is bound, if that is asked for.
pub(crate) fn references(
    alloc: Global,
    about: &Subject<'_>,
    place: Place,
    includes_declaration: bool,
) -> Result<Value, AllocError> {
    let Some(found) = name_at(alloc, about, place)? else {
        return Ok(Value::Array(Vec::new(alloc)));
    };
    let spans = spans_of(alloc, &found, includes_declaration)?;
    let view = View::new(alloc, about.text, about.unit)?;
    let values = locations(alloc, &view, about.uri, spans.as_slice())?;
    Ok(Value::Array(values))
}

/// A highlight of a span.
fn highlight(
    alloc: Global,
    view: &View<'_>,
    span: SourceSpan,
    kind: u8,
) -> Result<Value, AllocError> {
    let range = view.span(alloc, span)?;
    json!(in alloc; {"range": range, "kind": kind})
}

/// Adds highlights of uses.
fn push_highlights(
    alloc: Global,
    view: &View<'_>,
    spans: &[SourceSpan],
    values: &mut Vec<Value>,
) -> Result<(), AllocError> {
    for span in spans {
        let value = highlight(alloc, view, *span, READ)?;
        if values.push(value).is_err() {
            return Err(AllocError);
        }
    }
    Ok(())
}

/// Where the name at a place is bound and used, as highlights.
pub(crate) fn highlights(
    alloc: Global,
    about: &Subject<'_>,
    place: Place,
) -> Result<Value, AllocError> {
    let mut values = Vec::new(alloc);
    let Some(found) = name_at(alloc, about, place)? else {
        return Ok(Value::Array(values));
    };
    let view = View::new(alloc, about.text, about.unit)?;
    values.push(highlight(alloc, &view, found.bound, WRITE)?)?;
    push_highlights(alloc, &view, found.used.as_slice(), &mut values)?;
    Ok(Value::Array(values))
}

/// Which name can be renamed at a place: where it is, and its text without `%`; null where there is none.
pub(crate) fn prepared(
    alloc: Global,
    about: &Subject<'_>,
    place: Place,
) -> Result<Value, AllocError> {
    let Some(found) = name_at(alloc, about, place)? else {
        return Ok(Value::Null);
    };
    let view = View::new(alloc, about.text, about.unit)?;
    let range = view.span(alloc, found.at)?;
    let placeholder = name_in(about.text, found.at).unwrap_or("");
    json!(in alloc; {"range": range, "placeholder": placeholder})
}

/// Edits as values.
fn edit_values(alloc: Global, view: &View<'_>, edits: &[Edit]) -> Result<Vec<Value>, AllocError> {
    let mut values = Vec::new(alloc);
    for edit in edits {
        let range = view.span(alloc, edit.span)?;
        let text = edit.text.as_str();
        values.push(json!(in alloc; {"range": range, "newText": text})?)?;
    }
    Ok(values)
}

/// Edits of a document as a value.
fn changes_value(alloc: Global, about: &Subject<'_>, edits: &[Edit]) -> Result<Value, AllocError> {
    let view = View::new(alloc, about.text, about.unit)?;
    let edits = Value::Array(edit_values(alloc, &view, edits)?);
    workspace_edit(alloc, about, edits)
}

/// The edits that give the name at a place another one, or why there are none.
pub(crate) fn renamed(
    alloc: Global,
    about: &Subject<'_>,
    place: Place,
    new: &str,
) -> Result<Answered, AllocError> {
    let offset = offset_of(alloc, about, place)?;
    match rename(alloc, about.text, offset, new) {
        Ok(edits) => match changes_value(alloc, about, edits.as_slice()) {
            Ok(value) => Ok(Ok(value)),
            Err(_) => Err(AllocError),
        },
        Err(Stopped::Refused(why)) => Ok(Err(Refusal {
            code: Code::RequestFailed,
            message: why.message(),
        })),
        Err(Stopped::Memory) => Err(AllocError),
    }
}
