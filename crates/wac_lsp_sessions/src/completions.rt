//! Names of packages that can stand at places of documents.
use serde_json::Value;
use std::alloc::{AllocError, Global};
use wac_lsp::{Document, Server, Suggestion};
use wac_lsp_workspace::{Offered, Offers, Seen};
use wac_positions::Place;

/// The number of what a name stands for among the kinds of completions.
fn number_of(what: Offered) -> u8 {
    match what {
        Offered::Function => 3,
        Offered::Instance => 8,
        Offered::Package => 9,
        Offered::Type => 22,
        Offered::Other => 6,
    }
}

/// Names of packages as suggestions.
fn suggestions(alloc: Global, offers: &Offers) -> Result<Vec<Suggestion<'_>>, AllocError> {
    let mut all = Vec::with_capacity(alloc, offers.all.len())?;
    for offer in &offers.all {
        all.push(Suggestion {
            label: offer.written.as_str(),
            detail: offer.detail.as_str(),
            kind: number_of(offer.what),
            start: offers.start,
        })?;
    }
    Ok(all)
}

/// What can stand at a place of a document, if that is a name of a package of the folders.
pub(crate) fn completed_at(
    alloc: Global,
    server: &Server,
    seen: Seen<'_>,
    document: &Document,
    place: Place,
) -> Result<Option<Value>, AllocError> {
    let offset = server.offset_in(alloc, document.text(), place)?;
    let offers = seen.names_at(alloc, document.text(), offset)?;
    if offers.all.is_empty() {
        return Ok(None);
    }
    let suggestions = suggestions(alloc, &offers)?;
    let value = server.completions(alloc, document, place, suggestions.as_slice())?;
    Ok(Some(value))
}
