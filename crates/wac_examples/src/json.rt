//! Documents as JSON.

use std::alloc::Global;
use wac_json_text::write_json;
use wac_parser::lexer::Sink;
use wac_parser::{Document, Page, ParseResult, PrintResult, ToValue};

/// The tree of a document as compact JSON.
pub fn to_json(alloc: Global, source: &str) -> ParseResult<String> {
    let document = Document::parse(alloc, source)?;
    let page = Page {
        document: &document,
    };
    json_of(alloc, page)
}

fn json_of(alloc: Global, page: Page<'_, '_>) -> ParseResult<String> {
    let Page { document } = page;
    Ok(document.to_value(alloc)?.to_string(alloc)?)
}

/// Writes the same text into a sink, and holds none of it: memory is taken for the tree alone.
pub fn put_json<S: Sink>(alloc: Global, source: &str, sink: &mut S) -> ParseResult<PrintResult> {
    let document = Document::parse(alloc, source)?;
    let page = Page {
        document: &document,
    };
    Ok(write_json(page, sink))
}
