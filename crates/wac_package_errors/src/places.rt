//! Warnings of a text whose graph is known: the text is parsed anew for the places of its names.

use indexmap::IndexMap;
use std::alloc::{AllocError, Global};
use wac_ast::Document;
use wac_ast::internals::Statements;
use wac_composition::warnings;
use wac_diagnostics::Diagnostic;
use wac_graph::CompositionGraph;
use wac_graph_outputs::bound_places;
use wac_lexer::SourceSpan;
use wac_printer::Page;

/// What of the graph of a text may not be meant, as `warnings` finds it, at the places in which the text binds names. The
/// text is one that was resolved to this graph. The error is that memory ran out.
pub fn warnings_of(
    alloc: Global,
    text: &str,
    graph: &CompositionGraph,
) -> Result<Vec<Diagnostic>, AllocError> {
    let places = places_of(alloc, text)?;
    warnings(alloc, graph, &places)
}

/// The places in which the document of a text binds names.
fn places_of(alloc: Global, text: &str) -> Result<IndexMap<String, SourceSpan>, AllocError> {
    match Document::parse(alloc, text) {
        Ok(document) => places_in(
            Page {
                document: &document,
            },
            alloc,
        ),
        // It was parsed before, so only memory runs out.
        Err(_) => Err(AllocError),
    }
}

/// The places in which a document binds names.
fn places_in(
    page: Page<'_, '_>,
    alloc: Global,
) -> Result<IndexMap<String, SourceSpan>, AllocError> {
    let Page { document } = page;
    bound_places(
        alloc,
        Statements {
            all: &document.statements,
        },
    )
}
