// What is shown of the graph of bytes, whose document is parsed anew for the places of its names.
use std::alloc::{AllocError, Global};
use wac_ast::Document;
use wac_ast::internals::Statements;
use wac_graph::CompositionGraph;
use wac_graph_outputs::{Form, drawn};
use wac_printer::Page;

/// The graph of bytes, in a form.
pub(crate) fn drawn_of(
    alloc: Global,
    bytes: &[u8],
    graph: &CompositionGraph,
    form: Form,
) -> Result<Vec<u8>, AllocError> {
    match Document::parse(alloc, text_of(bytes)) {
        Ok(document) => drawn_page(
            Page {
                document: &document,
            },
            alloc,
            graph,
            form,
        ),
        // It was parsed before, so only memory runs out.
        Err(_) => Err(AllocError),
    }
}

/// The graph of a document, in a form.
fn drawn_page(
    page: Page<'_, '_>,
    alloc: Global,
    graph: &CompositionGraph,
    form: Form,
) -> Result<Vec<u8>, AllocError> {
    let Page { document } = page;
    let statements = Statements {
        all: &document.statements,
    };
    drawn(alloc, statements, graph, form)
}

/// The text of bytes that were read as one.
pub(crate) fn text_of(bytes: &[u8]) -> &str {
    str::from_utf8(bytes).unwrap_or("")
}
