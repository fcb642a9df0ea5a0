//! The graph of a part of a document, which helps to say what is wrong in another part.

use crate::context::Context;
use crate::resolving::graph_of;
use crate::rules::NoRules;
use crate::texts::end_of;
use std::alloc::{AllocError, Global};
use wac_ast::Document;
use wac_graph::CompositionGraph;
use wac_lexer::SourceSpan;
use wac_printer::Page;
use wac_resolution_errors::Error;

/// What a text is.
#[derive(Drop)]
enum Beginning {
    /// A document that could be resolved, by rules that reject nothing: its graph.
    Graph(CompositionGraph),
    /// A document with another error.
    Broken,
    /// No document.
    Cut,
}

/// Where statements may end before a place, in order.
fn ends_before(
    alloc: Global,
    context: Context<'_>,
    place: SourceSpan,
) -> Result<Vec<usize>, AllocError> {
    let mut ends = Vec::new(alloc);
    for (at, c) in context.text.char_indices() {
        if at < place.offset() && (c == ';' || c == '}') {
            ends.push(at.saturating_add(1))?;
        }
    }
    Ok(ends)
}

/// The graph of the statements that end before a place, and of more statements after them.
pub(crate) fn graph_before(
    alloc: Global,
    context: Context<'_>,
    place: SourceSpan,
    more: &str,
) -> Result<Option<CompositionGraph>, AllocError> {
    let ends = ends_before(alloc, context, place)?;
    last_graph(alloc, context, ends.as_slice(), more)
}

/// The graph of the statements up to the last of these ends that ends a statement, and of more statements.
fn last_graph(
    alloc: Global,
    context: Context<'_>,
    ends: &[usize],
    more: &str,
) -> Result<Option<CompositionGraph>, AllocError> {
    for end in ends.iter().rev() {
        match read_beginning(alloc, context, *end, more)? {
            Beginning::Graph(graph) => return Ok(Some(graph)),
            Beginning::Broken => return Ok(None),
            Beginning::Cut => {}
        }
    }
    Ok(None)
}

/// The graph of the statements up to that of a place.
pub(crate) fn graph_after(
    alloc: Global,
    context: Context<'_>,
    place: SourceSpan,
) -> Result<Option<CompositionGraph>, AllocError> {
    for (at, _) in context.text.match_indices(';') {
        if at >= end_of(place) {
            match read_beginning(alloc, context, at.saturating_add(1), "")? {
                Beginning::Graph(graph) => return Ok(Some(graph)),
                Beginning::Broken => return Ok(None),
                Beginning::Cut => {}
            }
        }
    }
    Ok(None)
}

/// The graph of the whole document, and of more statements.
pub(crate) fn graph_of_all(
    alloc: Global,
    context: Context<'_>,
    more: &str,
) -> Result<Option<CompositionGraph>, AllocError> {
    match read_beginning(alloc, context, context.text.len(), more)? {
        Beginning::Graph(graph) => Ok(Some(graph)),
        Beginning::Broken | Beginning::Cut => Ok(None),
    }
}

/// What the bytes before an end are, without the `targets` clause, and with more statements.
fn read_beginning(
    alloc: Global,
    context: Context<'_>,
    end: usize,
    more: &str,
) -> Result<Beginning, AllocError> {
    let before = context.text.get(..context.target_start);
    let after = context.text.get(context.target_end..end);
    match (before, after) {
        (Some(before), Some(after)) => {
            // What ends a statement may be the end of a comment.
            let text = format!(in alloc; "{before}{after}\n{more}")?;
            read(alloc, context, text.as_str())
        }
        _ => Ok(Beginning::Cut),
    }
}

/// What a text is.
fn read(alloc: Global, context: Context<'_>, text: &str) -> Result<Beginning, AllocError> {
    match Document::parse(alloc, text) {
        Ok(document) => resolved(
            Page {
                document: &document,
            },
            alloc,
            context,
        ),
        Err(wac_ast::Error::Memory(refused)) => Err(refused),
        Err(_) => Ok(Beginning::Cut),
    }
}

/// The graph of a document, if it has one.
fn resolved(
    page: Page<'_, '_>,
    alloc: Global,
    context: Context<'_>,
) -> Result<Beginning, AllocError> {
    beginning_of(graph_of(page, alloc, context, &NoRules))
}

/// What a document is that was resolved.
fn beginning_of(graph: Result<CompositionGraph, Error>) -> Result<Beginning, AllocError> {
    match graph {
        Ok(graph) => Ok(Beginning::Graph(graph)),
        Err(Error::Memory(refused)) => Err(refused),
        Err(_) => Ok(Beginning::Broken),
    }
}
