// The forms in which a graph is shown.
use crate::drawing::dot;
use crate::lines::text;
use crate::objects::json;
use crate::picture::Picture;
use crate::places::bound_places;
use std::alloc::{AllocError, Global};
use wac_ast::internals::Statements;
use wac_excerpts::push_escaped;
use wac_graph::CompositionGraph;

/// The form in which a graph is shown.
#[derive(Clone, Copy, Debug, PartialEq, Eq)]
pub enum Form {
    /// Lines, as those of `wac resolve`.
    Text,
    /// One JSON object, on a line.
    Json,
    /// A graph for Graphviz.
    Dot,
}

/// The graph of a document with these statements, in a form. docs/GRAPH.md describes the three. Nothing in it commands a
/// terminal.
pub fn drawn(
    alloc: Global,
    statements: Statements<'_, '_>,
    graph: &CompositionGraph,
    form: Form,
) -> Result<Vec<u8>, AllocError> {
    match picture_of(alloc, statements, graph) {
        Ok(picture) => shown(alloc, &picture, form),
        Err(error) => Err(error),
    }
}

/// The graph of a document with these statements, as one JSON object on a line, whose names have each character as it is.
pub fn exact_json(
    alloc: Global,
    statements: Statements<'_, '_>,
    graph: &CompositionGraph,
) -> Result<Vec<u8>, AllocError> {
    match picture_of(alloc, statements, graph) {
        Ok(picture) => exact_line(alloc, &picture),
        Err(error) => Err(error),
    }
}

/// What is shown of the graph of a document with these statements.
fn picture_of(
    alloc: Global,
    statements: Statements<'_, '_>,
    graph: &CompositionGraph,
) -> Result<Picture, AllocError> {
    let places = bound_places(alloc, statements)?;
    Picture::of(alloc, graph, &places)
}

/// A graph in a form.
fn shown(alloc: Global, picture: &Picture, form: Form) -> Result<Vec<u8>, AllocError> {
    match form {
        Form::Text => lines(alloc, picture),
        Form::Json => json_line(alloc, picture),
        Form::Dot => dot_text(alloc, picture),
    }
}

/// A graph as lines.
fn lines(alloc: Global, picture: &Picture) -> Result<Vec<u8>, AllocError> {
    let text = text(alloc, picture)?;
    Vec::from_slice(alloc, text.as_bytes())
}

/// A graph for Graphviz.
fn dot_text(alloc: Global, picture: &Picture) -> Result<Vec<u8>, AllocError> {
    let text = dot(alloc, picture)?;
    Vec::from_slice(alloc, text.as_bytes())
}

/// A graph as JSON, with the end of the line.
fn exact_line(alloc: Global, picture: &Picture) -> Result<Vec<u8>, AllocError> {
    let mut line = json(alloc, picture)?;
    line.push('\n')?;
    Vec::from_slice(alloc, line.as_bytes())
}

/// The same, with an escape for what a terminal could take for a command.
fn json_line(alloc: Global, picture: &Picture) -> Result<Vec<u8>, AllocError> {
    let exact = json(alloc, picture)?;
    let mut line = String::new(alloc);
    push_escaped(&mut line, exact.as_str())?;
    line.push('\n')?;
    Vec::from_slice(alloc, line.as_bytes())
}
