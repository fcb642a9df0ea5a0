//! A graph for Graphviz.

use crate::open::{OpenImport, open_imports};
use crate::picture::Picture;
use crate::rows::NodeRow;
use indexmap::IndexMap;
use std::alloc::{AllocError, Global};
use wac_excerpts::shown;

/// A graph in the language of Graphviz: instances are boxes with their packages, imports and exports are arrows. An edge
/// leads from what is given to what it is given to, with the name of the argument. An alias isn't drawn: its edges begin
/// at its instance. What instances leave open is dashed.
pub fn dot(alloc: Global, picture: &Picture) -> Result<String, AllocError> {
    let mut out = String::from_str(
        alloc,
        "digraph composition {\n  rankdir=LR;\n  node [fontname=\"sans-serif\", margin=\"0.25,0.1\"];\n  edge [fontname=\"sans-serif\", fontsize=10];\n",
    )?;
    push_graph(alloc, &mut out, picture)?;
    Ok(out)
}

/// Appends the nodes, what is left open and what is exported.
fn push_graph(alloc: Global, out: &mut String, picture: &Picture) -> Result<(), AllocError> {
    for (node, row) in picture.nodes.as_slice().iter().enumerate() {
        push_node(out, picture, node, row)?;
    }
    push_open(alloc, out, picture)?;
    push_exports(out, picture)?;
    out.push_str("}\n")
}

/// Appends a text between quotes, with U+FFFD for what a terminal could take for a command.
fn push_quoted(out: &mut String, text: &str) -> Result<(), AllocError> {
    for character in text.chars() {
        if character == '"' || character == '\\' {
            out.push('\\')?;
        }
        out.push(shown(character))?;
    }
    Ok(())
}

/// The shape of a node, unless it is an alias.
fn shape(row: &NodeRow) -> Option<&'static str> {
    match row.kind {
        "instantiation" => Some("box"),
        "import" => Some("cds"),
        "definition" => Some("note"),
        _ => None,
    }
}

/// The package of an instance, or the name of an import.
fn item_name(row: &NodeRow) -> Option<&str> {
    match (&row.package, &row.import) {
        (Some(package), _) => Some(package.as_str()),
        (None, Some(import)) => Some(import.as_str()),
        (None, None) => None,
    }
}

/// Appends what stands in a node: its name, and below it its package or its import, if that is called otherwise.
fn push_label(out: &mut String, row: &NodeRow) -> Result<(), AllocError> {
    let name = match &row.name {
        Some(name) => name.as_str(),
        None => "",
    };
    push_quoted(out, name)?;
    match item_name(row) {
        Some(item) if item != name => {
            out.push_str(if name.is_empty() { "" } else { "\\n" })?;
            push_quoted(out, item)
        }
        _ => Ok(()),
    }
}

/// The node at which the edges of a node begin: itself, or the instance that it is an alias of, be it through others.
fn origin(picture: &Picture, node: usize) -> usize {
    let mut at = node;
    for _ in 0..picture.nodes.len() {
        match source_node(picture, at) {
            Some(source) => at = source,
            None => break,
        }
    }
    at
}

/// The instance that a node is an alias of.
fn source_node(picture: &Picture, node: usize) -> Option<usize> {
    match picture.nodes.get(node) {
        Some(row) => match &row.source {
            Some(source) => Some(source.node),
            None => None,
        },
        None => None,
    }
}

/// Appends the edges that lead to an instance, each with the name of its argument.
fn push_arguments(
    out: &mut String,
    picture: &Picture,
    node: usize,
    row: &NodeRow,
) -> Result<(), AllocError> {
    for (name, value) in row.arguments.as_slice() {
        let from = origin(picture, *value);
        write!(out, "  n{from} -> n{node} [label=\"")?;
        push_quoted(out, name.as_str())?;
        out.push_str("\"];\n")?;
    }
    Ok(())
}

/// Appends a node, if it is drawn, and the edges that lead to it.
fn push_node(
    out: &mut String,
    picture: &Picture,
    node: usize,
    row: &NodeRow,
) -> Result<(), AllocError> {
    let Some(shape) = shape(row) else {
        return Ok(());
    };
    write!(out, "  n{node} [shape={shape}, label=\"")?;
    push_label(out, row)?;
    out.push_str("\"];\n")?;
    push_arguments(out, picture, node, row)
}

/// Appends edges from an import to the nodes that ask for it.
fn push_asks(out: &mut String, number: usize, by: &[usize]) -> Result<(), AllocError> {
    for node in by {
        write!(out, "  i{number} -> n{node} [style=dashed];\n")?;
    }
    Ok(())
}

/// Appends what instances leave open.
fn push_open(alloc: Global, out: &mut String, picture: &Picture) -> Result<(), AllocError> {
    let imports = open_imports(alloc, picture)?;
    push_imports(out, &imports)
}

/// Appends the imports that aren't explicit, by their numbers among all.
fn push_imports(
    out: &mut String,
    imports: &IndexMap<String, OpenImport>,
) -> Result<(), AllocError> {
    for (number, (name, import)) in imports.iter().enumerate() {
        if !import.is_explicit {
            write!(out, "  i{number} [shape=cds, style=dashed, label=\"")?;
            push_quoted(out, name.as_str())?;
            out.push_str("\"];\n")?;
            push_asks(out, number, import.by.as_slice())?;
        }
    }
    Ok(())
}

/// Appends what is exported.
fn push_exports(out: &mut String, picture: &Picture) -> Result<(), AllocError> {
    for (number, (name, node)) in picture.exports.as_slice().iter().enumerate() {
        let from = origin(picture, *node);
        write!(out, "  e{number} [shape=cds, style=bold, label=\"")?;
        push_quoted(out, name.as_str())?;
        write!(out, "\"];\n  n{from} -> e{number};\n")?;
    }
    Ok(())
}
