//! A graph as lines.

use crate::open::{OpenImport, open_imports};
use crate::picture::Picture;
use crate::rows::NodeRow;
use indexmap::IndexMap;
use std::alloc::{AllocError, Global};
use wac_excerpts::push_shown;

/// The lines of `wac resolve`, and after them a line `open NAME: KIND` for each import that instances leave open. A name
/// stays on its line: what a terminal could take for a command is U+FFFD.
pub fn text(alloc: Global, picture: &Picture) -> Result<String, AllocError> {
    let mut out = String::new(alloc);
    push_graph(alloc, &mut out, picture)?;
    Ok(out)
}

/// Appends the lines of nodes, of exports and of what is left open.
fn push_graph(alloc: Global, out: &mut String, picture: &Picture) -> Result<(), AllocError> {
    for (node, row) in picture.nodes.as_slice().iter().enumerate() {
        push_node(out, node, row)?;
    }
    push_names(out, "export ", picture.exports.as_slice())?;
    push_open(alloc, out, picture)
}

/// Appends the line of a node, and a line for each of its arguments.
fn push_node(out: &mut String, node: usize, row: &NodeRow) -> Result<(), AllocError> {
    write!(out, "{node} ")?;
    push_form(out, row)?;
    write!(out, ": {}", row.item)?;
    push_bound(out, &row.name)?;
    push_names(out, "  ", row.arguments.as_slice())
}

/// Appends what a node is, and of what.
fn push_form(out: &mut String, row: &NodeRow) -> Result<(), AllocError> {
    match (&row.import, &row.source, &row.package) {
        (Some(import), _, _) => {
            out.push_str("import ")?;
            push_shown(out, import.as_str())
        }
        (None, Some(source), _) => {
            write!(out, "alias {} ", source.node)?;
            push_shown(out, source.export.as_str())
        }
        (None, None, Some(package)) => {
            out.push_str("new ")?;
            push_shown(out, package.as_str())
        }
        (None, None, None) => out.push_str(row.kind),
    }
}

/// Appends the name that is bound to a node, and ends its line.
fn push_bound(out: &mut String, name: &Option<String>) -> Result<(), AllocError> {
    match name {
        None => out.push('\n'),
        Some(name) => {
            out.push_str(" [")?;
            push_shown(out, name.as_str())?;
            out.push_str("]\n")
        }
    }
}

/// Appends a line for each name: what comes before it, the name, and its node's number.
fn push_names(out: &mut String, before: &str, names: &[(String, usize)]) -> Result<(), AllocError> {
    for (name, node) in names {
        out.push_str(before)?;
        push_shown(out, name.as_str())?;
        write!(out, " = {node}\n")?;
    }
    Ok(())
}

/// Appends the lines of what instances leave open.
fn push_open(alloc: Global, out: &mut String, picture: &Picture) -> Result<(), AllocError> {
    let imports = open_imports(alloc, picture)?;
    push_imports(out, &imports)
}

/// Appends a line for each import that instances leave open.
fn push_imports(
    out: &mut String,
    imports: &IndexMap<String, OpenImport>,
) -> Result<(), AllocError> {
    for (name, import) in imports.iter() {
        if !import.is_explicit {
            out.push_str("open ")?;
            push_shown(out, name.as_str())?;
            write!(out, ": {}\n", import.kind)?;
        }
    }
    Ok(())
}
