//! A graph as JSON.

use crate::open::{OpenImport, open_imports};
use crate::picture::Picture;
use crate::rows::NodeRow;
use indexmap::IndexMap;
use serde_json::Value;
use std::alloc::{AllocError, Global};
use wac_lexer::SourceSpan;

/// A graph as one JSON object on a line, without the end of that line. docs/GRAPH.md has its schema.
///
/// ```text
/// {"nodes":[{"id":0,"kind":"import","name":"log","package":null,"item":"function","span":{"offset":20,"length":3},
/// "import":"log","source":null,"arguments":[]}],"exports":[{"name":"y","node":0}],
/// "imports":[{"name":"log","kind":"function","by":[0]}]}
/// ```
pub fn json(alloc: Global, picture: &Picture) -> Result<String, AllocError> {
    let mut out = String::new(alloc);
    push_graph(alloc, &mut out, picture)?;
    Ok(out)
}

/// Appends a graph.
fn push_graph(alloc: Global, out: &mut String, picture: &Picture) -> Result<(), AllocError> {
    out.push_str("{\"nodes\":[")?;
    push_nodes(alloc, out, picture.nodes.as_slice())?;
    out.push_str("],\"exports\":")?;
    push_pairs(alloc, out, picture.exports.as_slice(), "node")?;
    push_imports(alloc, out, picture)?;
    out.push('}')
}

/// Appends nodes, with commas between them.
fn push_nodes(alloc: Global, out: &mut String, rows: &[NodeRow]) -> Result<(), AllocError> {
    for (node, row) in rows.iter().enumerate() {
        if node > 0 {
            out.push(',')?;
        }
        push_node(alloc, out, node, row)?;
    }
    Ok(())
}

/// Appends a text as a JSON string.
fn push_text(alloc: Global, out: &mut String, text: &str) -> Result<(), AllocError> {
    let value = Value::String(String::from_str(alloc, text)?);
    out.push_str(&value.to_string(alloc)?)
}

/// Appends a key and a text, or null.
fn push_optional(
    alloc: Global,
    out: &mut String,
    key: &str,
    text: &Option<String>,
) -> Result<(), AllocError> {
    out.push_str(key)?;
    match text {
        Some(text) => push_text(alloc, out, text.as_str()),
        None => out.push_str("null"),
    }
}

/// Appends a place.
fn push_place(out: &mut String, place: Option<SourceSpan>) -> Result<(), AllocError> {
    match place {
        None => out.push_str(",\"span\":null"),
        Some(span) => write!(
            out,
            ",\"span\":{{\"offset\":{},\"length\":{}}}",
            span.offset(),
            span.len()
        ),
    }
}

/// Appends what an alias is of.
fn push_source(alloc: Global, out: &mut String, row: &NodeRow) -> Result<(), AllocError> {
    match &row.source {
        None => out.push_str(",\"source\":null"),
        Some(source) => {
            write!(out, ",\"source\":{{\"node\":{},\"export\":", source.node)?;
            push_text(alloc, out, source.export.as_str())?;
            out.push('}')
        }
    }
}

/// Appends names with numbers of nodes, which stand under a key.
fn push_pairs(
    alloc: Global,
    out: &mut String,
    pairs: &[(String, usize)],
    key: &str,
) -> Result<(), AllocError> {
    out.push('[')?;
    for (number, (name, node)) in pairs.iter().enumerate() {
        out.push_str(if number > 0 {
            ",{\"name\":"
        } else {
            "{\"name\":"
        })?;
        push_text(alloc, out, name.as_str())?;
        write!(out, ",\"{key}\":{node}}}")?;
    }
    out.push(']')
}

/// Appends a node.
fn push_node(
    alloc: Global,
    out: &mut String,
    node: usize,
    row: &NodeRow,
) -> Result<(), AllocError> {
    write!(out, "{{\"id\":{node},\"kind\":")?;
    push_text(alloc, out, row.kind)?;
    push_optional(alloc, out, ",\"name\":", &row.name)?;
    push_optional(alloc, out, ",\"package\":", &row.package)?;
    out.push_str(",\"item\":")?;
    push_text(alloc, out, row.item)?;
    push_place(out, row.place)?;
    push_optional(alloc, out, ",\"import\":", &row.import)?;
    push_source(alloc, out, row)?;
    out.push_str(",\"arguments\":")?;
    push_pairs(alloc, out, row.arguments.as_slice(), "value")?;
    out.push('}')
}

/// Appends numbers, with commas between them.
fn push_numbers(out: &mut String, numbers: &[usize]) -> Result<(), AllocError> {
    for (at, number) in numbers.iter().enumerate() {
        if at > 0 {
            out.push(',')?;
        }
        write!(out, "{number}")?;
    }
    Ok(())
}

/// Appends what the composition still asks for.
fn push_imports(alloc: Global, out: &mut String, picture: &Picture) -> Result<(), AllocError> {
    let imports = open_imports(alloc, picture)?;
    push_each_import(alloc, out, &imports)
}

/// Appends imports.
fn push_each_import(
    alloc: Global,
    out: &mut String,
    imports: &IndexMap<String, OpenImport>,
) -> Result<(), AllocError> {
    out.push_str(",\"imports\":[")?;
    for (at, (name, import)) in imports.iter().enumerate() {
        if at > 0 {
            out.push(',')?;
        }
        push_import(alloc, out, name.as_str(), import)?;
    }
    out.push(']')
}

/// Appends an import.
fn push_import(
    alloc: Global,
    out: &mut String,
    name: &str,
    import: &OpenImport,
) -> Result<(), AllocError> {
    out.push_str("{\"name\":")?;
    push_text(alloc, out, name)?;
    out.push_str(",\"kind\":")?;
    push_text(alloc, out, import.kind)?;
    out.push_str(",\"by\":[")?;
    push_numbers(out, import.by.as_slice())?;
    out.push_str("]}")
}
