//! A graph that a document describes, with two nodes that no document has.
ghost use Rattle.std.specs.Prelude.{◌<◌, IfSome, length};

use crate::documents::{With, composed};
use std::alloc::{AllocError, Global};
use wac_graph::{CompositionGraph, ItemKind, NodeId, PrimitiveType, Type, ValueType};
use wac_resolution::Error;

pub const BYTE: ValueType = ValueType::Primitive(PrimitiveType::U8);

const COMPOSITION: &str =
    "package a:b; import log as \"a:b/log\": func(); let i = new c:d { log, ... }; \
    export new c:d@1.0.0 { \"x:y/z\": i, log } as second; export i.run; export i.run as again;";

/// The lines of the graph.
pub const LINES: &str = "0 import a:b/log: function [log]\n\
    1 new c:d: instance [i]\n  log = 0\n\
    2 new c:d@1.0.0: instance\n  x:y/z = 1\n  log = 0\n\
    3 alias 1 run: function\n\
    4 definition: value type [u]\n\
    5 import last: value\n\
    export second = 2\n\
    export run = 3\n\
    export again = 3\n\
    export t = 4\n";

/// The node of a number, if there is one.
fn node_at(graph: &CompositionGraph, number: usize) -> Option<NodeId>
    ensures { IfSome result (λ n. n.0 < length graph.now.nodes) }
{
    for id in graph.nodes() {
        if id.0 == number {
            return Some(id);
        }
    }
    None
}

fn define(graph: &mut CompositionGraph, name: &str) -> Result<(), AllocError> {
    if graph.get_export(name).is_some() {
        return Ok(());
    }
    graph.add_definition(name, ItemKind::Ty(Type::Value(BYTE)))?;
    Ok(())
}

fn import(graph: &mut CompositionGraph, name: &str) -> Result<(), AllocError> {
    if graph.get_import(name).is_some() {
        return Ok(());
    }
    graph.add_import(name, ItemKind::Value(BYTE))?;
    Ok(())
}

/// Names the node of a number, if there is one without a name.
fn set_name(graph: &mut CompositionGraph, number: usize, name: &str) -> Result<(), AllocError> {
    let Some(id) = node_at(graph, number) else {
        return Ok(());
    };
    if graph.name(id).is_some() {
        return Ok(());
    }
    graph.set_name(id, name)
}

/// Adds a definition with another name than that of its export, and an import without a name.
fn add_nodes(graph: &mut CompositionGraph) -> Result<(), AllocError> {
    define(graph, "t")?;
    set_name(graph, 4, "u")?;
    import(graph, "last")
}

/// A graph with these nodes.
fn completed(mut graph: CompositionGraph) -> Result<CompositionGraph, Error> {
    match add_nodes(&mut graph) {
        Ok(()) => Ok(graph),
        Err(refused) => Err(Error::Memory(refused)),
    }
}

/// The graph.
pub fn built(alloc: Global) -> Result<CompositionGraph, Error> {
    match composed(alloc, With::Packages, COMPOSITION) {
        Ok(graph) => completed(graph),
        Err(error) => Err(error),
    }
}
