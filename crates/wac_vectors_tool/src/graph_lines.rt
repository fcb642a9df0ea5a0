//! The lines of a graph, and sinks that fail.

use crate::graph_building::{LINES, built};
use std::alloc::{AllocError, Global};
use std::test::Fail;
use wac_graph::CompositionGraph;
use wac_lexer::Out;
use wac_tool_graphs::{OutputFailed, write_graph};

/// Whether as much is written as there is room for, and what doesn't fit is returned as an error.
fn is_written(alloc: Global, graph: &CompositionGraph, room: usize) -> Result<bool, AllocError> {
    let mut bytes = vec![in alloc; 0; room]?;
    let mut out = Out::new(bytes.as_mut_slice());
    let result = write_graph(graph, &mut out);
    let written = LINES.len().min(room);
    let wanted = if room < LINES.len() {
        Err(OutputFailed)
    } else {
        Ok(())
    };
    Ok(result == wanted && bytes[..written] == LINES.as_bytes()[..written])
}

/// The first room for which this isn't so.
fn first_wrong(alloc: Global, graph: &CompositionGraph) -> Result<Option<usize>, AllocError> {
    for room in 0..LINES.len() + 2 {
        if !is_written(alloc, graph, room)? {
            return Ok(Some(room));
        }
    }
    Ok(None)
}

/// A sink may fail at each byte.
#[test]
fn writes_each_node_and_export(rt: HostRuntime) -> Result<(), Fail> {
    let graph = built(rt.alloc())?;
    let wrong = first_wrong(rt.alloc(), &graph)?;
    assert!(rt; wrong.is_none(), "at {wrong:?}");
    Ok(())
}

#[test]
fn writes_nothing_of_an_empty_graph(rt: HostRuntime) {
    let graph = CompositionGraph::new(rt.alloc());
    let mut full: [u8; 0] = [];
    let mut out = Out::new(full.as_mut_slice());
    assert!(rt; write_graph(&graph, &mut out) == Ok(()), "nothing");
}
