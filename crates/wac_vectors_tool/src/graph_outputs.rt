//! A graph as it is shown: as lines, as JSON and for Graphviz.

use crate::graph_building::{LINES, built};
use indexmap::IndexMap;
use std::alloc::{AllocError, Global};
use std::process::Abort;
use std::test::Fail;
use wac_graph::CompositionGraph;
use wac_graph_outputs::{Picture, dot, json, text};
use wac_lexer::SourceSpan;

// By hand, of the graph: the second instance is given both imports, the first one `log` alone.
const OPEN: &str = "open x:y/z: instance\n";

const JSON: &str = "{\"nodes\":[\
    {\"id\":0,\"kind\":\"import\",\"name\":\"log\",\"package\":null,\"item\":\"function\",\
    \"span\":{\"offset\":20,\"length\":3},\"import\":\"a:b/log\",\"source\":null,\"arguments\":[]},\
    {\"id\":1,\"kind\":\"instantiation\",\"name\":\"i\",\"package\":\"c:d\",\"item\":\"instance\",\
    \"span\":null,\"import\":null,\"source\":null,\"arguments\":[{\"name\":\"log\",\"value\":0}]},\
    {\"id\":2,\"kind\":\"instantiation\",\"name\":null,\"package\":\"c:d@1.0.0\",\"item\":\"instance\",\
    \"span\":null,\"import\":null,\"source\":null,\
    \"arguments\":[{\"name\":\"x:y/z\",\"value\":1},{\"name\":\"log\",\"value\":0}]},\
    {\"id\":3,\"kind\":\"alias\",\"name\":null,\"package\":null,\"item\":\"function\",\
    \"span\":null,\"import\":null,\"source\":{\"node\":1,\"export\":\"run\"},\"arguments\":[]},\
    {\"id\":4,\"kind\":\"definition\",\"name\":\"u\",\"package\":null,\"item\":\"value type\",\
    \"span\":null,\"import\":null,\"source\":null,\"arguments\":[]},\
    {\"id\":5,\"kind\":\"import\",\"name\":null,\"package\":null,\"item\":\"value\",\
    \"span\":null,\"import\":\"last\",\"source\":null,\"arguments\":[]}],\
    \"exports\":[{\"name\":\"second\",\"node\":2},{\"name\":\"run\",\"node\":3},{\"name\":\"again\",\"node\":3},\
    {\"name\":\"t\",\"node\":4}],\
    \"imports\":[{\"name\":\"a:b/log\",\"kind\":\"function\",\"by\":[0]},\
    {\"name\":\"x:y/z\",\"kind\":\"instance\",\"by\":[1]},{\"name\":\"last\",\"kind\":\"value\",\"by\":[5]}]}";

const DOT: &str =
    "digraph composition {\n  rankdir=LR;\n  node [fontname=\"sans-serif\", margin=\"0.25,0.1\"];\n  \
    edge [fontname=\"sans-serif\", fontsize=10];\n  \
    n0 [shape=cds, label=\"log\\na:b/log\"];\n  \
    n1 [shape=box, label=\"i\\nc:d\"];\n  n0 -> n1 [label=\"log\"];\n  \
    n2 [shape=box, label=\"c:d@1.0.0\"];\n  n1 -> n2 [label=\"x:y/z\"];\n  n0 -> n2 [label=\"log\"];\n  \
    n4 [shape=note, label=\"u\"];\n  \
    n5 [shape=cds, label=\"last\"];\n  \
    i1 [shape=cds, style=dashed, label=\"x:y/z\"];\n  i1 -> n1 [style=dashed];\n  \
    e0 [shape=cds, style=bold, label=\"second\"];\n  n2 -> e0;\n  \
    e1 [shape=cds, style=bold, label=\"run\"];\n  n1 -> e1;\n  \
    e2 [shape=cds, style=bold, label=\"again\"];\n  n1 -> e2;\n  \
    e3 [shape=cds, style=bold, label=\"t\"];\n  n4 -> e3;\n}\n";

/// What is shown of a graph whose document binds `log` at a place.
fn picture(alloc: Global, graph: &CompositionGraph) -> Result<Picture, AllocError> {
    let mut places = IndexMap::new(alloc);
    places.insert(String::from_str(alloc, "log")?, SourceSpan::new(20, 3))?;
    Picture::of(alloc, graph, &places)
}

/// Whether the lines of the graph come first, and then what is left open.
fn are_lines(lines: &str) -> bool {
    match lines.strip_prefix(LINES) {
        Some(rest) => rest == OPEN,
        None => false,
    }
}

/// Asserts what is shown in each form.
fn is_shown(rt: &impl Abort, alloc: Global, graph: &CompositionGraph) -> Result<(), AllocError> {
    let picture = picture(alloc, graph)?;
    let found = text(alloc, &picture)?;
    assert!(rt; are_lines(found.as_str()), "{found}");
    let found = json(alloc, &picture)?;
    assert!(rt; found.as_str() == JSON, "{found}");
    let found = dot(alloc, &picture)?;
    assert!(rt; found.as_str() == DOT, "{found}");
    Ok(())
}

#[test]
fn graphs_are_shown_in_three_forms(rt: HostRuntime) -> Result<(), Fail> {
    let graph = built(rt.alloc())?;
    Ok(is_shown(&rt, rt.alloc(), &graph)?)
}
