//! Pairs of kinds that a document declares, and what the rules say of them.

ghost use Rattle.std.specs.Prelude.{◌<◌, IfSome, length};
ghost use Rattle.wac_graph_types.specs.Table.{Names};

use indexmap::IndexMap;
use std::alloc::{AllocError, Global};
use std::process::Abort;
use std::test::Fail;
use wac_ast::Document;
use wac_component_rules::{ComponentRules, mismatch};
use wac_graph::{CompositionGraph, ItemKind, NodeId, Rules};
use wac_resolution::AstResolver;

/// What is compared of the definitions `a` and `b`.
#[derive(Clone, Copy)]
pub enum Of {
    /// The types.
    Types,
    /// What is of the types: functions, instances, components.
    Items,
}

/// The statements that declare `a` and `b`, and where the first one doesn't fit the second. The text is empty where it
/// fits.
pub type Row = (Of, &'static str, &'static str);

/// What a document describes, if it describes anything.
fn described(alloc: Global, resolver: AstResolver<'_, '_>) -> Option<CompositionGraph> {
    match resolver.resolve(alloc, IndexMap::new(alloc), &ComponentRules::new(alloc)) {
        Err(_) => None,
        Ok(resolution) => Some(resolution.into_graph()),
    }
}

/// The graph of the document of a text, if it has one.
fn declared(alloc: Global, text: &str) -> Option<CompositionGraph> {
    match Document::parse(alloc, text) {
        Err(_) => None,
        Ok(document) => described(alloc, AstResolver::new(&document)),
    }
}

/// The node with a name, if there is one.
fn node_named(graph: &CompositionGraph, name: &str) -> Option<NodeId>
    ensures { IfSome result (λ n. n.0 < length graph.now.nodes) }
{
    for node in graph.nodes() {
        if graph.name(node) == Some(name) {
            return Some(node);
        }
    }
    None
}

/// What is compared of a node.
#[tactic(auto, using(wac_resolution_errors::proofs::Promoted::promoted_named))]
fn kind_of(graph: &CompositionGraph, node: NodeId, of: Of) -> ItemKind
    requires { node.0 < length graph.now.nodes }
    ensures { Names graph.now.types result }
{
    let kind = graph.kind(node);
    match of {
        Of::Types => kind,
        Of::Items => kind.promote(),
    }
}

/// Where the first of two nodes doesn't fit the second: an empty text where it fits.
fn compared(
    alloc: Global,
    graph: &CompositionGraph,
    of: Of,
    nodes: (NodeId, NodeId),
) -> Result<String, AllocError>
    requires first { nodes.0.0 < length graph.now.nodes }
    requires second { nodes.1.0 < length graph.now.nodes }
{
    let a = kind_of(graph, nodes.0, of);
    let b = kind_of(graph, nodes.1, of);
    let types = graph.types();
    let fits = ComponentRules::new(alloc).subtype(types, a, b).is_ok();
    match mismatch(alloc, types, a, b)? {
        None if fits => Ok(String::new(alloc)),
        Some(found) if !fits => found.to_string(alloc),
        _ => String::from_str(alloc, "the two calls disagree"),
    }
}

/// What the rules say of the pair in a document: an empty text where it fits.
fn told(alloc: Global, of: Of, text: &str) -> Result<String, AllocError> {
    let Some(graph) = declared(alloc, text) else {
        return String::from_str(alloc, "no graph");
    };
    match (node_named(&graph, "a"), node_named(&graph, "b")) {
        (Some(a), Some(b)) => compared(alloc, &graph, of, (a, b)),
        _ => String::from_str(alloc, "no pair"),
    }
}

/// Each row holds.
pub fn hold(rt: &impl Abort, alloc: Global, rows: &[Row]) -> Result<(), Fail> {
    for (of, text, expected) in rows {
        let whole = format!(in alloc; "package t:t; {text}")?;
        let found = told(alloc, *of, whole.as_str())?;
        assert!(rt; found.as_str() == *expected, "of {text}: {found}");
    }
    Ok(())
}
