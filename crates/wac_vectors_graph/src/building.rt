//! Building calls that look first whether they may be made, and return the number that they made or changed.
ghost use Rattle.std.specs.Prelude.{◌<◌, IsTrue, IsSome, IfSome, length};
ghost use Rattle.wac_graph.specs.Graph.{parameter_kind};

use crate::fixture::key;
use std::alloc::{AllocError, Global};
use wac_graph::{
    CompositionGraph, ItemKind, NodeId, Package, PackageId, PackageKey, PrimitiveType, ValueType,
};

/// Whether the node is an instantiation that imports the name.
fn has_import(graph: &CompositionGraph, node: NodeId, import: &str) -> bool
    requires { node.0 < length graph.now.nodes }
    ensures { IsTrue result → IsSome (parameter_kind graph.now node.0 import.now) }
{
    match graph.instance_of(node) {
        None => false,
        Some(held) => graph.import_kind(held, import).is_some(),
    }
}

/// The node of a number, if there is one.
pub fn node_at(graph: &CompositionGraph, number: usize) -> Option<NodeId>
    ensures { IfSome result (λ n. n.0 < length graph.now.nodes) }
{
    for id in graph.nodes() {
        if id.0 == number {
            return Some(id);
        }
    }
    None
}

/// The package of a number, if there is one.
pub fn package_at(graph: &CompositionGraph, number: usize) -> Option<PackageId>
    ensures { IfSome result (λ p. p.0 < length graph.now.packages) }
{
    for id in graph.packages() {
        if id.0 == number {
            return Some(id);
        }
    }
    None
}

const BYTE: ItemKind = ItemKind::Value(ValueType::Primitive(PrimitiveType::U8));

fn import(graph: &mut CompositionGraph, name: &str) -> Result<Option<usize>, AllocError> {
    if graph.get_import(name).is_some() {
        return Ok(None);
    }
    Ok(Some(graph.add_import(name, BYTE)?.0))
}

fn define(graph: &mut CompositionGraph, name: &str) -> Result<Option<usize>, AllocError> {
    if graph.get_export(name).is_some() {
        return Ok(None);
    }
    Ok(Some(graph.add_definition(name, BYTE)?.0))
}

fn export(
    graph: &mut CompositionGraph,
    node: usize,
    name: &str,
) -> Result<Option<usize>, AllocError> {
    let Some(id) = node_at(graph, node) else {
        return Ok(None);
    };
    if graph.get_export(name).is_some() {
        return Ok(None);
    }
    graph.add_export(name, id)?;
    Ok(Some(node))
}

pub fn add(
    graph: &mut CompositionGraph,
    key: &PackageKey,
    package: &Package,
) -> Result<Option<usize>, AllocError> {
    if graph.get_package(key).is_some() {
        return Ok(None);
    }
    Ok(Some(graph.add_package(key, package)?.0))
}

fn instantiate(graph: &mut CompositionGraph, package: usize) -> Result<Option<usize>, AllocError> {
    match package_at(graph, package) {
        None => Ok(None),
        Some(id) => Ok(Some(graph.add_instantiation(id)?.0)),
    }
}

fn give(
    graph: &mut CompositionGraph,
    node: usize,
    import: &str,
    value: usize,
) -> Result<Option<usize>, AllocError> {
    let Some(id) = node_at(graph, node) else {
        return Ok(None);
    };
    if value >= id.0 || !has_import(graph, id, import) || graph.argument(id, import).is_some() {
        return Ok(None);
    }
    graph.set_argument(id, import, NodeId(value))?;
    Ok(Some(node))
}

fn alias(
    graph: &mut CompositionGraph,
    node: usize,
    export: &str,
) -> Result<Option<usize>, AllocError> {
    match node_at(graph, node) {
        Some(id) if graph.export_kind(id, export).is_some() => Ok(Some(
            graph.add_alias(id, export)?.0,
        )),
        _ => Ok(None),
    }
}

fn named(
    graph: &mut CompositionGraph,
    node: usize,
    name: &str,
) -> Result<Option<usize>, AllocError> {
    let Some(id) = node_at(graph, node) else {
        return Ok(None);
    };
    if graph.name(id).is_some() {
        return Ok(None);
    }
    graph.set_name(id, name)?;
    Ok(Some(node))
}

/// A building call: what is added or changed.
#[derive(Clone, Copy)]
pub enum Step<'a> {
    Import(&'a str),
    Define(&'a str),
    Export(usize, &'a str),
    /// The package, under this version.
    Add(&'a str),
    Instantiate(usize),
    Give(usize, &'a str, usize),
    Alias(usize, &'a str),
    Name(usize, &'a str),
}

fn add_version(
    alloc: Global,
    graph: &mut CompositionGraph,
    package: &Package,
    version: &str,
) -> Result<Option<usize>, AllocError> {
    let key = key(alloc, "c:d", version)?;
    add(graph, &key, package)
}

/// Takes a step, if it may be taken.
pub fn make(
    alloc: Global,
    graph: &mut CompositionGraph,
    package: &Package,
    step: Step<'_>,
) -> Result<Option<usize>, AllocError> {
    match step {
        Step::Import(name) => import(graph, name),
        Step::Define(name) => define(graph, name),
        Step::Export(node, name) => export(graph, node, name),
        Step::Add(version) => add_version(alloc, graph, package, version),
        Step::Instantiate(package) => instantiate(graph, package),
        Step::Give(node, import, value) => give(graph, node, import, value),
        Step::Alias(node, export) => alias(graph, node, export),
        Step::Name(node, name) => named(graph, node, name),
    }
}

/// Takes the steps, up to one that gives another number than is written beside it; true where there is none.
pub fn make_all(
    alloc: Global,
    graph: &mut CompositionGraph,
    package: &Package,
    steps: &[(Step<'_>, Option<usize>)],
) -> Result<bool, AllocError> {
    for (step, number) in steps {
        if make(alloc, graph, package, *step)? != *number {
            return Ok(false);
        }
    }
    Ok(true)
}
