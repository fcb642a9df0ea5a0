//! Readings of a graph as texts, and by number and name.

use crate::building::{node_at, package_at};
use crate::fixture::key;
use std::alloc::{AllocError, Global};
use wac_graph::{
    CompositionGraph, DefinedTypeId, FuncTypeId, InterfaceId, ItemKind, Names, NodeId, NodeKind,
    PackageId, ResourceId, Types, WorldId,
};

/// What a node is, in a word.
fn form(node: &NodeKind) -> &'static str {
    match node {
        NodeKind::Import(_) => "import",
        NodeKind::Definition => "definition",
        NodeKind::Alias => "alias",
        NodeKind::Instantiation(_) => "instantiation",
    }
}

/// Names with their nodes' numbers, as `a=0 b=1 `.
fn listed<'a>(alloc: Global, names: Names<'a>) -> Result<String, AllocError> {
    let mut text = String::new(alloc);
    for (name, node) in names {
        write!(text, "{name}={} ", node.0)?;
    }
    Ok(text)
}

/// What is read of a node, in a line.
fn push_node(
    alloc: Global,
    text: &mut String,
    graph: &CompositionGraph,
    number: usize,
) -> Result<(), AllocError> {
    let Some(id) = node_at(graph, number) else {
        return Ok(());
    };
    let arguments = listed(alloc, graph.arguments(id))?;
    writeln!(
        text,
        "{} {} {:?} {:?} {:?} {arguments}",
        form(graph.node(id)),
        graph.kind(id).desc(),
        graph.import_name(id),
        graph.alias_source(id),
        graph.name(id)
    )?;
    Ok(())
}

/// What the graph holds of a package, in a line.
fn push_package(
    text: &mut String,
    graph: &CompositionGraph,
    number: usize,
) -> Result<(), AllocError> {
    let Some(id) = package_at(graph, number) else {
        return Ok(());
    };
    let held = graph.package(id);
    write!(text, "{} {:?} ", held.key.name, held.key.version)?;
    write!(
        text,
        "{}+{} {} {}",
        held.first, held.size, held.world.0, held.instance.0
    )?;
    for (name, kind) in held.definitions.iter() {
        write!(text, " {name}={kind:?}")?;
    }
    text.push_str("\n")?;
    Ok(())
}

fn push_nodes(
    alloc: Global,
    text: &mut String,
    graph: &CompositionGraph,
) -> Result<(), AllocError> {
    for id in graph.nodes() {
        push_node(alloc, text, graph, id.0)?;
    }
    Ok(())
}

fn push_packages(text: &mut String, graph: &CompositionGraph) -> Result<(), AllocError> {
    for id in graph.packages() {
        push_package(text, graph, id.0)?;
    }
    Ok(())
}

/// All that a graph holds apart from its types: nodes, imports, exports and then packages.
pub fn shown(alloc: Global, graph: &CompositionGraph) -> Result<String, AllocError> {
    let imports = listed(alloc, graph.imports())?;
    let exports = listed(alloc, graph.exports())?;
    let mut text = format!(in alloc; "{imports}\n{exports}\n")?;
    push_nodes(alloc, &mut text, graph)?;
    push_packages(&mut text, graph)?;
    Ok(text)
}

/// A node or a package that is read by name.
#[derive(Clone, Copy)]
pub enum Asked<'a> {
    Import(&'a str),
    Export(&'a str),
    /// The node that was given to a node for an import.
    Argument(usize, &'a str),
    /// The package that a node is an instance of.
    Instance(usize),
}

fn number(id: Option<NodeId>) -> Option<usize> {
    let id = id?;
    Some(id.0)
}

fn argument(graph: &CompositionGraph, node: usize, name: &str) -> Option<usize> {
    let id = node_at(graph, node)?;
    number(graph.argument(id, name))
}

fn instance(graph: &CompositionGraph, node: usize) -> Option<usize> {
    let id = node_at(graph, node)?;
    let package = graph.instance_of(id)?;
    Some(package.0)
}

pub fn found(graph: &CompositionGraph, asked: Asked<'_>) -> Option<usize> {
    match asked {
        Asked::Import(name) => number(graph.get_import(name)),
        Asked::Export(name) => number(graph.get_export(name)),
        Asked::Argument(node, name) => argument(graph, node, name),
        Asked::Instance(node) => instance(graph, node),
    }
}

/// A kind that is read by name.
#[derive(Clone, Copy)]
pub enum Named<'a> {
    /// What a node exports.
    Export(usize, &'a str),
    /// What a package imports.
    Import(usize, &'a str),
    /// What a package's world exports.
    OfWorld(usize, &'a str),
}

pub fn kind(graph: &CompositionGraph, named: Named<'_>) -> Option<&'static str> {
    match named {
        Named::Export(node, name) => Some(graph.export_kind(node_at(graph, node)?, name)?.desc()),
        Named::Import(package, name) => {
            Some(graph.import_kind(package_at(graph, package)?, name)?.desc())
        }
        Named::OfWorld(package, name) => world_export(graph, package, name),
    }
}

fn world_export(graph: &CompositionGraph, number: usize, name: &str) -> Option<&'static str> {
    let world = graph.package(package_at(graph, number)?).world;
    Some(graph.export(ItemKind::Component(world), name)?.desc())
}

/// The package of a name and a version.
pub fn package_of(
    alloc: Global,
    graph: &CompositionGraph,
    name: &str,
    version: &str,
) -> Result<Option<PackageId>, AllocError> {
    let key = key(alloc, name, version)?;
    Ok(graph.get_package(&key))
}

/// The names of a package's first imports, as `log x:y/z `.
pub fn parameters(
    alloc: Global,
    graph: &CompositionGraph,
    number: usize,
) -> Result<String, AllocError> {
    let mut text = String::new(alloc);
    let Some(id) = package_at(graph, number) else {
        return Ok(text);
    };
    for at in 0..3 {
        if let Some(name) = graph.parameter_name(id, at)? {
            write!(text, "{name} ")?;
        }
    }
    Ok(text)
}

/// The name of an export of a package's instances, by its place.
pub fn export_name(
    graph: &CompositionGraph,
    number: usize,
    at: usize,
) -> Result<Option<String>, AllocError> {
    let Some(id) = package_at(graph, number) else {
        return Ok(None);
    };
    let instance = ItemKind::Instance(graph.package(id).instance);
    graph.export_name(instance, at)
}

/// Whether two packages' worlds mean the same.
pub fn same_worlds(graph: &CompositionGraph, first: usize, second: usize) -> Option<bool> {
    let a = graph.package(package_at(graph, first)?).world;
    let b = graph.package(package_at(graph, second)?).world;
    let types = graph.types();
    Some(types.same(ItemKind::Component(a), ItemKind::Component(b)))
}

/// Whether the table has an entry of each sort, in this order.
pub fn has_each(types: &Types) -> bool {
    types.resource(ResourceId(0)).is_some()
        && types.defined_type(DefinedTypeId(1)).is_some()
        && types.func_type(FuncTypeId(2)).is_some()
        && types.interface(InterfaceId(3)).is_some()
        && types.world(WorldId(4)).is_some()
}
