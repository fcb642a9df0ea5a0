//! What a document resolves to, as a text.
ghost use Rattle.std.specs.Prelude.{◌<◌, IfSome, length};

use crate::entries::entries;
use indexmap::IndexMap;
use std::alloc::{AllocError, Global};
use wac_graph::{CompositionGraph, ItemKind, PackageId, PackageKey, Type, World};
use wac_lexer::Bytes;
use wac_resolution::Error;
use wac_tool_graphs::write_graph;

/// What a row says of its document.
#[derive(Clone, Copy)]
pub enum Asked {
    /// The lines of the graph; or where the error lies, what it says, and all its fields.
    Answer,
    /// The entries of the table of the graph.
    Entries,
    /// What the world `w` uses, imports and exports.
    World,
    /// The keys of the packages of the graph.
    Packages,
    /// Whether what is exported as `x` and as `y` means the same.
    Same,
}

/// The lines of a graph.
fn lines(alloc: Global, graph: &CompositionGraph) -> Result<String, AllocError> {
    let mut out = Bytes::new(alloc);
    if write_graph(graph, &mut out).is_err() {
        return Err(AllocError);
    }
    match String::from_utf8(out.into_vec()) {
        Ok(text) => Ok(text),
        Err(_) => String::from_str(alloc, "the lines are not UTF-8"),
    }
}

/// The world that is exported as `w`.
fn world(graph: &CompositionGraph) -> Option<&World> {
    match graph.kind(graph.get_export("w")?) {
        ItemKind::Ty(Type::World(id)) => graph.types().world(id),
        _ => None,
    }
}

fn push_items(
    text: &mut String,
    word: &str,
    items: &IndexMap<String, ItemKind>,
) -> Result<(), AllocError> {
    for (name, kind) in items.iter() {
        writeln!(text, "{word} {name}: {}", kind.desc())?;
    }
    Ok(())
}

fn push_uses(text: &mut String, world: &World) -> Result<(), AllocError> {
    for (name, _) in world.uses.iter() {
        writeln!(text, "use {name}")?;
    }
    Ok(())
}

/// A line for each use, each import and each export of the world `w`.
fn world_lines(alloc: Global, graph: &CompositionGraph) -> Result<String, AllocError> {
    let mut text = String::new(alloc);
    if let Some(world) = world(graph) {
        push_uses(&mut text, world)?;
        push_items(&mut text, "import", &world.imports)?;
        push_items(&mut text, "export", &world.exports)?;
    }
    Ok(text)
}

fn push_key(text: &mut String, key: &PackageKey) -> Result<(), AllocError> {
    match &key.version {
        None => writeln!(text, "{}", key.name),
        Some(version) => writeln!(text, "{}@{version}", key.name),
    }
}

/// The package of a number, if there is one.
fn package_at(graph: &CompositionGraph, number: usize) -> Option<PackageId>
    ensures { IfSome result (λ p. p.0 < length graph.now.packages) }
{
    for id in graph.packages() {
        if id.0 == number {
            return Some(id);
        }
    }
    None
}

fn push_package(
    text: &mut String,
    graph: &CompositionGraph,
    number: usize,
) -> Result<(), AllocError> {
    let Some(id) = package_at(graph, number) else {
        return Ok(());
    };
    push_key(text, graph.package(id).key)
}

/// A line for the key of each package.
fn keys(alloc: Global, graph: &CompositionGraph) -> Result<String, AllocError> {
    let mut text = String::new(alloc);
    for id in graph.packages() {
        push_package(&mut text, graph, id.0)?;
    }
    Ok(text)
}

/// Whether `x` and `y` mean the same.
fn same(graph: &CompositionGraph) -> Option<bool> {
    let a = graph.kind(graph.get_export("x")?);
    let b = graph.kind(graph.get_export("y")?);
    Some(graph.types().same(a, b))
}

/// What is asked of a graph.
fn reading(alloc: Global, asked: Asked, graph: &CompositionGraph) -> Result<String, AllocError> {
    match asked {
        Asked::Answer => lines(alloc, graph),
        Asked::Entries => entries(alloc, graph.types()),
        Asked::World => world_lines(alloc, graph),
        Asked::Packages => keys(alloc, graph),
        Asked::Same => match same(graph) {
            Some(true) => String::from_str(alloc, "same"),
            Some(false) => String::from_str(alloc, "different"),
            None => String::from_str(alloc, "missing"),
        },
    }
}

/// Where an error lies and what it says, and all its fields.
fn message(alloc: Global, error: &Error) -> Result<String, AllocError> {
    match error.span() {
        Some(span) => format!(in alloc; "{}+{}: {error}\n{error:?}", span.offset(), span.len()),
        None => format!(in alloc; "{error}\n{error:?}"),
    }
}

/// What is asked of a document with this graph or error.
pub fn told(
    alloc: Global,
    asked: Asked,
    composed: Result<CompositionGraph, Error>,
) -> Result<String, AllocError> {
    match composed {
        Ok(graph) => reading(alloc, asked, &graph),
        Err(Error::Memory(error)) => Err(error),
        Err(error) => message(alloc, &error),
    }
}
