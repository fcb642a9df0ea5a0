//! Tests of what no contract says: that calls succeed, and what the lists look like from outside.

use crate::building::{Step, make, make_all};
use crate::fixture::component;
use crate::reading::{
    Asked, Named, export_name, found, has_each, kind, package_of, parameters, same_worlds, shown,
};
use indexmap::IndexMap;
use std::alloc::{AllocError, Global};
use std::test::Fail;
use wac_graph::{
    CompositionGraph, DefinedType, FuncResults, FuncType, Interface, Package, PackageError,
    PackageId, PrimitiveType, Resource, ValueType, World,
};

/// A call, and the number of what it adds or changes; none where it may not be made.
type Call = (Step<'static>, Option<usize>);

static COMPOSING: [Call; 32] = [
    (Step::Import("a"), Some(0)),
    (Step::Import("b"), Some(1)),
    (Step::Import("a"), None),
    (Step::Add("1.0.0"), Some(0)),
    (Step::Add("1.0.1"), Some(1)),
    (Step::Add("1.0.0"), None),
    (Step::Instantiate(0), Some(2)),
    (Step::Instantiate(1), Some(3)),
    (Step::Instantiate(2), None),
    (Step::Define("t"), Some(4)),
    (Step::Define("u"), Some(5)),
    (Step::Define("t"), None),
    (Step::Export(0, "x"), Some(0)),
    (Step::Export(0, "y"), Some(0)),
    (Step::Export(1, "y"), None),
    (Step::Export(9, "z"), None),
    // The second import first, and then the first one.
    (Step::Give(2, "x:y/z", 1), Some(2)),
    (Step::Give(2, "log", 0), Some(2)),
    (Step::Give(2, "log", 1), None),
    (Step::Give(2, "run", 1), None),
    (Step::Give(3, "log", 3), None),
    (Step::Give(3, "log", 2), Some(3)),
    (Step::Give(0, "log", 0), None),
    (Step::Alias(2, "run"), Some(6)),
    (Step::Alias(3, "run"), Some(7)),
    (Step::Alias(2, "run"), Some(6)),
    (Step::Alias(2, "log"), None),
    (Step::Alias(0, "run"), None),
    (Step::Name(1, "n"), Some(1)),
    (Step::Name(2, "n"), Some(2)),
    (Step::Name(1, "m"), None),
    (Step::Name(9, "n"), None),
];

/// What the steps make: imports, exports, each node, and each package.
const COMPOSED: &str = "a=0 b=1 \n\
    t=4 u=5 x=0 y=0 \n\
    import value Some(\"a\") None None \n\
    import value Some(\"b\") None Some(\"n\") \n\
    instantiation instance None None Some(\"n\") x:y/z=1 log=0 \n\
    instantiation instance None None None log=2 \n\
    definition value None None None \n\
    definition value None None None \n\
    alias function None Some((NodeId(2), \"run\")) None \n\
    alias function None Some((NodeId(3), \"run\")) None \n\
    c:d Some(\"1.0.0\") 0+11 10 9 w=Ty(World(WorldId(10)))\n\
    c:d Some(\"1.0.1\") 11+11 21 20 w=Ty(World(WorldId(21)))\n";

fn compose(alloc: Global, graph: &mut CompositionGraph) -> Result<bool, PackageError> {
    let package = component(alloc)?;
    Ok(make_all(alloc, graph, &package, &COMPOSING)?)
}

/// Whether what is read of a composed graph is what was put in.
fn is_composed(alloc: Global, graph: &CompositionGraph) -> Result<bool, AllocError> {
    let text = shown(alloc, graph)?;
    Ok(text.as_str() == COMPOSED)
}

/// Whether a world means what it does itself, and each copy has resources of its own.
fn has_copies(graph: &CompositionGraph) -> bool {
    same_worlds(graph, 0, 0) == Some(true)
        && same_worlds(graph, 0, 1) == Some(false)
        && same_worlds(graph, 0, 2).is_none()
}

#[test]
fn composes(rt: HostRuntime) -> Result<(), Fail> {
    let mut graph = CompositionGraph::new(rt.alloc());
    assert!(rt; compose(rt.alloc(), &mut graph)?);
    assert!(rt; is_composed(rt.alloc(), &graph)?);
    assert!(rt; has_copies(&graph));
    Ok(())
}

type Lookup = (Asked<'static>, Option<usize>);

static NODES: [Lookup; 6] = [
    (Asked::Import("a"), Some(0)),
    (Asked::Import("b"), Some(1)),
    (Asked::Import("x"), None),
    (Asked::Export("u"), Some(5)),
    (Asked::Export("y"), Some(0)),
    (Asked::Export("a"), None),
];

static INSTANCES: [Lookup; 8] = [
    (Asked::Argument(2, "log"), Some(0)),
    (Asked::Argument(3, "log"), Some(2)),
    (Asked::Argument(3, "x:y/z"), None),
    (Asked::Argument(0, "log"), None),
    (Asked::Instance(2), Some(0)),
    (Asked::Instance(3), Some(1)),
    (Asked::Instance(0), None),
    (Asked::Instance(8), None),
];

/// Whether each name finds the number that is written beside it.
fn finds_nodes(graph: &CompositionGraph, rows: &[Lookup]) -> bool {
    for (asked, number) in rows {
        if found(graph, *asked) != *number {
            return false;
        }
    }
    true
}

const FUNCTION: Option<&str> = Some("function");

type Kind = (Named<'static>, Option<&'static str>);

static KINDS: [Kind; 9] = [
    (Named::Export(2, "run"), FUNCTION),
    (Named::Export(3, "log"), None),
    (Named::Export(0, "run"), None),
    (Named::Import(1, "log"), FUNCTION),
    (Named::Import(1, "x:y/z"), Some("instance")),
    (Named::Import(0, "run"), None),
    (Named::OfWorld(0, "run"), FUNCTION),
    (Named::OfWorld(1, "log"), None),
    (Named::OfWorld(2, "run"), None),
];

/// Whether each name finds a kind that is called what is written beside it.
fn finds_kinds(graph: &CompositionGraph, rows: &[Kind]) -> bool {
    for (named, desc) in rows {
        if kind(graph, *named) != *desc {
            return false;
        }
    }
    true
}

/// The package under these names and versions.
static KEYS: [(&str, &str, Option<PackageId>); 4] = [
    ("c:d", "1.0.0", Some(PackageId(0))),
    ("c:d", "1.0.1", Some(PackageId(1))),
    ("c:d", "1.0", None),
    ("c:e", "1.0.0", None),
];

/// Whether each name and version find the package that is written beside them.
fn finds_packages(
    alloc: Global,
    graph: &CompositionGraph,
    rows: &[(&str, &str, Option<PackageId>)],
) -> Result<bool, AllocError> {
    for (name, version, id) in rows {
        if package_of(alloc, graph, name, version)? != *id {
            return Ok(false);
        }
    }
    Ok(true)
}

#[test]
fn finds_by_name(rt: HostRuntime) -> Result<(), Fail> {
    let mut graph = CompositionGraph::new(rt.alloc());
    compose(rt.alloc(), &mut graph)?;
    assert!(rt; finds_nodes(&graph, &NODES));
    assert!(rt; finds_nodes(&graph, &INSTANCES));
    assert!(rt; finds_kinds(&graph, &KINDS));
    assert!(rt; finds_packages(rt.alloc(), &graph, &KEYS)?);
    Ok(())
}

/// Whether the second package has these first imports and one export.
fn has_names(alloc: Global, graph: &CompositionGraph) -> Result<bool, AllocError> {
    let one = export_name(graph, 1, 1)?.is_none();
    let text = parameters(alloc, graph, 1)?;
    Ok(one && text.as_str() == "log x:y/z ")
}

/// Adds the alias of an export whose name is read of a package; it is passed to a call that changes the graph.
fn add_alias_by_name(
    alloc: Global,
    graph: &mut CompositionGraph,
    package: &Package,
) -> Result<Option<usize>, AllocError> {
    match export_name(graph, 1, 0)? {
        Some(name) => make(alloc, graph, package, Step::Alias(3, name.as_str())),
        None => Ok(None),
    }
}

fn alias_by_name(
    alloc: Global,
    graph: &mut CompositionGraph,
) -> Result<Option<usize>, PackageError> {
    let package = component(alloc)?;
    Ok(add_alias_by_name(alloc, graph, &package)?)
}

/// Whether the names of a composition, made in an empty graph, are read, and one of them names an alias.
fn names_are_read(alloc: Global, graph: &mut CompositionGraph) -> Result<bool, PackageError> {
    compose(alloc, graph)?;
    Ok(has_names(alloc, graph)? && alias_by_name(alloc, graph)? == Some(7))
}

#[test]
fn reads_names(rt: HostRuntime) -> Result<(), Fail> {
    let mut graph = CompositionGraph::new(rt.alloc());
    assert!(rt; names_are_read(rt.alloc(), &mut graph)?);
    Ok(())
}

/// A composed graph, a package to add to it, and what it holds as text.
#[derive(Drop)]
struct Filled {
    graph: CompositionGraph,
    package: Package,
    held: String,
}

/// Composes, and keeps what the graph then holds as text.
fn fill(alloc: Global, all: &mut Filled) -> Result<(), PackageError> {
    compose(alloc, &mut all.graph)?;
    all.held = shown(alloc, &all.graph)?;
    Ok(())
}

fn make_filled(alloc: Global) -> Result<Filled, PackageError> {
    let package = component(alloc)?;
    let mut all = Filled {
        graph: CompositionGraph::new(alloc),
        package,
        held: String::new(alloc),
    };
    match fill(alloc, &mut all) {
        Ok(()) => Ok(all),
        Err(error) => Err(error),
    }
}

/// What a graph holds as text, read a second time where memory ran out.
fn shown_again(alloc: Global, graph: &CompositionGraph) -> Result<String, AllocError> {
    match shown(alloc, graph) {
        Ok(text) => Ok(text),
        Err(_) => shown(alloc, graph),
    }
}

/// Takes a step, a second time where memory ran out and the graph holds what it held; else it gives no number.
fn make_again(
    alloc: Global,
    all: &mut Filled,
    step: Step<'_>,
) -> Result<Option<usize>, AllocError> {
    match make(alloc, &mut all.graph, &all.package, step) {
        Ok(number) => Ok(number),
        Err(_) => {
            let left = shown(alloc, &all.graph)?;
            if left.as_str() != all.held.as_str() {
                return Ok(None);
            }
            make(alloc, &mut all.graph, &all.package, step)
        }
    }
}

/// Calls that add to each list of a composed graph.
static INSERTED: [Call; 8] = [
    (Step::Import("c"), Some(8)),
    (Step::Define("v"), Some(9)),
    (Step::Export(1, "z"), Some(1)),
    (Step::Instantiate(1), Some(10)),
    (Step::Give(10, "log", 0), Some(10)),
    (Step::Alias(10, "run"), Some(11)),
    (Step::Name(10, "m"), Some(10)),
    (Step::Add("2.0.0"), Some(2)),
];

/// Takes the steps, up to one that gives another number than is written beside it; true where there is none.
fn insert_all(alloc: Global, all: &mut Filled) -> Result<bool, AllocError> {
    for (step, number) in &INSERTED {
        if make_again(alloc, all, *step)? != *number {
            return Ok(false);
        }
        all.held = shown_again(alloc, &all.graph)?;
    }
    Ok(true)
}

/// In a run in which one request for memory fails, whatever made it is done again. Where it was a call that adds to a
/// graph, the graph holds what it held.
#[test]
fn adds_after_a_refusal(rt: HostRuntime) -> Result<(), Fail> {
    let mut all = match make_filled(rt.alloc()) {
        Ok(all) => all,
        Err(_) => make_filled(rt.alloc())?,
    };
    assert!(rt; insert_all(rt.alloc(), &mut all)?);
    assert!(rt; same_worlds(&all.graph, 0, 2) == Some(false), "packages");
    Ok(())
}

fn add_list(graph: &mut CompositionGraph) -> Result<usize, AllocError> {
    let byte = ValueType::Primitive(PrimitiveType::U8);
    Ok(graph.add_defined_type(DefinedType::List(byte))?.0)
}

fn add_resource(alloc: Global, graph: &mut CompositionGraph) -> Result<usize, AllocError> {
    let name = String::from_str(alloc, "r")?;
    Ok(graph.add_resource(Resource { name, alias: None })?.0)
}

fn add_func(alloc: Global, graph: &mut CompositionGraph) -> Result<usize, AllocError> {
    let func = FuncType {
        params: IndexMap::new(alloc),
        results: FuncResults::None,
        is_async: false,
    };
    Ok(graph.add_func_type(func)?.0)
}

fn add_interface(alloc: Global, graph: &mut CompositionGraph) -> Result<usize, AllocError> {
    let interface = Interface {
        id: None,
        uses: IndexMap::new(alloc),
        exports: IndexMap::new(alloc),
    };
    Ok(graph.add_interface(interface)?.0)
}

fn add_world(alloc: Global, graph: &mut CompositionGraph) -> Result<usize, AllocError> {
    let world = World {
        id: None,
        uses: IndexMap::new(alloc),
        imports: IndexMap::new(alloc),
        exports: IndexMap::new(alloc),
    };
    Ok(graph.add_world(world)?.0)
}

/// An entry of each sort; whether each has the next number.
fn add_each(alloc: Global, graph: &mut CompositionGraph) -> Result<bool, AllocError> {
    Ok(
        add_resource(alloc, graph)? == 0
            && add_list(graph)? == 1
            && add_func(alloc, graph)? == 2
            && add_interface(alloc, graph)? == 3
            && add_world(alloc, graph)? == 4,
    )
}

#[test]
fn adds_types(rt: HostRuntime) -> Result<(), Fail> {
    let mut graph = CompositionGraph::new(rt.alloc());
    assert!(rt; add_each(rt.alloc(), &mut graph)?);
    assert!(rt; has_each(graph.types()));
    Ok(())
}
