//! What is shown of a node.
ghost use Rattle.std.specs.Prelude.{◌<◌, length};

use indexmap::IndexMap;
use std::alloc::{AllocError, Global};
use wac_graph::{CompositionGraph, ItemKind, NodeId, NodeKind, PackageId, PackageKey};
use wac_lexer::SourceSpan;

/// The instance and the export that an alias is of.
#[derive(Debug, Drop)]
pub struct Source {
    pub node: usize,
    pub export: String,
}

/// What is shown of a node.
#[derive(Debug, Drop)]
pub struct NodeRow {
    /// `definition`, `import`, `alias` or `instantiation`.
    pub kind: &'static str,
    /// The name that is bound to it, and where.
    pub name: Option<String>,
    pub place: Option<SourceSpan>,
    /// The package of an instantiation, with its version.
    pub package: Option<String>,
    /// The words for the kind of its item.
    pub item: &'static str,
    /// The name under which it is imported.
    pub import: Option<String>,
    pub source: Option<Source>,
    /// The arguments of an instantiation, each with the number of its node.
    pub arguments: Vec<(String, usize)>,
    /// The imports of an instantiation that have no argument, each with the words for its kind.
    pub open: Vec<(String, &'static str)>,
}

/// A copy of a text.
fn owned(alloc: Global, text: Option<&str>) -> Result<Option<String>, AllocError> {
    match text {
        None => Ok(None),
        Some(text) => Ok(Some(String::from_str(alloc, text)?)),
    }
}

/// The word for what a node is.
fn kind_word(kind: &NodeKind) -> &'static str {
    match kind {
        NodeKind::Import(_) => "import",
        NodeKind::Definition => "definition",
        NodeKind::Alias => "alias",
        NodeKind::Instantiation(_) => "instantiation",
    }
}

/// A package's name with its version.
fn key_text(alloc: Global, key: &PackageKey) -> Result<String, AllocError> {
    let name = key.name.as_str();
    match &key.version {
        None => String::from_str(alloc, name),
        Some(version) => format!(in alloc; "{name}@{version}"),
    }
}

/// The package that a node is an instance of.
fn package_text(
    alloc: Global,
    graph: &CompositionGraph,
    id: NodeId,
) -> Result<Option<String>, AllocError>
    requires { id.0 < length graph.now.nodes }
{
    match graph.instance_of(id) {
        None => Ok(None),
        Some(package) => Ok(Some(key_text(alloc, graph.package(package).key)?)),
    }
}

/// The arguments of a node.
fn arguments_of(
    alloc: Global,
    graph: &CompositionGraph,
    id: NodeId,
) -> Result<Vec<(String, usize)>, AllocError>
    requires { id.0 < length graph.now.nodes }
{
    let mut arguments = Vec::new(alloc);
    for (name, node) in graph.arguments(id) {
        arguments.push((String::from_str(alloc, name)?, node.0))?;
    }
    Ok(arguments)
}

/// Those of some imports that an instance is given nothing for.
fn open_among(
    alloc: Global,
    graph: &CompositionGraph,
    id: NodeId,
    imports: &IndexMap<String, ItemKind>,
) -> Result<Vec<(String, &'static str)>, AllocError>
    requires { id.0 < length graph.now.nodes }
{
    let mut open = Vec::new(alloc);
    for (name, kind) in imports.iter() {
        if graph.argument(id, name.as_str()).is_none() {
            open.push((String::from_str(alloc, name.as_str())?, kind.desc()))?;
        }
    }
    Ok(open)
}

/// The imports of a package that an instance of it is given nothing for.
fn open_of(
    alloc: Global,
    graph: &CompositionGraph,
    id: NodeId,
    package: PackageId,
) -> Result<Vec<(String, &'static str)>, AllocError>
    requires node { id.0 < length graph.now.nodes }
    requires package { «package».0 < length graph.now.packages }
{
    let world = graph.package(package).world;
    match graph.types().imports(world) {
        None => Ok(Vec::new(alloc)),
        Some(imports) => open_among(alloc, graph, id, imports),
    }
}

/// What a node is an alias of.
fn source_of(
    alloc: Global,
    graph: &CompositionGraph,
    id: NodeId,
) -> Result<Option<Source>, AllocError>
    requires { id.0 < length graph.now.nodes }
{
    match graph.alias_source(id) {
        None => Ok(None),
        Some((node, export)) => Ok(Some(Source {
            node: node.0,
            export: String::from_str(alloc, export)?,
        })),
    }
}

/// The imports of an instance that it is given nothing for. Other nodes have none.
fn open_at(
    alloc: Global,
    graph: &CompositionGraph,
    id: NodeId,
) -> Result<Vec<(String, &'static str)>, AllocError>
    requires { id.0 < length graph.now.nodes }
{
    match graph.instance_of(id) {
        None => Ok(Vec::new(alloc)),
        Some(package) => open_of(alloc, graph, id, package),
    }
}

/// Where a name is bound.
fn place_of(places: &IndexMap<String, SourceSpan>, name: &Option<String>) -> Option<SourceSpan> {
    match name {
        None => None,
        Some(name) => places.get(name.as_str()).copied(),
    }
}

/// The texts of a node.
#[derive(Drop)]
struct Texts {
    name: Option<String>,
    package: Option<String>,
    import: Option<String>,
}

/// The name of a node, its package and its import, as far as it has them.
fn texts_of(alloc: Global, graph: &CompositionGraph, id: NodeId) -> Result<Texts, AllocError>
    requires { id.0 < length graph.now.nodes }
{
    let name = owned(alloc, graph.name(id))?;
    let package = package_text(alloc, graph, id)?;
    let import = owned(alloc, graph.import_name(id))?;
    Ok(Texts {
        name,
        package,
        import,
    })
}

/// What leads from a node to others, and what it leaves open.
#[derive(Drop)]
struct Edges {
    source: Option<Source>,
    arguments: Vec<(String, usize)>,
    open: Vec<(String, &'static str)>,
}

/// What a node is an alias of, its arguments, and what it leaves open.
fn edges_of(alloc: Global, graph: &CompositionGraph, id: NodeId) -> Result<Edges, AllocError>
    requires { id.0 < length graph.now.nodes }
{
    let source = source_of(alloc, graph, id)?;
    let arguments = arguments_of(alloc, graph, id)?;
    let open = open_at(alloc, graph, id)?;
    Ok(Edges {
        source,
        arguments,
        open,
    })
}

/// What is shown of a node with these texts and edges.
fn row_of(
    graph: &CompositionGraph,
    id: NodeId,
    places: &IndexMap<String, SourceSpan>,
    texts: Texts,
    edges: Edges,
) -> NodeRow
    requires { id.0 < length graph.now.nodes }
{
    let Texts {
        name,
        package,
        import,
    } = texts;
    let Edges {
        source,
        arguments,
        open,
    } = edges;
    let place = place_of(places, &name);
    NodeRow {
        kind: kind_word(graph.node(id)),
        name,
        place,
        package,
        item: graph.kind(id).desc(),
        import,
        source,
        arguments,
        open,
    }
}

/// What is shown of a node.
pub(crate) fn row(
    alloc: Global,
    graph: &CompositionGraph,
    id: NodeId,
    places: &IndexMap<String, SourceSpan>,
) -> Result<NodeRow, AllocError>
    requires { id.0 < length graph.now.nodes }
{
    let texts = texts_of(alloc, graph, id)?;
    match edges_of(alloc, graph, id) {
        Ok(edges) => Ok(row_of(graph, id, places, texts, edges)),
        Err(refused) => Err(refused),
    }
}
