//! The lines of a graph.
ghost use Rattle.std.specs.Prelude.{◌≡◌, ◌<◌, ◌++◌, ℕ, Some, length, map, option_map, slice_get, codes, decimal};
ghost use Rattle.wac_graph_types.specs.Scope.{Named};
ghost use Rattle.wac_graph.specs.Node.{Node, arguments_in};
ghost use Rattle.wac_graph.specs.Origin.{Numbering};
ghost use Rattle.wac_graph.specs.Package.{key_of};
ghost use Rattle.wac_resolution_rules.specs.Composition.{aliased, instantiated};
ghost use Rattle.wac_resolution_state.specs.Nodes.{composition_of, form_in, node_of};
ghost use Rattle.wac_tool_graphs.specs.Lines.{form_words, id_words, node_line, node_lines, argument_lines, graph_lines};
ghost use Rattle.wac_tool_graphs.specs.Puts.{Puts};

use crate::lines::{OutputFailed, put_each, write_names};
use itoa::Buffer;
use wac_graph::{CompositionGraph, NodeId, NodeKind, PackageKey};
use wac_lexer::Sink;

/// Writes a line for each node of a graph, with a line for each of its arguments under it, and then a line for each export.
/// It takes no memory.
pub fn write_graph<S: Sink>(graph: &CompositionGraph, out: &mut S) -> Result<(), OutputFailed>
    ensures { (numbering : Numbering) (declared : Named ℕ)
        → Puts result (S.bytes out.old) (S.failures out.old) (S.bytes out.new) (S.failures out.new)
        (graph_lines (composition_of numbering graph.now declared)) }
{
    write_nodes(graph, out)?;
    write_names("export ", graph.exports(), out)
}

/// Writes the lines of all nodes.
fn write_nodes<S: Sink>(graph: &CompositionGraph, out: &mut S) -> Result<(), OutputFailed>
    ensures { (numbering : Numbering)
        → Puts result (S.bytes out.old) (S.failures out.old) (S.bytes out.new) (S.failures out.new)
        (node_lines 0 (map (node_of numbering graph.now) graph.now.nodes)) }
{
    for id in graph.nodes() {
        write_node(graph, id, out)?;
    }
    Ok(())
}

/// Writes the line of a node, and a line for each of its arguments.
fn write_node<S: Sink>(
    graph: &CompositionGraph,
    id: NodeId,
    out: &mut S,
) -> Result<(), OutputFailed>
    requires { id.0 < length graph.now.nodes }
    ensures { (numbering : Numbering) (n : Node) → slice_get graph.now.nodes id.0 ≡ Some n
        → Puts result (S.bytes out.old) (S.failures out.old) (S.bytes out.new) (S.failures out.new)
        (node_line id.0 (node_of numbering graph.now n) ++ argument_lines (arguments_in n.form)) }
{
    write_form(graph, id, out)?;
    write_kind(graph.kind(id).desc(), graph.name(id), out)?;
    write_names("  ", graph.arguments(id), out)
}

/// Writes a node's number, and what it is.
fn write_form<S: Sink>(
    graph: &CompositionGraph,
    id: NodeId,
    out: &mut S,
) -> Result<(), OutputFailed>
    requires { id.0 < length graph.now.nodes }
    ensures { (n : Node) → slice_get graph.now.nodes id.0 ≡ Some n
        → Puts result (S.bytes out.old) (S.failures out.old) (S.bytes out.new) (S.failures out.new)
        (decimal id.0 ++ (codes " " ++ form_words (form_in graph.now.packages n.form))) }
{
    let mut digits = Buffer::new();
    let number = digits.format(id.0);
    match graph.node(id) {
        NodeKind::Import(name) => put_each(&[number, " import ", name.as_str()], out),
        NodeKind::Definition => put_each(&[number, " definition"], out),
        NodeKind::Alias => {
            let (node, export) = graph.alias_source(id).unwrap();
            write_alias(number, node, export, out)
        }
        NodeKind::Instantiation(package) => {
            write_instance(number, graph.package(*package).key, out)
        }
    }
}

/// Writes the number of an alias, and the node and the export that it is of.
fn write_alias<S: Sink>(
    number: &str,
    node: NodeId,
    export: &str,
    out: &mut S,
) -> Result<(), OutputFailed>
    ensures { Puts result (S.bytes out.old) (S.failures out.old) (S.bytes out.new) (S.failures out.new)
        (number.now ++ (codes " " ++ form_words (aliased node.0 export.now))) }
{
    let mut digits = Buffer::new();
    put_each(
        &[number, " alias ", digits.format(node.0), " ", export],
        out,
    )
}

/// Writes the number of an instance, and the name and the version of its package.
fn write_instance<S: Sink>(number: &str, key: &PackageKey, out: &mut S) -> Result<(), OutputFailed>
    ensures { Puts result (S.bytes out.old) (S.failures out.old) (S.bytes out.new) (S.failures out.new)
        (number.now ++ (codes " " ++ form_words (instantiated (key_of key.now)))) }
{
    let name = key.name.as_str();
    match &key.version {
        None => put_each(&[number, " new ", name], out),
        Some(version) => put_each(&[number, " new ", name, "@", version.as_str()], out),
    }
}

/// Writes the words for a node's kind, and its name, and ends the line.
fn write_kind<S: Sink>(kind: &str, name: Option<&str>, out: &mut S) -> Result<(), OutputFailed>
    ensures { Puts result (S.bytes out.old) (S.failures out.old) (S.bytes out.new) (S.failures out.new)
        (codes ": " ++ (kind.now ++ (id_words (option_map (λ s. s.now) name.entry) ++ codes "\n"))) }
{
    match name {
        None => put_each(&[": ", kind, "\n"], out),
        Some(name) => put_each(&[": ", kind, " [", name, "]\n"], out),
    }
}
