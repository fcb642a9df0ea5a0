//! Nodes.
ghost use Rattle.std.specs.Prelude.{◌≡◌, ◌<◌, OnOk, IfOk, IfErr, length, option_map, option_and_then, ℕ};
ghost use Rattle.wac_graph_types.specs.Scope.{Named};
ghost use Rattle.wac_graph.specs.Origin.{Numbering};
ghost use Rattle.wac_resolution_errors.specs.ErrorModel.{error_model, operation_of};
ghost use Rattle.wac_resolution_rules.specs.BrokenExpressions.{IsNotInstance};
ghost use Rattle.wac_resolution_rules.specs.Expressions.{instance_id as id_of_instance, own_name as name_of_node};
ghost use Rattle.wac_resolution_rules.specs.Nodes.{node_at};
ghost use Rattle.wac_resolution_state.specs.Nodes.{composition_of};
ghost use Rattle.wac_resolution_state.specs.NodeGrowth.{IsNamed};
ghost use Rattle.wac_resolution_state.specs.Instances.{IsInstance, written_id};

use crate::State;
use std::alloc::AllocError;
use wac_graph::{InterfaceId, ItemKind, NodeId};
use wac_lexer::SourceSpan;
use wac_resolution_errors::{Error, InstanceOperation};

/// Names a node that has no name. One that has a name keeps it.
#[tactic(auto, using(crate::proofs::Composed::node_names))]
pub fn name_node(state: &mut State, node: NodeId, name: &str) -> Result<(), AllocError>
    requires { node.0 < length state.old.graph.nodes }
    ensures { OnOk result (IsNamed state.old.graph state.new.graph node.0 name.now) }
{
    // Its contract says that the graph is sound.
    let _nodes = state.graph.nodes();
    if state.graph.name(node).is_some() {
        return Ok(());
    }
    state.graph.set_name(node, name)?;
    // It still is.
    let _named = state.graph.nodes();
    Ok(())
}

/// The interface of the instance that a node is.
pub fn instance(
    state: &State,
    node: NodeId,
    operation: InstanceOperation,
    span: SourceSpan,
) -> Result<InterfaceId, Error>
    requires { node.0 < length state.now.graph.nodes }
    ensures ok { IfOk result (λ i. IsInstance state.now.graph node.0 i) }
    ensures err { IfErr result (λ e. (numbering : Numbering) (declared : Named ℕ)
        → IsNotInstance (composition_of numbering state.now.graph declared) node.0
        (operation_of operation) span (error_model e)) }
{
    // Its contract says that the table is sound, and what its entries mean.
    let _types = state.graph.types();
    match state.graph.kind(node) {
        ItemKind::Instance(id) => Ok(id),
        other => Err(Error::NotAnInstance {
            kind: other.desc(),
            operation,
            span,
        }),
    }
}

/// The id in the entry of an interface, where it has one.
fn interface_id(state: &State, interface: InterfaceId) -> Option<&str>
    ensures { option_map (λ s. s.now) result ≡ written_id state.now.graph.types interface.0 }
{
    let interface = state.graph.types().interface(interface)?;
    match &interface.id {
        Some(id) => Some(id.as_str()),
        None => None,
    }
}

/// The id of the instance that a node is, where it has one.
pub fn instance_id(state: &State, node: NodeId) -> Option<&str>
    requires { node.0 < length state.now.graph.nodes }
    ensures { (numbering : Numbering) (declared : Named ℕ)
        → option_and_then id_of_instance (node_at (composition_of numbering state.now.graph declared) node.0)
        ≡ option_map (λ s. s.now) result }
{
    // Its contract says that the table is sound, and what its entries mean.
    let _types = state.graph.types();
    match state.graph.kind(node) {
        ItemKind::Instance(interface) => interface_id(state, interface),
        _ => None,
    }
}

/// The name under which a node is imported, or else the name of the export whose alias it is.
pub fn own_name(state: &State, node: NodeId) -> Option<&str>
    requires { node.0 < length state.now.graph.nodes }
    ensures { (numbering : Numbering) (declared : Named ℕ)
        → option_and_then name_of_node (node_at (composition_of numbering state.now.graph declared) node.0)
        ≡ option_map (λ s. s.now) result }
{
    if let Some(name) = state.graph.import_name(node) {
        return Some(name);
    }
    match state.graph.alias_source(node) {
        Some((_, name)) => Some(name),
        None => None,
    }
}
