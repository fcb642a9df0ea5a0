//! Accesses to the exports of instances.
ghost use Rattle.std.specs.Prelude.{◌≡◌, ◌<◌, ◌⊎◌, ℕ, [], IfOk, IfSome, IsSome, length, map, option_map, unwrap_or, string_bytes};
ghost use Rattle.wac_graph_types.specs.Meaning.{Meaning};
ghost use Rattle.wac_graph_types.specs.Names.{by_name};
ghost use Rattle.wac_graph_types.specs.Readings.{interface_exports};
ghost use Rattle.wac_graph_types.specs.Scope.{Named};
ghost use Rattle.wac_graph_types.specs.Shape.{items_mean};
ghost use Rattle.wac_graph_types.specs.Steps.{Fails};
ghost use Rattle.wac_ast_statements.specs.Expressions.{postfix_expr_of};
ghost use Rattle.wac_graph.specs.Graph.{export_kind};
ghost use Rattle.wac_graph.specs.Origin.{Numbering};
ghost use Rattle.wac_resolution_errors.specs.Error.{Operation};
ghost use Rattle.wac_resolution_rules.specs.Expressions.{at, accessed as accessed_name, Accesses};
ghost use Rattle.wac_resolution_rules.specs.BrokenExpressions.{IsNotInstance, IsNotExported, AccessBroken};
ghost use Rattle.wac_resolution_rules.specs.Errors.{ErrorSays};
ghost use Rattle.wac_resolution_state.specs.Nodes.{composition_of, NodesStand};
ghost use Rattle.wac_resolution_state.specs.Accesses.{AliasStep, AccessStep, AccessSteps};

use crate::State;
use crate::find::find_name;
use crate::node::instance;
use indexmap::IndexMap;
use std::alloc::AllocError;
use wac_ast_statements::PostfixExpr;
use wac_graph::{InterfaceId, ItemKind, NodeId};
use wac_lexer::SourceSpan;
use wac_resolution_errors::{Error, InstanceOperation};

/// The node that is the alias of an export of an instance: the existing one, else a new one.
pub fn alias(state: &mut State, node: NodeId, export: &str) -> Result<NodeId, AllocError>
    requires { IsSome (export_kind state.old.graph node.0 export.now) }
    ensures { IfOk result (λ n. IfSome (export_kind state.old.graph node.0 export.now)
        (λ k. AliasStep state.old.graph state.new.graph node.0 export.now k n.0)) }
{
    let alias = state.graph.add_alias(node, export)?;
    // Its contract says that the graph is sound.
    let _nodes = state.graph.nodes();
    Ok(alias)
}

/// The name of the export that an access means: an identifier by find, a string as it is.
#[tactic(auto, using(crate::proofs::Found::found_meant))]
fn accessed<'x>(
    access: &'x PostfixExpr<'_>,
    exports: Option<&'x IndexMap<String, ItemKind>>,
) -> &'x str
    ensures { (f : ℕ → Meaning)
        → result.now ≡ accessed_name (postfix_expr_of access.now)
        (items_mean f (unwrap_or (option_map (λ m. by_name m.now.entries) exports.entry) [])) }
{
    match access {
        PostfixExpr::Access(access) => match exports {
            Some(all) => find_name(access.id.string, all),
            None => access.id.string,
        },
        PostfixExpr::NamedAccess(access) => access.string.value,
    }
}

/// The name of the export of an interface that an access means, copied.
fn accessed_export(
    state: &State,
    interface: InterfaceId,
    access: &PostfixExpr<'_>,
) -> Result<String, AllocError>
    ensures { IfOk result (λ s. (f : ℕ → Meaning)
        → string_bytes s ≡ accessed_name (postfix_expr_of access.now)
        (items_mean f (interface_exports state.now.graph.types interface.0))) }
{
    let exports = state.graph.types().exports(ItemKind::Instance(interface));
    String::from_str(state.alloc, accessed(access, exports))
}

/// The alias that an access denotes. The span is that of what comes before it.
pub fn access(
    state: &mut State,
    node: NodeId,
    span: SourceSpan,
    access: &PostfixExpr<'_>,
) -> Result<NodeId, Error>
    requires { node.0 < length state.old.graph.nodes }
    ensures ok { IfOk result (λ n. AccessStep state.old.graph state.new.graph node.0 (postfix_expr_of access.now) n.0) }
    ensures err { ErrorSays result (λ e. (numbering : Numbering) (declared : Named ℕ)
        → IsNotInstance (composition_of numbering state.old.graph declared) node.0 Operation.access span e
        ⊎ IsNotExported (at (composition_of numbering state.old.graph declared) node.0)
        (postfix_expr_of access.now) e) }
{
    let interface = instance(state, node, InstanceOperation::Access, span)?;
    let name = accessed_export(state, interface, access)?;
    if state.graph.export_kind(node, name.as_str()).is_none() {
        return Err(Error::MissingInstanceExport {
            name,
            span: access.span(),
        });
    }
    Ok(alias(state, node, name.as_str())?)
}

/// The node that accesses denote, in order. The span is that of what comes before them.
#[inline(never)]
pub fn accesses(
    state: &mut State,
    node: NodeId,
    span: SourceSpan,
    accesses: &[PostfixExpr<'_>],
) -> Result<NodeId, Error>
    requires agrees { NodesStand state.old.graph }
    requires there { node.0 < length state.old.graph.nodes }
    ensures ok { IfOk result (λ n. AccessSteps state.old.graph state.new.graph node.0
        (map postfix_expr_of accesses.now) n.0) }
    ensures err { ErrorSays result (λ e. (numbering : Numbering) (declared : Named ℕ)
        → Fails Accesses (AccessBroken span e) (at (composition_of numbering state.old.graph declared) node.0)
        (map postfix_expr_of accesses.now)) }
{
    let mut node = node;
    let mut span = span;
    for next in accesses {
        node = access(state, node, span, next)?;
        span = next.span();
    }
    Ok(node)
}
