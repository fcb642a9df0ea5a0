//! Where arguments are.
ghost use Rattle.std.specs.Prelude.{◌≡◌, ◌<◌, ℕ, length, flat_map, map, option_map, is_some};
ghost use Rattle.wac_ast_grammar.specs.Tree.{arguments_from};
ghost use Rattle.wac_graph_types.specs.Scope.{Named, look_up};
ghost use Rattle.wac_graph_types.specs.Table.{Names};
ghost use Rattle.wac_ast_base.specs.Names.{ident_of};
ghost use Rattle.wac_ast_statements.specs.Expressions.{argument_of};
ghost use Rattle.wac_graph.specs.Graph.{export_kind};
ghost use Rattle.wac_graph.specs.Origin.{Numbering};
ghost use Rattle.wac_resolution_rules.specs.BrokenExpressions.{argument_places, spread_places as places_of_spread};
ghost use Rattle.wac_resolution_rules.specs.Expressions.{spread_of, spreads_of};
ghost use Rattle.wac_resolution_rules.specs.Nodes.{instance_at};
ghost use Rattle.wac_resolution_state.specs.Nodes.{composition_of};
ghost use Rattle.wac_resolution_state.specs.Root.{composed, Agrees};
ghost use Rattle.wac_resolution_expressions.specs.Spreads.{imports_at};
ghost use Rattle.wac_resolution_expressions.specs.Places.{exports_at};

use crate::named_place::own_places;
use wac_ast_base::Ident;
use wac_ast_statements::InstantiationArgument;
use wac_graph::{ItemKind, NodeId, WorldId};
use wac_lexer::SourceSpan;
use wac_resolution_state::{Root, State};

/// The span, if the node is an instance that exports the name.
fn if_exported(state: &State, node: NodeId, name: &str, span: SourceSpan) -> Option<SourceSpan>
    requires { node.0 < length state.now.graph.nodes }
    ensures { (numbering : Numbering) (declared : Named ℕ)
        → look_up name.now (exports_at span
        (instance_at (composition_of numbering state.now.graph declared) node.0)) ≡ result }
{
    // Its contract says that the table is sound, and what its entries mean.
    let _types = state.graph.types();
    match state.graph.kind(node) {
        ItemKind::Instance(_) => match state.graph.export_kind(node, name) {
            Some(_) => Some(span),
            None => None,
        },
        _ => None,
    }
}

/// The place of a spread, if it is of an instance that exports the name.
fn spread_place(state: &State, root: &Root<'_>, id: &Ident<'_>, name: &str) -> Option<SourceSpan>
    requires { Agrees state.now.graph root.now }
    ensures { (numbering : Numbering)
        → look_up name.now (places_of_spread (composed numbering state.now.graph root.now) (ident_of id.now)) ≡ result }
{
    match root.nodes.find(id.string) {
        Some(node) => if_exported(state, node, name, id.span),
        None => None,
    }
}

/// The place of an argument, if it is a spread of an instance that exports the name.
fn if_spread(
    argument: &InstantiationArgument<'_>,
    state: &State,
    root: &Root<'_>,
    name: &str,
) -> Option<SourceSpan>
    requires { Agrees state.now.graph root.now }
    ensures { (numbering : Numbering)
        → look_up name.now (flat_map (places_of_spread (composed numbering state.now.graph root.now))
        (spread_of (argument_of argument.now))) ≡ result }
{
    match argument {
        InstantiationArgument::Spread(id) => spread_place(state, root, id, name),
        _ => None,
    }
}

/// The place of the first spread of an instance that exports the name.
fn spread_places(
    arguments: &[InstantiationArgument<'_>],
    state: &State,
    root: &Root<'_>,
    name: &str,
) -> Option<SourceSpan>
    requires { Agrees state.now.graph root.now }
    ensures { (numbering : Numbering)
        → look_up name.now (flat_map (places_of_spread (composed numbering state.now.graph root.now))
        (spreads_of (arguments_from (map argument_of arguments.now)))) ≡ result }
{
    for argument in arguments {
        match if_spread(argument, state, root, name) {
            Some(span) => return Some(span),
            None => {}
        }
    }
    None
}

/// The place of a name's argument: the argument itself, else the first spread of an instance that exports the name.
pub fn place(
    arguments: &[InstantiationArgument<'_>],
    state: &State,
    root: &Root<'_>,
    world: WorldId,
    name: &str,
) -> Option<SourceSpan>
    requires agrees { Agrees state.now.graph root.now }
    requires world { Names state.now.graph.types (ItemKind.Component world) }
    ensures { (numbering : Numbering)
        → look_up name.now (argument_places (composed numbering state.now.graph root.now)
        (imports_at numbering state.now.graph world) (arguments_from (map argument_of arguments.now))) ≡ result }
{
    match own_places(arguments, state, root, world, name) {
        Some(span) => Some(span),
        None => spread_places(arguments, state, root, name),
    }
}
