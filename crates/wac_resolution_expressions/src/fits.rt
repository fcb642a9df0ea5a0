//! Arguments that fit.
ghost use Rattle.std.specs.Prelude.{◌≡◌, ◌<◌, ℕ, IfErr, MatchOption, OnOk, length};
ghost use Rattle.wac_graph_types.specs.Names.{by_name};
ghost use Rattle.wac_graph_types.specs.Readings.{world_imports};
ghost use Rattle.wac_graph_types.specs.Rules.{Answers};
ghost use Rattle.wac_graph_types.specs.Scope.{Named, look_up};
ghost use Rattle.wac_graph_types.specs.Table.{Names};
ghost use Rattle.wac_graph.specs.Means.{means};
ghost use Rattle.wac_graph.specs.Origin.{Numbering, IsOneToOne};
ghost use Rattle.wac_resolution_rules.specs.Composition.{kind_at};
ghost use Rattle.wac_resolution_state.specs.Nodes.{composition_of};
ghost use Rattle.wac_resolution_rules.specs.Given.{rules_of};
ghost use Rattle.wac_resolution_expressions.specs.Fits.{IsFit, IsAgainst, AllFit, IsFirstMisfit};
ghost use Rattle.wac_resolution_expressions.specs.Spreads.{GivenThere};

use indexmap::IndexMap;
use wac_graph::names::find;
use wac_graph::{ItemKind, NodeId, Reason, Rules, WorldId};
use wac_resolution_state::State;

/// What a world imports under a name.
fn import_kind(state: &State, world: WorldId, name: &str) -> Option<ItemKind>
    ensures { result ≡ look_up name.now (world_imports state.now.graph.types world.0) }
{
    let types = state.graph.types();
    match types.imports(world) {
        Some(all) => find(all, name),
        None => None,
    }
}

/// Whether a node fits where a kind is expected.
fn may_stand<R: Rules>(
    state: &State,
    rules: &R,
    node: NodeId,
    wanted: ItemKind,
) -> Result<(), Reason>
    requires wanted { Names state.now.graph.types wanted }
    requires there { node.0 < length state.now.graph.nodes }
    ensures { (numbering : Numbering) (declared : Named ℕ) → IsOneToOne numbering
        → Answers result (R.passes rules.now (kind_at (composition_of numbering state.now.graph declared).nodes node.0)
        (means numbering state.now.graph wanted)) }
{
    let types = state.graph.types();
    let kind = state.graph.kind(node);
    rules.subtype(types, kind, wanted)
}

/// Whether an argument is for an import of the world and its node fits it. An error without a reason says that
/// there is no such import.
fn fits<R: Rules>(
    state: &State,
    rules: &R,
    world: WorldId,
    name: &str,
    node: NodeId,
) -> Result<(), Option<Reason>>
    requires world { Names state.now.graph.types (ItemKind.Component world) }
    requires there { node.0 < length state.now.graph.nodes }
    ensures ok { OnOk result (IsFit (rules_of R.Rules rules.now) state.now.graph world name.now node.0) }
    ensures err { IfErr result (λ r. IsAgainst (rules_of R.Rules rules.now) state.now.graph world name.now node.0 r) }
{
    // Its contract says that the table is sound, and what its entries mean.
    let _types = state.graph.types();
    match import_kind(state, world, name) {
        Some(wanted) => match may_stand(state, rules, node, wanted) {
            Ok(()) => Ok(()),
            Err(reason) => Err(Some(reason)),
        },
        None => Err(None),
    }
}

/// The first argument that doesn't fit, and the reason. Without a reason it is for no import.
pub fn misfit<'x, R: Rules>(
    state: &State,
    rules: &R,
    world: WorldId,
    given: &'x IndexMap<String, NodeId>,
) -> Option<(&'x str, Option<Reason>)>
    requires world { Names state.now.graph.types (ItemKind.Component world) }
    requires there { GivenThere state.now.graph (by_name given.now.entries) }
    ensures { MatchOption result (AllFit (rules_of R.Rules rules.now) state.now.graph world (by_name given.now.entries))
        (λ m. IsFirstMisfit (rules_of R.Rules rules.now) state.now.graph world
        (by_name given.now.entries) m.0.now m.1) }
{
    for (name, node) in given.iter() {
        let text = name.as_str();
        match fits(state, rules, world, text, *node) {
            Ok(()) => {}
            Err(reason) => return Some((text, reason)),
        }
    }
    None
}
