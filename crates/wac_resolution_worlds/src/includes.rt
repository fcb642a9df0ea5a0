//! Includes of a world.
ghost use Rattle.std.specs.Prelude.{◌≡◌, ◌∷◌, [], List, Some, OnOk, map, option_map};
ghost use Rattle.wac_ast_grammar.specs.Tree.{WorldInclude as IncludeTree};
ghost use Rattle.wac_graph_types.specs.Steps.{Fails};
ghost use Rattle.wac_graph_types.specs.Table.{ItemsNamed};
ghost use Rattle.wac_ast_worlds.specs.Worlds.{world_item_of};
ghost use Rattle.wac_ast_uses.specs.Uses.{world_include_of};
ghost use Rattle.wac_graph.specs.Origin.{Numbering};
ghost use Rattle.wac_resolution_rules.specs.BrokenWorlds.{IncludeBroken};
ghost use Rattle.wac_resolution_rules.specs.Errors.{ErrorSays};
ghost use Rattle.wac_resolution_rules.specs.Includes.{HasInclude};
ghost use Rattle.wac_resolution_rules.specs.Worlds.{includes_of, include_in as include_of};
ghost use Rattle.wac_resolution_state.specs.Bindings.{values_of};
ghost use Rattle.wac_resolution_state.specs.Named.{scope_of};
ghost use Rattle.wac_resolution_state.specs.Expands.{AllSupplied};
ghost use Rattle.wac_resolution_state.specs.Context.{packages_in, context_of};
ghost use Rattle.wac_resolution_types.specs.Lists.{lists_of};
ghost use Rattle.wac_resolution_types.specs.Bodies.{body_of};
ghost use Rattle.wac_resolution_worlds.specs.WorldItems.{AreNamed, IncludeStep, IncludeSteps};

use crate::outer_scope::OuterScope;
use crate::{Inclusion, entries};
use wac_ast_uses::WorldInclude;
use wac_ast_worlds::WorldItem;
use wac_resolution_errors::Error;
use wac_resolution_state::{State, world_ref};
use wac_resolution_types::Body;

/// Takes an include into the world of a name.
fn include(
    include: &WorldInclude<'_>,
    state: &mut State,
    outer: &OuterScope<'_>,
    body: &mut Body<'_>,
    world: &str,
) -> Result<(), Error>
    requires body { AreNamed state.old.graph.types (lists_of body.old) }
    requires root { ItemsNamed state.old.graph.types (values_of outer.now.root.now) }
    requires supplied { AllSupplied (packages_in outer.now.context.now) state.old.graph }
    ensures ok { OnOk result (IncludeStep outer.now.context.now state.old.graph state.new.graph
        (values_of outer.now.root.now) (lists_of body.old) (lists_of body.new) (world_include_of include.now)) }
    ensures err { ErrorSays result (λ e. (numbering : Numbering) (before : List IncludeTree)
        → IncludeBroken (context_of numbering outer.now.context.now)
        (scope_of numbering state.old.graph (values_of outer.now.root.now)) world.now e
        (body_of numbering state.old.graph body.old) before (world_include_of include.now)) }
{
    let renamed = entries(state.alloc, &include.with)?;
    let kind = world_ref(state, outer.context, outer.root, &include.world)?;
    let inclusion = Inclusion {
        alloc: state.alloc,
        graph: &state.graph,
        include,
        world,
    };
    inclusion.take(kind, renamed, &mut body.imports, &mut body.exports)?;
    Ok(())
}

/// The include that an item is.
fn include_in<'x, 'a>(item: &'x WorldItem<'a>) -> Option<&'x WorldInclude<'a>>
    ensures { option_map (λ x. world_include_of x.now) result ≡ include_of (world_item_of item.now) }
{
    match item {
        WorldItem::Include(include) => Some(include),
        _ => None,
    }
}

/// Takes an item of a world, if it is an include.
fn include_item(
    item: &WorldItem<'_>,
    state: &mut State,
    outer: &OuterScope<'_>,
    body: &mut Body<'_>,
    world: &str,
) -> Result<(), Error>
    requires body { AreNamed state.old.graph.types (lists_of body.old) }
    requires root { ItemsNamed state.old.graph.types (values_of outer.now.root.now) }
    requires supplied { AllSupplied (packages_in outer.now.context.now) state.old.graph }
    ensures ok { OnOk result (IncludeSteps outer.now.context.now state.old.graph state.new.graph
        (values_of outer.now.root.now) (lists_of body.old) (lists_of body.new)
        (includes_of (world_item_of item.now ∷ []))) }
    ensures err { ErrorSays result (λ e. (numbering : Numbering) (before : List IncludeTree)
        → (x : IncludeTree) × (include_of (world_item_of item.now) ≡ Some x)
        × IncludeBroken (context_of numbering outer.now.context.now)
        (scope_of numbering state.old.graph (values_of outer.now.root.now)) world.now e
        (body_of numbering state.old.graph body.old) before x) }
{
    match include_in(item) {
        Some(clause) => {
            include(clause, state, outer, body, world)?;
            Ok(())
        }
        None => Ok(()),
    }
}

/// Takes the includes among the items of a world, in order.
pub fn includes(
    items: &[WorldItem<'_>],
    state: &mut State,
    outer: &OuterScope<'_>,
    body: &mut Body<'_>,
    world: &str,
) -> Result<(), Error>
    requires body { AreNamed state.old.graph.types (lists_of body.old) }
    requires root { ItemsNamed state.old.graph.types (values_of outer.now.root.now) }
    requires supplied { AllSupplied (packages_in outer.now.context.now) state.old.graph }
    ensures ok { OnOk result (IncludeSteps outer.now.context.now state.old.graph state.new.graph
        (values_of outer.now.root.now) (lists_of body.old) (lists_of body.new)
        (includes_of (map world_item_of items.now))) }
    ensures err { ErrorSays result (λ e. (numbering : Numbering)
        → Fails (HasInclude (context_of numbering outer.now.context.now)
        (scope_of numbering state.old.graph (values_of outer.now.root.now)))
        (IncludeBroken (context_of numbering outer.now.context.now)
        (scope_of numbering state.old.graph (values_of outer.now.root.now)) world.now e)
        (body_of numbering state.old.graph body.old) (includes_of (map world_item_of items.now))) }
{
    for item in items {
        include_item(item, state, outer, body, world)?;
    }
    Ok(())
}
