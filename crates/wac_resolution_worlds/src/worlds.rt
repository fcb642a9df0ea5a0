//! Worlds.
ghost use Rattle.std.specs.Prelude.{IfOk, map, option_map, string_bytes};
ghost use Rattle.wac_graph_types.specs.Table.{ItemsNamed};
ghost use Rattle.wac_ast_worlds.specs.Worlds.{world_item_of};
ghost use Rattle.wac_graph.specs.Means.{declared_count};
ghost use Rattle.wac_graph.specs.Origin.{Numbering};
ghost use Rattle.wac_resolution_rules.specs.BrokenWorlds.{WorldBroken};
ghost use Rattle.wac_resolution_rules.specs.Errors.{ErrorSays};
ghost use Rattle.wac_resolution_state.specs.Bindings.{values_of};
ghost use Rattle.wac_resolution_state.specs.Named.{scope_of};
ghost use Rattle.wac_resolution_state.specs.Expands.{AllSupplied};
ghost use Rattle.wac_resolution_state.specs.Context.{packages_in, context_of};
ghost use Rattle.wac_resolution_types.specs.Lists.{lists_of};
ghost use Rattle.wac_resolution_worlds.specs.WorldItems.{AreNamed, WorldOf, WorldMade};

use crate::includes::includes;
use crate::outer_scope::OuterScope;
use crate::world_items::world_items;
use std::alloc::AllocError;
use wac_ast_worlds::WorldItem;
use wac_graph::{World, WorldId};
use wac_resolution_errors::Error;
use wac_resolution_state::State;
use wac_resolution_types::{Body, Owner};

/// Adds a world with the uses, imports and exports of a body.
fn finish_world(
    state: &mut State,
    id: Option<String>,
    body: Body<'_>,
) -> Result<WorldId, AllocError>
    requires { AreNamed state.old.graph.types (lists_of body) }
    ensures { IfOk result (λ w. WorldOf state.old.graph state.new.graph (option_map string_bytes id)
        (lists_of body.entry) w) }
{
    let Body {
        uses,
        imports,
        exports,
        ..
    } = body;
    state.add_world(World {
        id,
        uses,
        imports,
        exports,
    })
}

/// Adds a world of items, which may have an id, and a name for errors.
pub fn world(
    items: &[WorldItem<'_>],
    state: &mut State,
    outer: &OuterScope<'_>,
    id: Option<String>,
    name: &str,
) -> Result<WorldId, Error>
    requires root { ItemsNamed state.old.graph.types (values_of outer.now.root.now) }
    requires supplied { AllSupplied (packages_in outer.now.context.now) state.old.graph }
    ensures ok { IfOk result (λ w. WorldMade outer.now.context.now state.old.graph state.new.graph
        (values_of outer.now.root.now) (option_map string_bytes id) (map world_item_of items.now) w) }
    ensures err { ErrorSays result (λ e. (numbering : Numbering)
        → WorldBroken (context_of numbering outer.now.context.now)
        (scope_of numbering state.old.graph (values_of outer.now.root.now)) name.now (declared_count state.old.graph)
        (map world_item_of items.now) e) }
{
    let mut body = Body::new(state.alloc);
    let owner = Owner::World(name);
    world_items(items, state, outer, &mut body, &owner)?;
    includes(items, state, outer, &mut body, name)?;
    Ok(finish_world(state, id, body)?)
}
