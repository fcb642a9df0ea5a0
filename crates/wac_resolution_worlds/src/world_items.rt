//! Items of worlds.
ghost use Rattle.std.specs.Prelude.{◌≡◌, List, OnOk, map};
ghost use Rattle.wac_ast_grammar.specs.Tree.{WorldItem as ItemTree};
ghost use Rattle.wac_graph_types.specs.declared.kind.ExternKind.TheVariants as sides;
ghost use Rattle.wac_graph_types.specs.Steps.{Fails};
ghost use Rattle.wac_graph_types.specs.Table.{ItemsNamed};
ghost use Rattle.wac_ast_worlds.specs.Worlds.{world_item_of};
ghost use Rattle.wac_graph.specs.Origin.{Numbering};
ghost use Rattle.wac_resolution_rules.specs.BrokenWorlds.{WorldItemBroken};
ghost use Rattle.wac_resolution_rules.specs.Errors.{ErrorSays};
ghost use Rattle.wac_resolution_rules.specs.Places.{bound_in_world};
ghost use Rattle.wac_resolution_rules.specs.Worlds.{HasWorldItem};
ghost use Rattle.wac_resolution_state.specs.Bindings.{values_of, places_of};
ghost use Rattle.wac_resolution_state.specs.Named.{scope_of};
ghost use Rattle.wac_resolution_state.specs.Expands.{AllSupplied};
ghost use Rattle.wac_resolution_state.specs.Context.{packages_in, context_of};
ghost use Rattle.wac_resolution_types.specs.Lists.{lists_of};
ghost use Rattle.wac_resolution_types.specs.Bodies.{body_of, IsBody};
ghost use Rattle.wac_resolution_types.specs.Owners.{owner_of};
ghost use Rattle.wac_resolution_worlds.specs.Made.{no_lists};
ghost use Rattle.wac_resolution_worlds.specs.WorldItems.{WorldItemStep, WorldItemSteps};

use crate::extern_items::extern_item;
use crate::outer_scope::OuterScope;
use crate::use_statements::use_statement;
use wac_ast_worlds::WorldItem;
use wac_graph::ExternKind;
use wac_resolution_errors::Error;
use wac_resolution_state::State;
use wac_resolution_types::{Body, Owner, Section};

/// Takes an item of a world. Includes come afterwards.
fn world_item<'a>(
    item: &WorldItem<'a>,
    state: &mut State,
    outer: &OuterScope<'_>,
    body: &mut Body<'a>,
    owner: &Owner<'_>,
) -> Result<(), Error>
    requires body { IsBody state.old.graph.types sides.Import (lists_of body.old) }
    requires root { ItemsNamed state.old.graph.types (values_of outer.now.root.now) }
    requires supplied { AllSupplied (packages_in outer.now.context.now) state.old.graph }
    ensures ok { OnOk result (WorldItemStep outer.now.context.now state.old.graph state.new.graph
        (values_of outer.now.root.now) (lists_of body.old) (lists_of body.new) (world_item_of item.now)) }
    ensures err { ErrorSays result (λ e. (numbering : Numbering) (before : List ItemTree)
        → places_of body.old.names ≡ bound_in_world before
        → WorldItemBroken (context_of numbering outer.now.context.now)
        (scope_of numbering state.old.graph (values_of outer.now.root.now)) (owner_of owner.now) e
        (body_of numbering state.old.graph body.old) before (world_item_of item.now)) }
{
    match item {
        WorldItem::Use(used) => use_statement(used, state, outer, body, ExternKind::Import),
        WorldItem::Import(import) => {
            let section = Section {
                owner: *owner,
                side: ExternKind::Import,
            };
            extern_item(&import.path, state, outer, body, &section)
        }
        WorldItem::Export(export) => {
            let section = Section {
                owner: *owner,
                side: ExternKind::Export,
            };
            extern_item(&export.path, state, outer, body, &section)
        }
        WorldItem::Include(_) => Ok(()),
        WorldItem::Ty(decl) => {
            let section = Section {
                owner: *owner,
                side: ExternKind::Import,
            };
            wac_resolution_types::item(decl, state, body, &section)
        }
    }
}

/// Takes items of a world, in order, into an empty body.
pub fn world_items<'a>(
    items: &[WorldItem<'a>],
    state: &mut State,
    outer: &OuterScope<'_>,
    body: &mut Body<'a>,
    owner: &Owner<'_>,
) -> Result<(), Error>
    requires empty { lists_of body.old ≡ no_lists }
    requires root { ItemsNamed state.old.graph.types (values_of outer.now.root.now) }
    requires supplied { AllSupplied (packages_in outer.now.context.now) state.old.graph }
    ensures ok { OnOk result (WorldItemSteps outer.now.context.now state.old.graph state.new.graph
        (values_of outer.now.root.now) (lists_of body.old) (lists_of body.new) (map world_item_of items.now)) }
    ensures err { ErrorSays result (λ e. (numbering : Numbering)
        → Fails (HasWorldItem (context_of numbering outer.now.context.now)
        (scope_of numbering state.old.graph (values_of outer.now.root.now)))
        (WorldItemBroken (context_of numbering outer.now.context.now)
        (scope_of numbering state.old.graph (values_of outer.now.root.now)) (owner_of owner.now) e)
        (body_of numbering state.old.graph body.old) (map world_item_of items.now)) }
{
    for item in items {
        world_item(item, state, outer, body, owner)?;
    }
    Ok(())
}
