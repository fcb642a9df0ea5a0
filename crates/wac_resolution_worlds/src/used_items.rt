//! Used types of an interface.
ghost use Rattle.std.specs.Prelude.{List, OnOk, map};
ghost use Rattle.wac_ast_grammar.specs.Tree.{UseItem as ItemTree};
ghost use Rattle.wac_graph_types.specs.declared.kind.ItemKind.TheVariants as kinds;
ghost use Rattle.wac_graph_types.specs.Steps.{Fails};
ghost use Rattle.wac_graph_types.specs.Table.{Names as NamesEntry};
ghost use Rattle.wac_ast_uses.specs.Uses.{use_item_of};
ghost use Rattle.wac_graph.specs.Means.{means};
ghost use Rattle.wac_graph.specs.Origin.{Numbering};
ghost use Rattle.wac_resolution_rules.specs.Bodies.{UsesItem};
ghost use Rattle.wac_resolution_rules.specs.BrokenBodies.{UseItemBroken};
ghost use Rattle.wac_resolution_rules.specs.Errors.{ErrorSays};
ghost use Rattle.wac_resolution_types.specs.Lists.{lists_of};
ghost use Rattle.wac_resolution_types.specs.Bodies.{body_of, IsBody};
ghost use Rattle.wac_resolution_worlds.specs.Used.{UseStep, UseSteps};

use crate::used_item::{UsedInterface, check_use, renamed, used_as, used_kind};
use wac_ast_uses::UseItem;
use wac_graph::{ExternKind, UsedType};
use wac_resolution_errors::Error;
use wac_resolution_state::State;
use wac_resolution_types::Body;

/// Takes a type from an interface.
fn use_item<'a>(
    state: &State,
    body: &mut Body<'a>,
    side: ExternKind,
    used: &UsedInterface<'_>,
    item: &UseItem<'a>,
) -> Result<(), Error>
    requires body { IsBody state.now.graph.types side (lists_of body.old) }
    requires interface { NamesEntry state.now.graph.types (kinds.Instance used.now.interface) }
    ensures ok { OnOk result (UseStep side state.now.graph used.now.interface (lists_of body.old) (lists_of body.new)
        (use_item_of item.now)) }
    ensures err { ErrorSays result (λ e. (numbering : Numbering) (before : List ItemTree)
        → UseItemBroken side (means numbering state.now.graph (kinds.Instance used.now.interface)) used.now.path.now e
        (body_of numbering state.now.graph body.old) before (use_item_of item.now)) }
{
    let kind = used_kind(state, used, item)?;
    check_use(state.alloc, body, side, item)?;
    let name = renamed(state.alloc, item)?;
    let id = used_as(item);
    let interface = used.interface;
    body.add_use(state.alloc, id.string, UsedType { interface, name })?;
    body.bind(state.alloc, side, id, kind)?;
    Ok(())
}

/// Takes types from an interface, in order.
pub(crate) fn use_items<'a>(
    state: &State,
    body: &mut Body<'a>,
    side: ExternKind,
    used: &UsedInterface<'_>,
    items: &[UseItem<'a>],
) -> Result<(), Error>
    requires body { IsBody state.now.graph.types side (lists_of body.old) }
    requires interface { NamesEntry state.now.graph.types (kinds.Instance used.now.interface) }
    ensures ok { OnOk result (UseSteps side state.now.graph used.now.interface (lists_of body.old) (lists_of body.new)
        (map use_item_of items.now)) }
    ensures err { ErrorSays result (λ e. (numbering : Numbering)
        → Fails (UsesItem side (means numbering state.now.graph (kinds.Instance used.now.interface)))
        (UseItemBroken side (means numbering state.now.graph (kinds.Instance used.now.interface)) used.now.path.now e)
        (body_of numbering state.now.graph body.old) (map use_item_of items.now)) }
{
    for item in items {
        use_item(state, body, side, used, item)?;
    }
    Ok(())
}
