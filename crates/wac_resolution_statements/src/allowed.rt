//! What a world allows.
ghost use Rattle.std.specs.Prelude.{◌≡◌, IfSome, option_map};
ghost use Rattle.wac_graph_types.specs.Table.{Names};
ghost use Rattle.wac_graph.specs.Means.{means, entry_means};
ghost use Rattle.wac_graph.specs.Origin.{Numbering};
ghost use Rattle.wac_resolution_rules.specs.Target.{allowed as allowed_by};
ghost use Rattle.wac_resolution_statements.specs.Used.{allowed_kind};

use crate::used::used_under;
use wac_graph::{ItemKind, Types, WorldId};
use wac_resolution_state::State;

/// What a world allows under a name, as its entry says: the interface that is used, else its own import.
fn written(types: &Types, world: WorldId, name: &str) -> Option<ItemKind>
    ensures { result ≡ allowed_kind types.now world.0 name.now }
{
    match used_under(types, world, name) {
        Some(interface) => Some(ItemKind::Instance(interface)),
        None => types.import(world, name),
    }
}

/// What a world allows to be imported under a name.
pub(crate) fn allowed(state: &State, world: WorldId, name: &str) -> Option<ItemKind>
    requires { Names state.now.graph.types (ItemKind.Component world) }
    ensures means { (numbering : Numbering)
        → option_map (means numbering state.now.graph) result
        ≡ allowed_by (entry_means numbering state.now.graph world.0) name.now }
    ensures named { IfSome result (Names state.now.graph.types) }
{
    let types = state.graph.types();
    written(types, world, name)
}
