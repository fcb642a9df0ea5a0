//! Interfaces that a world and its imports use.
ghost use Rattle.std.specs.Prelude.{◌≡◌, [], ◌∷◌, flat_map};
ghost use Rattle.std.specs.Option.{option_or};
ghost use Rattle.wac_graph_types.specs.Names.{by_name};
ghost use Rattle.wac_resolution_statements.specs.Used.{has_id as id_is, interfaces_in, import_uses, used_in, last_of};

use indexmap::IndexMap;
use wac_graph::{InterfaceId, ItemKind, Types, UsedType, WorldId};

/// Whether an interface has this id.
fn has_id(types: &Types, interface: InterfaceId, id: &str) -> bool
    ensures { result ≡ id_is types.now id.now interface }
{
    match types.interface(interface) {
        Some(interface) => match &interface.id {
            Some(name) => id == name.as_str(),
            None => false,
        },
        None => false,
    }
}

/// The interface if it has this id, else the one that was found before.
#[tactic(auto, using(crate::proofs::Last::ones_found))]
fn found_or(
    types: &Types,
    interface: InterfaceId,
    id: &str,
    before: Option<InterfaceId>,
) -> Option<InterfaceId>
    ensures { result ≡ option_or (last_of types.now id.now (interface ∷ [])) before }
{
    if has_id(types, interface, id) {
        return Some(interface);
    }
    before
}

/// The last interface of an id among those that are used, else the one that was found before.
fn last_used(
    types: &Types,
    uses: &IndexMap<String, UsedType>,
    id: &str,
    before: Option<InterfaceId>,
) -> Option<InterfaceId>
    ensures { result ≡ option_or (last_of types.now id.now (interfaces_in (by_name uses.now.entries))) before }
{
    let mut last = before;
    for (_, used) in uses.iter() {
        last = found_or(types, used.interface, id, last);
    }
    last
}

/// The same among those that an import uses.
fn last_used_by(
    types: &Types,
    import: ItemKind,
    id: &str,
    before: Option<InterfaceId>,
) -> Option<InterfaceId>
    ensures { result ≡ option_or (last_of types.now id.now (import_uses types.now import)) before }
{
    match import {
        ItemKind::Instance(interface) => match types.interface(interface) {
            Some(interface) => last_used(types, &interface.uses, id, before),
            None => before,
        },
        _ => before,
    }
}

/// The same among those that imports use.
fn last_used_by_imports(
    types: &Types,
    imports: &IndexMap<String, ItemKind>,
    id: &str,
    before: Option<InterfaceId>,
) -> Option<InterfaceId>
    ensures { result ≡ option_or
        (last_of types.now id.now
        (flat_map (λ e. import_uses types.now e.1) (by_name imports.now.entries))) before }
{
    let mut last = before;
    for (_, import) in imports.iter() {
        last = last_used_by(types, *import, id, last);
    }
    last
}

/// The last interface of an id among those that a world uses, and after them those that its imports use.
pub(crate) fn used_under(types: &Types, world: WorldId, id: &str) -> Option<InterfaceId>
    ensures { result ≡ last_of types.now id.now (used_in types.now world.0) }
{
    let world = types.world(world)?;
    let used = last_used(types, &world.uses, id, None);
    last_used_by_imports(types, &world.imports, id, used)
}
