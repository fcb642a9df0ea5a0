//! What interfaces and worlds import and export.
ghost use Rattle.std.specs.Prelude.{◌≡◌, [], option_map, unwrap_or};
ghost use Rattle.wac_graph_types.specs.Names.{by_name};
ghost use Rattle.wac_component_rules.specs.Parts.{side_items};

use indexmap::IndexMap;
use wac_graph_types::{Entry, ItemKind};

/// What is compared of interfaces and worlds.
#[derive(Clone, Copy, Debug, PartialEq, Eq)]
pub enum Side {
    Imports,
    Exports,
}

/// What an entry imports or exports, if it is an interface or a world. An interface imports nothing.
pub fn items(entry: &Entry, side: Side) -> Option<&IndexMap<String, ItemKind>>
    ensures { unwrap_or (option_map (λ m. by_name m.now.entries) result) [] ≡ side_items side entry.now }
{
    match (entry, side) {
        (Entry::Interface(interface), Side::Exports) => Some(&interface.exports),
        (Entry::World(world), Side::Exports) => Some(&world.exports),
        (Entry::World(world), Side::Imports) => Some(&world.imports),
        _ => None,
    }
}
