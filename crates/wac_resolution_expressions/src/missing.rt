//! Imports for which nothing is given.
ghost use Rattle.std.specs.Prelude.{◌≡◌, ℕ, option_map};
ghost use Rattle.wac_graph_types.specs.Meaning.{Meaning};
ghost use Rattle.wac_graph_types.specs.Names.{by_name};
ghost use Rattle.wac_graph_types.specs.Shape.{items_mean};
ghost use Rattle.wac_resolution_rules.specs.Expressions.{left_out};
ghost use Rattle.wac_resolution_expressions.specs.Arguments.{given_nodes, first_name};

use indexmap::IndexMap;
use wac_graph::names::find;
use wac_graph::{ItemKind, NodeId};

/// The first import for which nothing is given.
pub fn missing_import<'x>(
    imports: &'x IndexMap<String, ItemKind>,
    given: &IndexMap<String, NodeId>,
) -> Option<&'x str>
    ensures { (f : ℕ → Meaning)
        → option_map (λ s. s.now) result
        ≡ first_name (left_out (items_mean f (by_name imports.now.entries)) (given_nodes (by_name given.now.entries))) }
{
    for (name, _) in imports.iter() {
        if find(given, name.as_str()).is_none() {
            return Some(name.as_str());
        }
    }
    None
}
