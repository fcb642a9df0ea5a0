//! Instances of packages.
ghost use Rattle.std.specs.Prelude.{◌<◌, IfOk, IsSome, length};
ghost use Rattle.std.specs.List.{AllByRecursion};
ghost use Rattle.wac_graph_types.specs.Names.{by_name};
ghost use Rattle.wac_graph.specs.Graph.{import_kind};
ghost use Rattle.wac_resolution_expressions.specs.Spreads.{GivenThere};
ghost use Rattle.wac_resolution_expressions.specs.Instances.{MakesInstance};

use indexmap::IndexMap;
use std::alloc::AllocError;
use wac_graph::{NodeId, PackageId};
use wac_resolution_state::State;

/// The instance of a package with these arguments: the next node.
pub fn instantiate(
    state: &mut State,
    package: PackageId,
    given: &IndexMap<String, NodeId>,
) -> Result<NodeId, AllocError>
    requires held { «package».0 < length state.old.graph.packages }
    requires there { GivenThere state.old.graph (by_name given.now.entries) }
    requires imports { AllByRecursion (λ e. IsSome (import_kind state.old.graph «package».0 e.0))
        (by_name given.now.entries) }
    ensures { IfOk result (λ n. MakesInstance state.old.graph state.new.graph «package».0
        (by_name given.now.entries) n.0) }
{
    // Its contract says that no name is given twice.
    let _count = given.len();
    let node = state.graph.add_instantiation(package)?;
    for (name, value) in given.iter() {
        state.graph.set_argument(node, name.as_str(), *value)?;
    }
    // Its contract says that the graph is sound.
    let _nodes = state.graph.nodes();
    Ok(node)
}
