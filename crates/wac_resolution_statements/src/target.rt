//! A target, and kinds that are compared for it.
ghost use Rattle.wac_graph_types.specs.Rules.{Answers};
ghost use Rattle.wac_graph_types.specs.Table.{Names};
ghost use Rattle.wac_graph.specs.Means.{means};
ghost use Rattle.wac_graph.specs.Origin.{Numbering, IsOneToOne};

use wac_ast_base::PackagePath;
use wac_graph::{ItemKind, Reason, Rules, WorldId};
use wac_resolution_state::State;

/// What a composition is compared with: a path, and the world that it resolves to.
#[derive(Clone, Copy)]
pub(crate) struct Target<'x, 'a> {
    /// The path.
    pub path: &'x PackagePath<'a>,
    /// The world.
    pub world: WorldId,
}

/// A name, and the kind of what is imported or exported under it.
#[derive(Clone, Copy)]
pub(crate) struct NamedKind<'n> {
    /// The name.
    pub name: &'n str,
    /// The kind.
    pub kind: ItemKind,
}

/// Whether the first fits where the second is expected.
pub(crate) fn passes<R: Rules>(
    state: &State,
    rules: &R,
    a: ItemKind,
    b: ItemKind,
) -> Result<(), Reason>
    requires first { Names state.now.graph.types a }
    requires second { Names state.now.graph.types b }
    ensures { (numbering : Numbering) → IsOneToOne numbering
        → Answers result (R.passes rules.now (means numbering state.now.graph a) (means numbering state.now.graph b)) }
{
    let types = state.graph.types();
    rules.subtype(types, a, b)
}
