//! The world of a target.
ghost use Rattle.std.specs.Prelude.{◌≡◌, IfOk};
ghost use Rattle.wac_ast_base.specs.Names.{package_path_of};
ghost use Rattle.wac_graph.specs.Graph.{Parts};
ghost use Rattle.wac_graph.specs.Means.{means};
ghost use Rattle.wac_graph.specs.Origin.{Numbering};
ghost use Rattle.wac_resolution_rules.specs.BrokenStatements.{IsNotWorld};
ghost use Rattle.wac_resolution_rules.specs.Errors.{ErrorSays};

use std::alloc::Global;
use wac_ast_base::PackagePath;
use wac_graph::{ItemKind, Type, WorldId};
use wac_resolution_errors::Error;

/// The world of a kind that is a world type.
#[tactic(auto, using(crate::proofs::Worlds::worlds_found))]
pub(crate) fn world_of(
    alloc: Global,
    kind: ItemKind,
    path: &PackagePath<'_>,
) -> Result<WorldId, Error>
    ensures ok { IfOk result (λ w. kind ≡ ItemKind.Ty (Type.World w)) }
    ensures err { ErrorSays result (λ e. (numbering : Numbering) (g : Parts)
        → IsNotWorld (package_path_of path.now) (means numbering g kind) e) }
{
    match kind {
        ItemKind::Ty(Type::World(world)) => Ok(world),
        other => Err(Error::NotWorld {
            name: String::from_str(alloc, path.string)?,
            kind: other.desc(),
            span: path.span,
        }),
    }
}
