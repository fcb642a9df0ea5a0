//! Paths of the document's own package.
ghost use Rattle.std.specs.Prelude.{◌≡◌, IfOk};
ghost use Rattle.wac_graph_types.specs.Shape.{described};
ghost use Rattle.wac_graph_types.specs.Table.{ItemsNamed};
ghost use Rattle.wac_ast_base.specs.Names.{package_path_of};
ghost use Rattle.wac_graph.specs.Graph.{Parts};
ghost use Rattle.wac_graph.specs.Means.{means};
ghost use Rattle.wac_graph.specs.Origin.{Numbering};
ghost use Rattle.wac_resolution_errors.specs.Error.{package_path_missing_export};
ghost use Rattle.wac_resolution_errors.specs.ErrorModel.{error_model};
ghost use Rattle.wac_resolution_rules.specs.BrokenBodies.{OwnPathBroken};
ghost use Rattle.wac_resolution_rules.specs.Errors.{ErrorSays};
ghost use Rattle.wac_resolution_rules.specs.Paths.{segments_of};
ghost use Rattle.wac_resolution_state.specs.Bindings.{values_of};
ghost use Rattle.wac_resolution_state.specs.Named.{scope_of};
ghost use Rattle.wac_resolution_state.specs.Segments.{SegmentsLead};

use crate::members::{Missing, members};
use crate::{Names, State, kind_of};
use std::alloc::{AllocError, Global};
use wac_ast_base::{Ident, PackagePath};
use wac_graph::ItemKind;
use wac_resolution_errors::Error;

/// What is reported of a segment that is not exported.
fn not_exported(alloc: Global, missing: Missing<'_>) -> Result<Error, AllocError>
    ensures { IfOk result (λ e. (numbering : Numbering) (g : Parts)
        → error_model e ≡ package_path_missing_export missing.entry.last.now
        (described (means numbering g missing.entry.kind)) missing.entry.segment.now missing.entry.span) }
{
    Ok(Error::PackagePathMissingExport {
        name: String::from_str(alloc, missing.last)?,
        kind: missing.kind.desc(),
        export: String::from_str(alloc, missing.segment)?,
        span: missing.span,
    })
}

/// What a path resolves to among the names at root.
pub fn own_path(
    state: &State,
    root: &Names<'_, ItemKind>,
    path: &PackagePath<'_>,
) -> Result<ItemKind, Error>
    requires { ItemsNamed state.now.graph.types (values_of root.now) }
    ensures ok { IfOk result (λ k. SegmentsLead state.now.graph (values_of root.now) (package_path_of path.now) k) }
    ensures err { ErrorSays result (λ e. (numbering : Numbering)
        → OwnPathBroken (scope_of numbering state.now.graph (values_of root.now)) (package_path_of path.now)
        (segments_of (package_path_of path.now)) e) }
{
    let mut rest = path.segment_spans();
    let Some((string, span)) = rest.next() else {
        unreachable!()
    };
    let kind = kind_of(state.alloc, root, &Ident { string, span })?;
    match members(&state.graph, string, kind, rest) {
        Ok(kind) => Ok(kind),
        Err(missing) => Err(not_exported(state.alloc, missing)?),
    }
}
