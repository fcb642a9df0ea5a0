//! What paths and references resolve to.
ghost use Rattle.std.specs.Prelude.{◌≡◌, IfOk};
ghost use Rattle.std.specs.Str.{bytes_eq};
ghost use Rattle.wac_graph_types.specs.Table.{ItemsNamed};
ghost use Rattle.wac_ast_base.specs.Names.{package_path_of};
ghost use Rattle.wac_ast_uses.specs.Uses.{use_path_of, world_ref_of};
ghost use Rattle.wac_graph.specs.Origin.{Numbering};
ghost use Rattle.wac_resolution_rules.specs.BrokenBodies.{PathBroken, UsePathBroken};
ghost use Rattle.wac_resolution_rules.specs.BrokenWorlds.{WorldRefBroken};
ghost use Rattle.wac_resolution_rules.specs.Errors.{ErrorSays};
ghost use Rattle.wac_resolution_rules.specs.Paths.{LeadsTo, UseNames, WorldNames};
ghost use Rattle.wac_resolution_state.specs.Bindings.{values_of};
ghost use Rattle.wac_resolution_state.specs.Named.{scope_of};
ghost use Rattle.wac_resolution_state.specs.Expands.{AllSupplied, Found};
ghost use Rattle.wac_resolution_state.specs.Context.{packages_in, context_of};

use crate::context::Context;
use crate::foreign::foreign_path;
use crate::own::own_path;
use crate::{Names, State, kind_of};
use wac_ast_base::PackagePath;
use wac_ast_uses::{UsePath, WorldRef};
use wac_graph::ItemKind;
use wac_resolution_errors::Error;

/// Whether a path is of the document's own package.
fn is_own(context: &Context<'_>, path: &PackagePath<'_>) -> bool
    ensures { result ≡ bytes_eq path.now.name.now context.now.own.now }
{
    path.name == context.own
}

/// What a path resolves to.
pub fn path(
    state: &mut State,
    context: &Context<'_>,
    root: &Names<'_, ItemKind>,
    path: &PackagePath<'_>,
) -> Result<ItemKind, Error>
    requires root { ItemsNamed state.old.graph.types (values_of root.now) }
    requires supplied { AllSupplied (packages_in context.now) state.old.graph }
    ensures ok { IfOk result (λ k. Found (packages_in context.now) state.old.graph state.new.graph
        (λ numbering m. LeadsTo (context_of numbering context.now)
        (scope_of numbering state.old.graph (values_of root.now)) (package_path_of path.now) m) k) }
    ensures err { ErrorSays result (λ e. (numbering : Numbering)
        → PathBroken (context_of numbering context.now) (scope_of numbering state.old.graph (values_of root.now))
        (package_path_of path.now) e) }
{
    if is_own(context, path) {
        return own_path(state, root, path);
    }
    foreign_path(state, context, path)
}

/// What is used: at root, or of a package.
pub fn use_path(
    state: &mut State,
    context: &Context<'_>,
    root: &Names<'_, ItemKind>,
    path: &UsePath<'_>,
) -> Result<ItemKind, Error>
    requires root { ItemsNamed state.old.graph.types (values_of root.now) }
    requires supplied { AllSupplied (packages_in context.now) state.old.graph }
    ensures ok { IfOk result (λ k. Found (packages_in context.now) state.old.graph state.new.graph
        (λ numbering m. UseNames (context_of numbering context.now)
        (scope_of numbering state.old.graph (values_of root.now)) (use_path_of path.now) m) k) }
    ensures err { ErrorSays result (λ e. (numbering : Numbering)
        → UsePathBroken (context_of numbering context.now) (scope_of numbering state.old.graph (values_of root.now))
        (use_path_of path.now) e) }
{
    match path {
        UsePath::Package(package) => crate::paths::path(state, context, root, package),
        UsePath::Ident(id) => kind_of(state.alloc, root, id),
    }
}

/// What a reference to a world resolves to.
pub fn world_ref(
    state: &mut State,
    context: &Context<'_>,
    root: &Names<'_, ItemKind>,
    world: &WorldRef<'_>,
) -> Result<ItemKind, Error>
    requires root { ItemsNamed state.old.graph.types (values_of root.now) }
    requires supplied { AllSupplied (packages_in context.now) state.old.graph }
    ensures ok { IfOk result (λ k. Found (packages_in context.now) state.old.graph state.new.graph
        (λ numbering m. WorldNames (context_of numbering context.now)
        (scope_of numbering state.old.graph (values_of root.now)) (world_ref_of world.now) m) k) }
    ensures err { ErrorSays result (λ e. (numbering : Numbering)
        → WorldRefBroken (context_of numbering context.now) (scope_of numbering state.old.graph (values_of root.now))
        (world_ref_of world.now) e) }
{
    match world {
        WorldRef::Package(package) => path(state, context, root, package),
        WorldRef::Ident(id) => kind_of(state.alloc, root, id),
    }
}
