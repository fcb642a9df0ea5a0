//! Whether a composition is what its target requires.
ghost use Rattle.std.specs.Prelude.{◌≡◌, OnOk};
ghost use Rattle.wac_graph_types.specs.Table.{Names};
ghost use Rattle.wac_ast_base.specs.Names.{package_path_of};
ghost use Rattle.wac_resolution_rules.specs.Errors.{ErrorSays};
ghost use Rattle.wac_resolution_rules.specs.Find.{names_of};
ghost use Rattle.wac_resolution_rules.specs.Given.{rules_of};
ghost use Rattle.wac_resolution_state.specs.Root.{Agrees};
ghost use Rattle.wac_resolution_state.specs.Expands.{AllSupplied};
ghost use Rattle.wac_resolution_state.specs.Context.{packages_in};
ghost use Rattle.wac_resolution_statements.specs.Externs.{imported_in, exported_in};
ghost use Rattle.wac_resolution_statements.specs.Outcome.{WorldMet, WorldUnmet, Meets, Unmeets};
ghost use Rattle.wac_resolution_statements.specs.Testing.{testing};

use crate::Externs;
use crate::open::check_open_imports;
use crate::target::Target;
use crate::target_exports::check_exports;
use crate::target_imports::check_imports;
use crate::target_world::world_of;
use wac_ast_base::PackagePath;
use wac_graph::{ItemKind, Rules};
use wac_resolution_errors::Error;
use wac_resolution_state::{Scope, State, path};

/// Rejects a composition that a world does not allow, or that does not meet its exports.
fn check_world<R: Rules>(
    state: &State,
    rules: &R,
    target: &Target<'_, '_>,
    externs: &Externs,
) -> Result<(), Error>
    requires world { Names state.now.graph.types (ItemKind.Component target.now.world) }
    requires placed { names_of (exported_in externs.now) ≡ names_of state.now.graph.exports }
    ensures ok { OnOk result (WorldMet (testing state.now.graph (rules_of R.Rules rules.now) target.now)) }
    ensures err { ErrorSays result (λ e. WorldUnmet (testing state.now.graph (rules_of R.Rules rules.now) target.now)
        (imported_in externs.now) (exported_in externs.now) e) }
{
    check_imports(state, rules, target, &externs.imported)?;
    check_open_imports(state, rules, target)?;
    check_exports(state, rules, target, &externs.exported)
}

/// Rejects a composition that is not what its target requires.
pub fn check_target<R: Rules>(
    state: &mut State,
    scope: &Scope<'_, '_, R>,
    externs: &Externs,
    target: &PackagePath<'_>,
) -> Result<(), Error>
    requires agrees { Agrees state.old.graph scope.now.root.now }
    requires supplied { AllSupplied (packages_in scope.now.context.now) state.old.graph }
    requires placed { names_of (exported_in externs.now) ≡ names_of state.old.graph.exports }
    ensures ok { OnOk result (Meets scope.now.context.now (rules_of R.Rules scope.now.rules.now) state.old.graph
        state.new.graph scope.now.root.now (package_path_of target.now)) }
    ensures err { ErrorSays result (λ e. Unmeets scope.now.context.now (rules_of R.Rules scope.now.rules.now)
        state.old.graph scope.now.root.now (package_path_of target.now) (imported_in externs.now)
        (exported_in externs.now) e) }
{
    let kind = path(state, scope.context, &scope.root.kinds, target)?;
    let world = world_of(state.alloc, kind, target)?;
    // Their contracts say that the graph is sound, and what the entries of its table mean.
    let _nodes = state.graph.nodes();
    let _types = state.graph.types();
    let target = Target {
        path: target,
        world,
    };
    check_world(state, scope.rules, &target, externs)
}
