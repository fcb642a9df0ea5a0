//! The target of a document.
ghost use Rattle.std.specs.Prelude.{OnOk, option_map};
ghost use Rattle.wac_ast_base.specs.Names.{package_path_of};
ghost use Rattle.wac_resolution_rules.specs.Errors.{ErrorSays};
ghost use Rattle.wac_resolution_rules.specs.Given.{rules_of};
ghost use Rattle.wac_resolution_statements.specs.Statements.{Stand};
ghost use Rattle.wac_resolution.specs.Steps.{MeetsIn, MissesIn};

use wac_ast::PackagePath;
use wac_graph::Rules;
use wac_resolution_errors::Error;
use wac_resolution_state::{Scope, State};
use wac_resolution_statements::{Externs, check_target};

/// Rejects a composition that is not what its target requires, if it has one.
pub(crate) fn check_targets<R: Rules>(
    state: &mut State,
    scope: &Scope<'_, '_, R>,
    externs: &Externs,
    targets: &Option<PackagePath<'_>>,
) -> Result<(), Error>
    requires { Stand scope.now.context.now state.old.graph scope.now.root.now externs.now }
    ensures ok { OnOk result (MeetsIn scope.now.context.now (rules_of R.Rules scope.now.rules.now) state.old.graph
        state.new.graph scope.now.root.now (option_map package_path_of targets.now)) }
    ensures err { ErrorSays result (λ e. MissesIn scope.now.context.now (rules_of R.Rules scope.now.rules.now)
        state.old.graph scope.now.root.now externs.now (option_map package_path_of targets.now) e) }
{
    match targets {
        Some(target) => check_target(state, scope, externs, target),
        None => Ok(()),
    }
}
