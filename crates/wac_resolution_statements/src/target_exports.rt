//! Exports that a target requires.
ghost use Rattle.std.specs.Prelude.{◌≡◌, OnOk, IfOk};
ghost use Rattle.wac_graph_types.specs.Names.{by_name};
ghost use Rattle.wac_graph_types.specs.Readings.{world_exports};
ghost use Rattle.wac_graph_types.specs.Table.{Names, ItemsNamed};
ghost use Rattle.wac_graph_types.specs.Words.{described};
ghost use Rattle.wac_ast_base.specs.Names.{package_path_of};
ghost use Rattle.wac_resolution_errors.specs.Error.{missing_target_export};
ghost use Rattle.wac_resolution_errors.specs.ErrorModel.{error_model};
ghost use Rattle.wac_resolution_rules.specs.Errors.{ErrorSays};
ghost use Rattle.wac_resolution_rules.specs.Find.{names_of};
ghost use Rattle.wac_resolution_rules.specs.Given.{rules_of};
ghost use Rattle.wac_resolution_statements.specs.Imported.{of_kind};
ghost use Rattle.wac_resolution_statements.specs.Testing.{testing, Met, Unmet, AllMet, SomeUnmet};

use crate::target::{NamedKind, Target, passes};
use crate::target_imports::{Extern, mismatch};
use indexmap::IndexMap;
use std::alloc::{AllocError, Global};
use wac_graph::names::find;
use wac_graph::{ExternKind, ItemKind, Rules};
use wac_lexer::SourceSpan;
use wac_resolution_errors::Error;
use wac_resolution_state::State;

/// What is reported of an export of the target that the composition does not have.
fn missing(
    alloc: Global,
    target: &Target<'_, '_>,
    export: &NamedKind<'_>,
) -> Result<Error, AllocError>
    ensures { IfOk result (λ e. error_model e
        ≡ missing_target_export export.now.name.now (package_path_of target.now.path.now).string
        (described export.now.kind) (package_path_of target.now.path.now).span) }
{
    Ok(Error::MissingTargetExport {
        name: String::from_str(alloc, export.name)?,
        world: String::from_str(alloc, target.path.string)?,
        kind: export.kind.desc(),
        span: target.path.span,
    })
}

/// Rejects an export of the target that the composition does not meet.
fn check_export<R: Rules>(
    state: &State,
    rules: &R,
    target: &Target<'_, '_>,
    places: &IndexMap<String, SourceSpan>,
    export: &NamedKind<'_>,
) -> Result<(), Error>
    requires named { Names state.now.graph.types export.now.kind }
    requires placed { names_of (by_name places.now.entries) ≡ names_of state.now.graph.exports }
    ensures ok { OnOk result (Met (testing state.now.graph (rules_of R.Rules rules.now) target.now)
        (of_kind state.now.graph (export.now.name.now, export.now.kind))) }
    ensures err { ErrorSays result (λ e. Unmet (testing state.now.graph (rules_of R.Rules rules.now) target.now)
        (by_name places.now.entries) (of_kind state.now.graph (export.now.name.now, export.now.kind)) e) }
{
    let Some(node) = state.graph.get_export(export.name) else {
        return Err(missing(state.alloc, target, export)?);
    };
    let exported = state.graph.kind(node);
    match passes(state, rules, exported, export.kind.promote()) {
        Ok(()) => Ok(()),
        Err(reason) => {
            let tested = Extern {
                side: ExternKind::Export,
                name: export.name,
            };
            Err(mismatch(
                state.alloc,
                target,
                &tested,
                reason,
                find(places, export.name),
            )?)
        }
    }
}

/// Rejects the first of these exports that the composition does not meet.
fn check_each<R: Rules>(
    state: &State,
    rules: &R,
    target: &Target<'_, '_>,
    places: &IndexMap<String, SourceSpan>,
    exports: &IndexMap<String, ItemKind>,
) -> Result<(), Error>
    requires named { ItemsNamed state.now.graph.types (by_name exports.now.entries) }
    requires placed { names_of (by_name places.now.entries) ≡ names_of state.now.graph.exports }
    ensures ok { OnOk result (AllMet (testing state.now.graph (rules_of R.Rules rules.now) target.now)
        (of_kind state.now.graph) (by_name exports.now.entries)) }
    ensures err { ErrorSays result (λ e. SomeUnmet (testing state.now.graph (rules_of R.Rules rules.now) target.now)
        (by_name places.now.entries) (of_kind state.now.graph) (by_name exports.now.entries) e) }
{
    for (name, kind) in exports.iter() {
        let export = NamedKind {
            name: name.as_str(),
            kind: *kind,
        };
        check_export(state, rules, target, places, &export)?;
    }
    Ok(())
}

/// Rejects the first export of the target's world that the composition does not meet.
pub(crate) fn check_exports<R: Rules>(
    state: &State,
    rules: &R,
    target: &Target<'_, '_>,
    places: &IndexMap<String, SourceSpan>,
) -> Result<(), Error>
    requires { names_of (by_name places.now.entries) ≡ names_of state.now.graph.exports }
    ensures ok { OnOk result (AllMet (testing state.now.graph (rules_of R.Rules rules.now) target.now)
        (of_kind state.now.graph) (world_exports state.now.graph.types target.now.world.0)) }
    ensures err { ErrorSays result (λ e. SomeUnmet (testing state.now.graph (rules_of R.Rules rules.now) target.now)
        (by_name places.now.entries) (of_kind state.now.graph)
        (world_exports state.now.graph.types target.now.world.0) e) }
{
    let types = state.graph.types();
    match types.exports(ItemKind::Component(target.world)) {
        Some(exports) => check_each(state, rules, target, places, exports),
        None => Ok(()),
    }
}
