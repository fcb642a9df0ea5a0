//! Imports of a composition, each of which its target allows.
ghost use Rattle.std.specs.Prelude.{◌≡◌, OnOk, IfOk};
ghost use Rattle.wac_graph_types.specs.Names.{by_name};
ghost use Rattle.wac_graph_types.specs.Scope.{look_up};
ghost use Rattle.wac_graph_types.specs.Table.{Names};
ghost use Rattle.wac_ast_base.specs.Names.{package_path_of};
ghost use Rattle.wac_resolution_errors.specs.Error.{import_not_in_target, target_mismatch};
ghost use Rattle.wac_resolution_errors.specs.ErrorModel.{error_model};
ghost use Rattle.wac_resolution_rules.specs.Errors.{ErrorSays};
ghost use Rattle.wac_resolution_rules.specs.Given.{rules_of};
ghost use Rattle.wac_resolution_statements.specs.Imported.{of_node, of_kind};
ghost use Rattle.wac_resolution_statements.specs.Testing.{testing, Allowed, Denied, AllAllowed, SomeDenied};

use crate::allowed::allowed;
use crate::target::{NamedKind, Target, passes};
use indexmap::IndexMap;
use std::alloc::{AllocError, Global};
use wac_graph::names::find;
use wac_graph::{ExternKind, ItemKind, Reason, Rules};
use wac_lexer::SourceSpan;
use wac_resolution_errors::Error;
use wac_resolution_state::State;

/// What is reported of an import that the target does not have.
fn not_in_target(
    alloc: Global,
    target: &Target<'_, '_>,
    name: &str,
    span: Option<SourceSpan>,
) -> Result<Error, AllocError>
    ensures { IfOk result (λ e. error_model e
        ≡ import_not_in_target name.now (package_path_of target.now.path.now).string span) }
{
    Ok(Error::ImportNotInTarget {
        name: String::from_str(alloc, name)?,
        world: String::from_str(alloc, target.path.string)?,
        span,
    })
}

/// An import or an export, by its name.
#[derive(Clone, Copy)]
pub(crate) struct Extern<'n> {
    /// Which of the two.
    pub side: ExternKind,
    /// The name.
    pub name: &'n str,
}

/// What is reported of an import or export that does not fit the target.
pub(crate) fn mismatch(
    alloc: Global,
    target: &Target<'_, '_>,
    tested: &Extern<'_>,
    source: Reason,
    span: Option<SourceSpan>,
) -> Result<Error, AllocError>
    ensures { IfOk result (λ e. error_model e
        ≡ target_mismatch tested.now.side tested.now.name.now (package_path_of target.now.path.now).string source
        span) }
{
    Ok(Error::TargetMismatch {
        kind: tested.side,
        name: String::from_str(alloc, tested.name)?,
        world: String::from_str(alloc, target.path.string)?,
        source,
        span,
    })
}

/// Rejects an import that the target does not allow.
pub(crate) fn check_import<R: Rules>(
    state: &State,
    rules: &R,
    target: &Target<'_, '_>,
    import: &NamedKind<'_>,
    span: Option<SourceSpan>,
) -> Result<(), Error>
    requires world { Names state.now.graph.types (ItemKind.Component target.now.world) }
    requires named { Names state.now.graph.types import.now.kind }
    ensures ok { OnOk result (Allowed (testing state.now.graph (rules_of R.Rules rules.now) target.now)
        (of_kind state.now.graph (import.now.name.now, import.now.kind))) }
    ensures err { ErrorSays result (λ e. Denied (testing state.now.graph (rules_of R.Rules rules.now) target.now)
        (of_kind state.now.graph (import.now.name.now, import.now.kind)) span e) }
{
    let Some(wanted) = allowed(state, target.world, import.name) else {
        return Err(not_in_target(state.alloc, target, import.name, span)?);
    };
    match passes(state, rules, wanted.promote(), import.kind) {
        Ok(()) => Ok(()),
        Err(reason) => {
            let tested = Extern {
                side: ExternKind::Import,
                name: import.name,
            };
            Err(mismatch(state.alloc, target, &tested, reason, span)?)
        }
    }
}

/// Rejects the first import node that the target does not allow. Its place is that of its name.
pub(crate) fn check_imports<R: Rules>(
    state: &State,
    rules: &R,
    target: &Target<'_, '_>,
    places: &IndexMap<String, SourceSpan>,
) -> Result<(), Error>
    requires { Names state.now.graph.types (ItemKind.Component target.now.world) }
    ensures ok { OnOk result (AllAllowed (testing state.now.graph (rules_of R.Rules rules.now) target.now)
        (of_node state.now.graph) state.now.graph.imports) }
    ensures err { ErrorSays result (λ e. SomeDenied (testing state.now.graph (rules_of R.Rules rules.now) target.now)
        (of_node state.now.graph) (λ x. look_up x.0 (by_name places.now.entries)) state.now.graph.imports e) }
{
    for (name, node) in state.graph.imports() {
        let kind = state.graph.kind(node);
        let span = find(places, name);
        check_import(state, rules, target, &NamedKind { name, kind }, span)?;
    }
    Ok(())
}
