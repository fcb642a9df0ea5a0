//! Imports that instances of packages leave open, each of which the target allows.
ghost use Rattle.std.specs.Prelude.{◌<◌, [], ◌∷◌, OnOk, length, flat_map};
ghost use Rattle.wac_graph_types.specs.Names.{by_name};
ghost use Rattle.wac_graph_types.specs.Table.{Names, ItemsNamed};
ghost use Rattle.wac_graph.specs.Graph.{arguments_of};
ghost use Rattle.wac_graph.specs.Numbers.{numbers};
ghost use Rattle.wac_resolution_rules.specs.Errors.{ErrorSays};
ghost use Rattle.wac_resolution_rules.specs.Given.{rules_of};
ghost use Rattle.wac_resolution_statements.specs.Imported.{of_kind, left_open, package_imports, open_at};
ghost use Rattle.wac_resolution_statements.specs.Testing.{testing, AllAllowed, SomeDenied, nowhere};

use crate::target::{NamedKind, Target};
use crate::target_imports::check_import;
use indexmap::IndexMap;
use wac_graph::{ItemKind, NodeId, PackageId, Rules};
use wac_resolution_errors::Error;
use wac_resolution_state::State;

/// Rejects an import of an instance that the target does not allow, unless there is an argument for it.
fn check_open_import<R: Rules>(
    state: &State,
    rules: &R,
    target: &Target<'_, '_>,
    node: NodeId,
    import: &NamedKind<'_>,
) -> Result<(), Error>
    requires world { Names state.now.graph.types (ItemKind.Component target.now.world) }
    requires named { Names state.now.graph.types import.now.kind }
    requires there { node.0 < length state.now.graph.nodes }
    ensures ok { OnOk result (AllAllowed (testing state.now.graph (rules_of R.Rules rules.now) target.now)
        (of_kind state.now.graph)
        (left_open (arguments_of state.now.graph node.0) ((import.now.name.now, import.now.kind) ∷ []))) }
    ensures err { ErrorSays result (λ e. SomeDenied (testing state.now.graph (rules_of R.Rules rules.now) target.now)
        (of_kind state.now.graph) nowhere
        (left_open (arguments_of state.now.graph node.0) ((import.now.name.now, import.now.kind) ∷ [])) e) }
{
    match state.graph.argument(node, import.name) {
        Some(_) => Ok(()),
        None => check_import(state, rules, target, import, None),
    }
}

/// Rejects the first import that an instance leaves open and the target does not allow.
fn check_left_open<R: Rules>(
    state: &State,
    rules: &R,
    target: &Target<'_, '_>,
    node: NodeId,
    imports: &IndexMap<String, ItemKind>,
) -> Result<(), Error>
    requires world { Names state.now.graph.types (ItemKind.Component target.now.world) }
    requires named { ItemsNamed state.now.graph.types (by_name imports.now.entries) }
    requires there { node.0 < length state.now.graph.nodes }
    ensures ok { OnOk result (AllAllowed (testing state.now.graph (rules_of R.Rules rules.now) target.now)
        (of_kind state.now.graph) (left_open (arguments_of state.now.graph node.0) (by_name imports.now.entries))) }
    ensures err { ErrorSays result (λ e. SomeDenied (testing state.now.graph (rules_of R.Rules rules.now) target.now)
        (of_kind state.now.graph) nowhere
        (left_open (arguments_of state.now.graph node.0) (by_name imports.now.entries)) e) }
{
    for (name, kind) in imports.iter() {
        let import = NamedKind {
            name: name.as_str(),
            kind: *kind,
        };
        check_open_import(state, rules, target, node, &import)?;
    }
    Ok(())
}

/// Rejects what an instance of a package leaves open and the target does not allow.
fn check_instance<R: Rules>(
    state: &State,
    rules: &R,
    target: &Target<'_, '_>,
    node: NodeId,
    package: PackageId,
) -> Result<(), Error>
    requires world { Names state.now.graph.types (ItemKind.Component target.now.world) }
    requires there { node.0 < length state.now.graph.nodes }
    requires held { «package».0 < length state.now.graph.packages }
    ensures ok { OnOk result (AllAllowed (testing state.now.graph (rules_of R.Rules rules.now) target.now)
        (of_kind state.now.graph)
        (left_open (arguments_of state.now.graph node.0) (package_imports state.now.graph «package».0))) }
    ensures err { ErrorSays result (λ e. SomeDenied (testing state.now.graph (rules_of R.Rules rules.now) target.now)
        (of_kind state.now.graph) nowhere
        (left_open (arguments_of state.now.graph node.0) (package_imports state.now.graph «package».0)) e) }
{
    let held = state.graph.package(package);
    let types = state.graph.types();
    match types.imports(held.world) {
        Some(imports) => check_left_open(state, rules, target, node, imports),
        None => Ok(()),
    }
}

/// Rejects what a node leaves open and the target does not allow.
fn check_node<R: Rules>(
    state: &State,
    rules: &R,
    target: &Target<'_, '_>,
    node: NodeId,
) -> Result<(), Error>
    requires world { Names state.now.graph.types (ItemKind.Component target.now.world) }
    requires there { node.0 < length state.now.graph.nodes }
    ensures ok { OnOk result (AllAllowed (testing state.now.graph (rules_of R.Rules rules.now) target.now)
        (of_kind state.now.graph) (open_at state.now.graph node.0)) }
    ensures err { ErrorSays result (λ e. SomeDenied (testing state.now.graph (rules_of R.Rules rules.now) target.now)
        (of_kind state.now.graph) nowhere (open_at state.now.graph node.0) e) }
{
    match state.graph.instance_of(node) {
        Some(package) => check_instance(state, rules, target, node, package),
        None => Ok(()),
    }
}

/// Rejects the first import that an instance of a package leaves open and the target does not allow.
pub(crate) fn check_open_imports<R: Rules>(
    state: &State,
    rules: &R,
    target: &Target<'_, '_>,
) -> Result<(), Error>
    requires { Names state.now.graph.types (ItemKind.Component target.now.world) }
    ensures ok { OnOk result (AllAllowed (testing state.now.graph (rules_of R.Rules rules.now) target.now)
        (of_kind state.now.graph) (flat_map (open_at state.now.graph) (numbers 0 (length state.now.graph.nodes)))) }
    ensures err { ErrorSays result (λ e. SomeDenied (testing state.now.graph (rules_of R.Rules rules.now) target.now)
        (of_kind state.now.graph) nowhere
        (flat_map (open_at state.now.graph) (numbers 0 (length state.now.graph.nodes))) e) }
{
    for node in state.graph.nodes() {
        check_node(state, rules, target, node)?;
    }
    Ok(())
}
