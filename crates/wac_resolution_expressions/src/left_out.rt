//! Imports that are left out.
ghost use Rattle.std.specs.Prelude.{◌≡◌, OnOk, map, option_map};
ghost use Rattle.wac_ast_grammar.specs.Tree.{arguments_from};
ghost use Rattle.wac_graph_types.specs.Names.{by_name};
ghost use Rattle.wac_graph_types.specs.Table.{Names};
ghost use Rattle.wac_ast_base.specs.Names.{package_name_of};
ghost use Rattle.wac_ast_statements.specs.Expressions.{argument_of};
ghost use Rattle.wac_graph.specs.Origin.{Numbering};
ghost use Rattle.wac_resolution_rules.specs.Errors.{ErrorSays};
ghost use Rattle.wac_resolution_rules.specs.Expressions.{is_fill as fills, has_fill as fill_among, left_out as left_among, IsComplete};
ghost use Rattle.wac_resolution_expressions.specs.Arguments.{given_nodes, first_name};
ghost use Rattle.wac_resolution_expressions.specs.Incomplete.{IsIncomplete};
ghost use Rattle.wac_resolution_expressions.specs.Spreads.{imports_at};

use crate::missing::missing_import;
use indexmap::IndexMap;
use wac_ast_base::PackageName;
use wac_ast_statements::InstantiationArgument;
use wac_graph::{ItemKind, NodeId, WorldId};
use wac_resolution_errors::Error;
use wac_resolution_state::State;

/// Whether an argument is `...`.
fn is_fill(argument: &InstantiationArgument<'_>) -> bool
    ensures { result ≡ fills (argument_of argument.now) }
{
    match argument {
        InstantiationArgument::Fill(_) => true,
        _ => false,
    }
}

/// Whether `...` is among the arguments.
fn has_fill(arguments: &[InstantiationArgument<'_>]) -> bool
    ensures { result ≡ fill_among (arguments_from (map argument_of arguments.now)) }
{
    for argument in arguments {
        if is_fill(argument) {
            return true;
        }
    }
    false
}

/// The first import of a world for which nothing is given.
fn left_out<'x>(
    state: &'x State,
    world: WorldId,
    given: &IndexMap<String, NodeId>,
) -> Option<&'x str>
    requires { Names state.now.graph.types (ItemKind.Component world) }
    ensures { (numbering : Numbering)
        → option_map (λ s. s.now) result
        ≡ first_name (left_among (imports_at numbering state.now.graph world)
        (given_nodes (by_name given.now.entries))) }
{
    let types = state.graph.types();
    match types.imports(world) {
        Some(all) => missing_import(all, given),
        None => None,
    }
}

/// Rejects an import that is left out, where there is no `...`.
pub fn check_complete(
    arguments: &[InstantiationArgument<'_>],
    state: &State,
    package: &PackageName<'_>,
    world: WorldId,
    given: &IndexMap<String, NodeId>,
) -> Result<(), Error>
    requires world { Names state.now.graph.types (ItemKind.Component world) }
    ensures ok { OnOk result ((numbering : Numbering)
        → IsComplete (imports_at numbering state.now.graph world)
        (fill_among (arguments_from (map argument_of arguments.now))) (given_nodes (by_name given.now.entries))) }
    ensures err { ErrorSays result (λ e. IsIncomplete state.now.graph world (package_name_of «package».now)
        (arguments_from (map argument_of arguments.now)) (given_nodes (by_name given.now.entries)) e) }
{
    if has_fill(arguments) {
        return Ok(());
    }
    match left_out(state, world, given) {
        Some(name) => Err(Error::MissingInstantiationArg {
            name: String::from_str(state.alloc, name)?,
            package: String::from_str(state.alloc, package.string)?,
            span: package.span,
        }),
        None => Ok(()),
    }
}
