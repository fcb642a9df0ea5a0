//! Where arguments are.
ghost use Rattle.std.specs.Prelude.{◌≡◌, option_map};
ghost use Rattle.wac_ast_grammar.specs.Tree.{InstantiationArgument as ArgumentTree};
ghost use Rattle.wac_graph_types.specs.Table.{Names};
ghost use Rattle.wac_ast_base.specs.Names.{ident_of};
ghost use Rattle.wac_ast_statements.specs.Expressions.{argument_of};
ghost use Rattle.wac_graph.specs.Origin.{Numbering};
ghost use Rattle.wac_resolution_rules.specs.BrokenExpressions.{argument_place};
ghost use Rattle.wac_resolution_state.specs.Root.{composed, Agrees};
ghost use Rattle.wac_resolution_expressions.specs.AtMostOne.{at_most_one};
ghost use Rattle.wac_resolution_expressions.specs.Spreads.{imports_at};

use crate::meant::{inferred_import, written_import};
use wac_ast_base::Ident;
use wac_ast_statements::InstantiationArgument;
use wac_graph::{ItemKind, WorldId};
use wac_lexer::SourceSpan;
use wac_resolution_state::{Root, State};

/// The name for which the node of an identifier is given, and its place.
fn inferred_place<'x>(
    state: &'x State,
    root: &Root<'_>,
    world: WorldId,
    id: &'x Ident<'_>,
) -> Option<(&'x str, SourceSpan)>
    requires agrees { Agrees state.now.graph root.now }
    requires world { Names state.now.graph.types (ItemKind.Component world) }
    ensures { (numbering : Numbering)
        → argument_place (composed numbering state.now.graph root.now) (imports_at numbering state.now.graph world)
        (ArgumentTree.inferred (ident_of id.now)) ≡ at_most_one (option_map (λ p. (p.0.now, p.1)) result) }
{
    match root.nodes.find(id.string) {
        Some(node) => {
            let name = inferred_import(state, world, id.string, node);
            Some((name, id.span))
        }
        None => None,
    }
}

/// The name for which an argument is given, and its place; none for a spread or `...`.
pub fn own_place<'x>(
    argument: &'x InstantiationArgument<'_>,
    state: &'x State,
    root: &Root<'_>,
    world: WorldId,
) -> Option<(&'x str, SourceSpan)>
    requires agrees { Agrees state.now.graph root.now }
    requires world { Names state.now.graph.types (ItemKind.Component world) }
    ensures { (numbering : Numbering)
        → argument_place (composed numbering state.now.graph root.now) (imports_at numbering state.now.graph world)
        (argument_of argument.now) ≡ at_most_one (option_map (λ p. (p.0.now, p.1)) result) }
{
    match argument {
        InstantiationArgument::Inferred(id) => inferred_place(state, root, world, id),
        InstantiationArgument::Spread(_) => None,
        InstantiationArgument::Named(named) => {
            let name = written_import(state, world, &named.name);
            Some((name, named.name.span()))
        }
        InstantiationArgument::Fill(_) => None,
    }
}
