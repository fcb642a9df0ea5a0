//! Where the arguments that aren't spreads are.
ghost use Rattle.std.specs.Prelude.{◌≡◌, [], ◌∷◌, map};
ghost use Rattle.wac_ast_grammar.specs.Tree.{arguments_from};
ghost use Rattle.wac_graph_types.specs.Scope.{look_up};
ghost use Rattle.wac_graph_types.specs.Table.{Names};
ghost use Rattle.wac_ast_statements.specs.Expressions.{argument_of};
ghost use Rattle.wac_graph.specs.Origin.{Numbering};
ghost use Rattle.wac_resolution_rules.specs.BrokenExpressions.{argument_place, own_places as places_of_own};
ghost use Rattle.wac_resolution_state.specs.Root.{composed, Agrees};
ghost use Rattle.wac_resolution_expressions.specs.Spreads.{imports_at};

use crate::own_place::own_place;
use wac_ast_statements::InstantiationArgument;
use wac_graph::{ItemKind, WorldId};
use wac_lexer::SourceSpan;
use wac_resolution_state::{Root, State};

/// The place of a name, if it is this one.
fn if_named(text: &str, span: SourceSpan, name: &str) -> Option<SourceSpan>
    ensures { look_up name.now ((text.now, span) ∷ []) ≡ result }
{
    if name == text { Some(span) } else { None }
}

/// The place of an argument, if it is for this name.
fn place_named<'x>(
    argument: &'x InstantiationArgument<'_>,
    state: &'x State,
    root: &Root<'_>,
    world: WorldId,
    name: &str,
) -> Option<SourceSpan>
    requires agrees { Agrees state.now.graph root.now }
    requires world { Names state.now.graph.types (ItemKind.Component world) }
    ensures { (numbering : Numbering)
        → look_up name.now (argument_place (composed numbering state.now.graph root.now)
        (imports_at numbering state.now.graph world) (argument_of argument.now)) ≡ result }
{
    match own_place(argument, state, root, world) {
        Some(place) => if_named(place.0, place.1, name),
        None => None,
    }
}

/// The place of a name's argument, if it isn't a spread.
pub fn own_places<'x>(
    arguments: &'x [InstantiationArgument<'_>],
    state: &'x State,
    root: &Root<'_>,
    world: WorldId,
    name: &str,
) -> Option<SourceSpan>
    requires agrees { Agrees state.now.graph root.now }
    requires world { Names state.now.graph.types (ItemKind.Component world) }
    ensures { (numbering : Numbering)
        → look_up name.now (places_of_own (composed numbering state.now.graph root.now)
        (imports_at numbering state.now.graph world) (arguments_from (map argument_of arguments.now))) ≡ result }
{
    for argument in arguments {
        match place_named(argument, state, root, world, name) {
            Some(span) => return Some(span),
            None => {}
        }
    }
    None
}
