//! Arguments that are spreads.
ghost use Rattle.std.specs.Prelude.{◌≡◌, ◌≢◌, List, IfErr, OnOk, length, map};
ghost use Rattle.wac_ast_grammar.specs.Tree.{Ident as IdentTree, arguments_from};
ghost use Rattle.wac_graph_types.specs.Names.{by_name};
ghost use Rattle.wac_graph_types.specs.Steps.{Steps, Fails};
ghost use Rattle.wac_graph_types.specs.Table.{Names};
ghost use Rattle.wac_ast_base.specs.Names.{ident_of};
ghost use Rattle.wac_ast_statements.specs.Expressions.{argument_of};
ghost use Rattle.wac_graph.specs.Origin.{Numbering};
ghost use Rattle.wac_resolution_errors.specs.Error.{spread_instantiation_no_match};
ghost use Rattle.wac_resolution_errors.specs.ErrorModel.{error_model};
ghost use Rattle.wac_resolution_rules.specs.Expressions.{Spreads, spread_of, spreads_of};
ghost use Rattle.wac_resolution_rules.specs.BrokenExpressions.{SpreadBroken};
ghost use Rattle.wac_resolution_rules.specs.Errors.{ErrorSays};
ghost use Rattle.wac_resolution_state.specs.Root.{numbers_of, Agrees};
ghost use Rattle.wac_resolution_expressions.specs.GivenByNodes.{Gave};
ghost use Rattle.wac_resolution_expressions.specs.Spreads.{giving_of, imports_at, GivenThere};

use crate::spread::spread_from;
use indexmap::IndexMap;
use wac_ast_base::Ident;
use wac_ast_statements::InstantiationArgument;
use wac_graph::{ItemKind, NodeId, WorldId};
use wac_lexer::SourceSpan;
use wac_resolution_errors::{Error, InstanceOperation};
use wac_resolution_state::{Root, State, instance};

/// Rejects a spread that gave nothing: this many arguments were given before it.
fn check_more(
    before: usize,
    given: &IndexMap<String, NodeId>,
    span: SourceSpan,
) -> Result<(), Error>
    ensures ok { OnOk result (length given.now.entries ≢ before) }
    ensures same { IfErr result (λ _. length given.now.entries ≡ before) }
    ensures err { IfErr result (λ e. error_model e ≡ spread_instantiation_no_match span) }
{
    if given.len() == before {
        return Err(Error::SpreadInstantiationNoMatch { span });
    }
    Ok(())
}

/// Gives exports of an instance for the imports for which nothing is given yet. It gives something.
#[tactic(auto, using(wac_resolution_state::proofs::Scopes::memory_model))]
fn spread(
    state: &mut State,
    root: &Root<'_>,
    world: WorldId,
    id: &Ident<'_>,
    given: &mut IndexMap<String, NodeId>,
) -> Result<(), Error>
    requires agrees { Agrees state.old.graph root.now }
    requires there { GivenThere state.old.graph (by_name given.old.entries) }
    requires world { Names state.old.graph.types (ItemKind.Component world) }
    ensures ok { OnOk result (Gave state.old.graph state.new.graph (by_name given.old.entries)
        (by_name given.new.entries) (numbers_of root.now.nodes)
        (λ numbering old new. Spreads (imports_at numbering state.old.graph world) old (ident_of id.now) new)) }
    ensures err { ErrorSays result (λ e. (numbering : Numbering) (before : List IdentTree)
        → SpreadBroken (imports_at numbering state.old.graph world) e
        (giving_of numbering state.old.graph (numbers_of root.now.nodes) (by_name given.old.entries))
        before (ident_of id.now)) }
{
    let node = root.node(state.alloc, id)?;
    instance(state, node, InstanceOperation::Spread, id.span)?;
    let before = given.len();
    spread_from(state, world, node, given)?;
    check_more(before, given, id.span)?;
    Ok(())
}

/// Gives what an argument gives, if it is a spread.
fn spread_argument(
    argument: &InstantiationArgument<'_>,
    state: &mut State,
    root: &Root<'_>,
    world: WorldId,
    given: &mut IndexMap<String, NodeId>,
) -> Result<(), Error>
    requires agrees { Agrees state.old.graph root.now }
    requires there { GivenThere state.old.graph (by_name given.old.entries) }
    requires world { Names state.old.graph.types (ItemKind.Component world) }
    ensures ok { OnOk result (Gave state.old.graph state.new.graph (by_name given.old.entries)
        (by_name given.new.entries) (numbers_of root.now.nodes)
        (λ numbering old new. Steps (Spreads (imports_at numbering state.old.graph world)) old
        (spread_of (argument_of argument.now)) new)) }
    ensures err { ErrorSays result (λ e. (numbering : Numbering)
        → Fails (Spreads (imports_at numbering state.old.graph world))
        (SpreadBroken (imports_at numbering state.old.graph world) e)
        (giving_of numbering state.old.graph (numbers_of root.now.nodes) (by_name given.old.entries))
        (spread_of (argument_of argument.now))) }
{
    match argument {
        InstantiationArgument::Spread(id) => {
            spread(state, root, world, id, given)?;
            Ok(())
        }
        _ => Ok(()),
    }
}

/// Gives what the spreads among the arguments give, in order.
pub fn spreads(
    arguments: &[InstantiationArgument<'_>],
    state: &mut State,
    root: &Root<'_>,
    world: WorldId,
    given: &mut IndexMap<String, NodeId>,
) -> Result<(), Error>
    requires agrees { Agrees state.old.graph root.now }
    requires there { GivenThere state.old.graph (by_name given.old.entries) }
    requires world { Names state.old.graph.types (ItemKind.Component world) }
    ensures ok { OnOk result (Gave state.old.graph state.new.graph (by_name given.old.entries)
        (by_name given.new.entries) (numbers_of root.now.nodes)
        (λ numbering old new. Steps (Spreads (imports_at numbering state.old.graph world)) old
        (spreads_of (arguments_from (map argument_of arguments.now))) new)) }
    ensures err { ErrorSays result (λ e. (numbering : Numbering)
        → Fails (Spreads (imports_at numbering state.old.graph world))
        (SpreadBroken (imports_at numbering state.old.graph world) e)
        (giving_of numbering state.old.graph (numbers_of root.now.nodes) (by_name given.old.entries))
        (spreads_of (arguments_from (map argument_of arguments.now)))) }
{
    for argument in arguments {
        spread_argument(argument, state, root, world, given)?;
    }
    Ok(())
}
