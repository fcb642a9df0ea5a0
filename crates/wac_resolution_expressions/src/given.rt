//! Arguments that are given.
ghost use Rattle.std.specs.Prelude.{◌≡◌, ◌<◌, IfErr, OnOk, length, true, false};
ghost use Rattle.wac_ast_grammar.specs.Tree.{Arguments, InstantiationArgument as ArgumentTree};
ghost use Rattle.wac_ast_grammar.specs.Spans.{argument_name_span};
ghost use Rattle.wac_graph_types.specs.Names.{by_name};
ghost use Rattle.wac_graph_types.specs.Scope.{IsFresh, with_named};
ghost use Rattle.wac_graph_types.specs.Shape.{imports_of};
ghost use Rattle.wac_graph_types.specs.Table.{Names};
ghost use Rattle.wac_ast_base.specs.Names.{ident_of};
ghost use Rattle.wac_ast_statements.specs.Expressions.{argument_name_of};
ghost use Rattle.wac_graph.specs.Origin.{Numbering};
ghost use Rattle.wac_resolution_errors.specs.ErrorModel.{error_model};
ghost use Rattle.wac_resolution_rules.specs.BrokenExpressions.{ArgumentBroken, IsFillNotLast};
ghost use Rattle.wac_resolution_rules.specs.Errors.{ErrorSays};
ghost use Rattle.wac_resolution_rules.specs.Expressions.{GivesOne, IsEmpty, name_meant};
ghost use Rattle.wac_resolution_rules.specs.Given.{Given};
ghost use Rattle.wac_resolution_state.specs.Root.{numbers_of, Agrees};
ghost use Rattle.wac_resolution_expressions.specs.GivenByNodes.{Gave};
ghost use Rattle.wac_resolution_expressions.specs.Spreads.{giving_of, imports_at, GivenThere};
ghost use Rattle.wac_resolution_expressions.specs.Giving.{is_none, GivesNode, IsGiven, GivesFor, IsGivenFor};

use crate::meant::{inferred_name, written_name};
use indexmap::IndexMap;
use std::alloc::Global;
use wac_ast_base::Ident;
use wac_ast_statements::InstantiationArgumentName;
use wac_graph::names::{find, push};
use wac_graph::{ItemKind, NodeId, WorldId};
use wac_lexer::SourceSpan;
use wac_resolution_errors::Error;
use wac_resolution_state::{Root, State};

/// Gives a node for a name for which none is given yet.
#[tactic(auto, using(wac_resolution_state::proofs::Scopes::memory_model))]
fn give(
    alloc: Global,
    given: &mut IndexMap<String, NodeId>,
    name: &str,
    span: SourceSpan,
    node: NodeId,
) -> Result<(), Error>
    ensures ok { OnOk result (GivesNode (by_name given.old.entries) (by_name given.new.entries) name.now node) }
    ensures err { ErrorSays result (λ e. IsGiven (by_name given.old.entries) name.now span e) }
{
    if find(given, name).is_some() {
        return Err(Error::DuplicateInstantiationArg {
            name: String::from_str(alloc, name)?,
            span,
        });
    }
    push(alloc, given, name, node)?;
    Ok(())
}

/// Gives a node for the import that an argument's name means.
#[inline(never)]
pub fn give_named(
    state: &State,
    world: WorldId,
    name: &InstantiationArgumentName<'_>,
    node: NodeId,
    given: &mut IndexMap<String, NodeId>,
) -> Result<(), Error>
    requires { Names state.now.graph.types (ItemKind.Component world) }
    ensures ok { OnOk result (GivesFor (by_name given.old.entries) (by_name given.new.entries)
        (λ numbering. name_meant (argument_name_of name.now) (imports_at numbering state.now.graph world)) node) }
    ensures err { ErrorSays result (λ e. IsGivenFor (by_name given.old.entries)
        (λ numbering. name_meant (argument_name_of name.now) (imports_at numbering state.now.graph world))
        (argument_name_span (argument_name_of name.now)) e) }
{
    let import = written_name(state, world, name)?;
    give(state.alloc, given, import.as_str(), name.span(), node)
}

/// Gives the node of an identifier for the import that is inferred.
#[tactic(auto, using(wac_resolution_state::proofs::Scopes::memory_model))]
#[inline(never)]
pub fn give_inferred(
    state: &State,
    root: &Root<'_>,
    world: WorldId,
    id: &Ident<'_>,
    given: &mut IndexMap<String, NodeId>,
) -> Result<(), Error>
    requires agrees { Agrees state.now.graph root.now }
    requires world { Names state.now.graph.types (ItemKind.Component world) }
    requires there { GivenThere state.now.graph (by_name given.old.entries) }
    ensures ok { OnOk result (Gave state.now.graph state.now.graph (by_name given.old.entries)
        (by_name given.new.entries) (numbers_of root.now.nodes)
        (λ numbering old new. (s : Given) (rest : Arguments)
        → GivesOne s (imports_at numbering state.now.graph world) rest old
        (ArgumentTree.inferred (ident_of id.now)) new)) }
    ensures err { ErrorSays result (λ e. (numbering : Numbering) (s : Given) (rest : Arguments)
        → ArgumentBroken s (imports_at numbering state.now.graph world) rest
        (giving_of numbering state.now.graph (numbers_of root.now.nodes) (by_name given.old.entries)) e
        (ArgumentTree.inferred (ident_of id.now))) }
{
    let node = root.node(state.alloc, id)?;
    let import = inferred_name(state, world, id.string, node)?;
    give(state.alloc, given, import.as_str(), id.span, node)
}

/// Rejects `...` before other arguments.
#[inline(never)]
pub fn check_last(is_last: bool, span: SourceSpan) -> Result<(), Error>
    ensures ok { OnOk result ((rest : Arguments) → is_none rest ≡ is_last → IsEmpty rest) }
    ensures err { IfErr result (λ e. (rest : Arguments) → is_none rest ≡ is_last
        → IsFillNotLast rest span (error_model e)) }
{
    if is_last {
        Ok(())
    } else {
        Err(Error::FillArgumentNotLast { span })
    }
}
