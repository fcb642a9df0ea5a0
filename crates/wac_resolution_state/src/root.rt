//! The scope at root.
ghost use Rattle.std.specs.Prelude.{◌≡◌, ◌<◌, [], OnOk, IfOk, length};
ghost use Rattle.wac_graph_types.specs.Scope.{IsFresh, StandsFor};
ghost use Rattle.wac_ast_base.specs.Names.{ident_of};
ghost use Rattle.wac_graph.specs.Graph.{Parts};
ghost use Rattle.wac_graph.specs.Origin.{Numbering};
ghost use Rattle.wac_resolution_rules.specs.BrokenTypes.{IsUndefined};
ghost use Rattle.wac_resolution_rules.specs.BrokenWorlds.{IsBound};
ghost use Rattle.wac_resolution_rules.specs.Errors.{ErrorSays};
ghost use Rattle.wac_resolution_rules.specs.Places.{Places};
ghost use Rattle.wac_resolution_state.specs.Root.{numbers_of, composed, places, Agrees, NodeIs, Binds};

use crate::node::name_node;
use crate::{Names, State};
use std::alloc::Global;
use wac_ast_base::Ident;
use wac_graph::{ItemKind, NodeId};
use wac_resolution_errors::Error;

/// The names that are bound at root: each denotes a node and, where types are resolved, the node's kind.
#[derive(Drop)]
pub struct Root<'a> {
    /// The node of each name.
    pub nodes: Names<'a, NodeId>,
    /// The kind of that node.
    pub kinds: Names<'a, ItemKind>,
}

impl<'a> Root<'a> {
    /// No names.
    pub fn new(alloc: Global) -> Self
        ensures nodes { result.nodes ≡ [] }
        ensures kinds { result.kinds ≡ [] }
    {
        Root {
            nodes: Names::new(alloc),
            kinds: Names::new(alloc),
        }
    }

    /// The node that an identifier denotes.
    #[tactic(auto, using(crate::proofs::Roots::nodes_found))]
    #[inline(never)]
    pub fn node(&self, alloc: Global, id: &Ident<'_>) -> Result<NodeId, Error>
        ensures ok { IfOk result (λ n. NodeIs self.now (ident_of id.now) n) }
        ensures err { ErrorSays result (λ e. IsUndefined (numbers_of self.now.nodes) (ident_of id.now) e) }
    {
        match self.nodes.find(id.string) {
            Some(node) => Ok(node),
            None => Err(Error::UndefinedName {
                name: String::from_str(alloc, id.string)?,
                span: id.span,
            }),
        }
    }

    /// Rejects an identifier that is bound already.
    #[tactic(auto, using(crate::proofs::Roots::nodes_found))]
    fn check_fresh(&self, alloc: Global, id: &Ident<'_>) -> Result<(), Error>
        ensures ok { OnOk result (IsFresh id.now.string.now self.now.nodes) }
        ensures err { ErrorSays result (λ e. (numbering : Numbering) (g : Parts) (all : Places)
            → all.bound ≡ places self.now → IsBound (composed numbering g self.now) all (ident_of id.now) e) }
    {
        match self.nodes.place(id.string) {
            Some(previous) => Err(Error::DuplicateName {
                name: String::from_str(alloc, id.string)?,
                span: id.span,
                previous,
            }),
            None => Ok(()),
        }
    }

    /// Binds an identifier to a node, and names the node where it has no name.
    pub fn bind(&mut self, state: &mut State, id: &Ident<'a>, node: NodeId) -> Result<(), Error>
        requires there { node.0 < length state.old.graph.nodes }
        requires agrees { Agrees state.old.graph self.old }
        ensures ok { OnOk result (Binds state.old.graph state.new.graph self.old self.new (ident_of id.now) node.0) }
        ensures err { ErrorSays result (λ e. (numbering : Numbering) (all : Places)
            → all.bound ≡ places self.old
            → IsBound (composed numbering state.old.graph self.old) all (ident_of id.now) e) }
    {
        self.check_fresh(state.alloc, id)?;
        name_node(state, node, id.string)?;
        let kind = state.graph.kind(node);
        self.nodes.bind(id, node)?;
        self.kinds.bind(id, kind)?;
        Ok(())
    }
}
