//! Nodes by name, in order.
ghost use Rattle.std.specs.Prelude.{◌≡◌, [], ◌∷◌, ◌++◌, OnOk, OnErr, IfOk, option_map, length};
ghost use Rattle.std.specs.Iterator.{YieldsFirstBy, item_count};
ghost use Rattle.wac_graph_types.specs.Scope.{look_up, with_named, IsFresh};

use crate::node::NodeId;
use indexmap::IndexMap;
use indexmap::map::Iter;
use std::alloc::{AllocError, Global};
use std::marker::Model;
use wac_graph_types::names::{find, push};

/// Nodes by name. A contract sees the list of names and numbers.
#[derive(Drop)]
pub struct NodeNames {
    nodes: IndexMap<String, NodeId>,
}

impl Model for NodeNames {
    ghost use Rattle.std.specs.Prelude.{List, ℕ};

    ghost Value = { List (List ℕ × ℕ) };

    ghost use Rattle.wac_graph_types.specs.Names.{by_name};
    ghost use Rattle.wac_graph.specs.NodeNames.{numbers_of};

    ghost view = { λ n. numbers_of (by_name n.nodes.entries) };
}

impl NodeNames {
    pub fn new(alloc: Global) -> Self
        ensures { result ≡ [] }
    {
        NodeNames {
            nodes: IndexMap::new(alloc),
        }
    }

    pub fn get(&self, name: &str) -> Option<NodeId>
        ensures { option_map (λ n. n.0) result ≡ look_up name.now self.now }
    {
        find(&self.nodes, name)
    }

    /// Adds a node under a new name, after the others.
    pub fn push(&mut self, alloc: Global, name: &str, node: NodeId) -> Result<(), AllocError>
        requires { IsFresh name.now self.old }
        ensures ok { OnOk result (self.new ≡ with_named self.old name.now node.0) }
        ensures err { OnErr result (self.new ≡ self.old) }
    {
        push(alloc, &mut self.nodes, name, node)
    }

    pub fn iter(&self) -> Names<'_>
        ensures { result ≡ self.now }
    {
        Names {
            rest: self.nodes.iter(),
        }
    }
}

/// Goes over names and nodes in order. A contract sees the list of those that are left.
#[derive(Drop)]
pub struct Names<'a> {
    rest: Iter<'a, String, NodeId>,
}

impl<'a> Model for Names<'a> {
    ghost use Rattle.std.specs.Prelude.{List, ℕ};

    ghost Value = { List (List ℕ × ℕ) };

    ghost use Rattle.wac_graph_types.specs.Names.{by_name};
    ghost use Rattle.wac_graph.specs.NodeNames.{numbers_of};

    ghost view = { λ n. numbers_of (by_name n.rest) };
}

impl<'a> Iterator for Names<'a> {
    type Item = (&'a str, NodeId);

    ghost use Rattle.std.specs.Iterator.{YieldsFirstBy, item_count};

    ghost next_gives = { YieldsFirstBy (λ x. (x.0.now, x.1.0)) (λ s. s) };

    ghost remaining = { item_count (λ s. s) };

    fn next(&mut self) -> Option<(&'a str, NodeId)> {
        let (name, node) = self.rest.next()?;
        Some((name.as_str(), *node))
    }
}
