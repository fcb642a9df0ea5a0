//! The nodes of a graph, and how their aliases are found.
ghost use Rattle.std.specs.Prelude.{◌≡◌, ◌+◌, ◌<◌, [], ◌∷◌, ◌++◌, None, Some, OnOk, OnErr, IsSome, option_map, option_and_then, length, slice_get, string_bytes};
ghost use Rattle.wac_graph_types.specs.Scope.{IsFresh};
ghost use Rattle.wac_graph.specs.Graph.{alias_in, node_given, node_named, plain_node};
ghost use Rattle.wac_graph.specs.HeldNodes.{arguments_at, changed_in};
ghost use Rattle.wac_graph.specs.Node.{alias, package_in, source_in};

use crate::named::NodeNames;
use crate::node::{Node, NodeId};
use std::alloc::{AllocError, Global};
use std::marker::Model;
use wac_graph_types::ItemKind;

/// Nodes in order. A contract sees the list of them, and how many more there is room for.
#[derive(Drop)]
pub struct HeldNodes {
    nodes: Vec<Node>,
    /// For each node those that are aliases of it, by export.
    aliases: Vec<NodeNames>,
}

impl Model for HeldNodes {
    ghost use Rattle.std.specs.Prelude.{min};
    ghost use Rattle.wac_graph.specs.HeldNodes.{NodeList, AreIndexed, room_in};

    ghost Value = { NodeList };

    ghost view = { λ n. record { items = n.nodes.items; room = min (room_in n.nodes) (room_in n.aliases) } };

    ghost invariant = { λ n. AreIndexed n.nodes.items n.aliases.items };
}

impl HeldNodes {
    pub fn new(alloc: Global) -> Self
        ensures { result.items ≡ [] }
    {
        HeldNodes {
            nodes: Vec::new(alloc),
            aliases: Vec::new(alloc),
        }
    }

    pub fn len(&self) -> usize
        ensures { result ≡ length self.now.items }
    {
        self.nodes.len()
    }

    /// The node of a number, if there is one.
    pub fn get(&self, number: usize) -> Option<&Node>
        ensures { option_map (λ n. n.now) result ≡ slice_get self.now.items number }
    {
        self.nodes.get(number)
    }

    /// The node of a number.
    pub fn at(&self, number: usize) -> &Node
        requires { number < length self.now.items }
        ensures { slice_get self.now.items number ≡ Some result.now }
    {
        &self.nodes[number]
    }

    /// The node that is the alias of an export of a node.
    pub fn alias_of(&self, node: NodeId, export: &str) -> Option<NodeId>
        ensures { option_map (λ n. n.0) result ≡ alias_in self.now.items node.0 export.now }
    {
        self.aliases.get(node.0)?.get(export)
    }

    /// Makes room for one more node.
    pub fn reserve(&mut self) -> Result<(), AllocError>
        ensures same { self.new.items ≡ self.old.items }
        ensures room { OnOk result (0 < self.new.room) }
    {
        self.nodes.reserve(1)?;
        self.aliases.reserve(1)?;
        Ok(())
    }

    /// Adds a node that is no alias, for which there is room.
    pub fn push(&mut self, alloc: Global, node: Node)
        requires room { 0 < self.old.room }
        requires plain { source_in node.form ≡ None }
        ensures { self.new.items ≡ self.old.items ++ node ∷ [] }
    {
        self.nodes.push_reserved(node);
        self.aliases.push_reserved(NodeNames::new(alloc));
    }

    /// Adds the alias of an export of a node, which doesn't exist yet.
    pub fn push_alias(
        &mut self,
        alloc: Global,
        node: NodeId,
        export: &str,
        kind: ItemKind,
    ) -> Result<(), AllocError>
        requires there { node.0 < length self.old.items }
        requires new { alias_in self.old.items node.0 export.now ≡ None }
        ensures ok { OnOk result (self.new.items ≡ self.old.items ++ plain_node (alias node.0 export.now) kind ∷ []) }
        ensures err { OnErr result (self.new.items ≡ self.old.items) }
    {
        let id = NodeId(self.nodes.len());
        let name = String::from_str(alloc, export)?;
        self.nodes.reserve(1)?;
        self.aliases.reserve(1)?;
        self.aliases[node.0].push(alloc, export, id)?;
        self.nodes
            .push_reserved(Node::alias(alloc, node, name, kind));
        self.aliases.push_reserved(NodeNames::new(alloc));
        Ok(())
    }

    /// Gives an instantiation one more argument.
    pub fn set_argument(
        &mut self,
        alloc: Global,
        number: usize,
        import: &str,
        value: NodeId,
    ) -> Result<(), AllocError>
        requires instance { IsSome (option_and_then (λ n. package_in n.form) (slice_get self.old.items number)) }
        requires open { IsFresh import.now (arguments_at self.old.items number) }
        ensures ok { OnOk result (self.new.items ≡ changed_in self.old.items number (node_given import.now value.0)) }
        ensures err { OnErr result (self.new.items ≡ self.old.items) }
    {
        self.nodes[number].set_argument(alloc, import, value)?;
        Ok(())
    }

    /// Names a node.
    pub fn set_name(&mut self, number: usize, name: String)
        requires { number < length self.old.items }
        ensures { self.new.items ≡ changed_in self.old.items number (node_named (string_bytes name)) }
    {
        self.nodes[number].set_name(name);
    }
}
