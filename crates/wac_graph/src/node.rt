//! The nodes of a composition.
ghost use Rattle.std.specs.Prelude.{◌≡◌, [], OnOk, OnErr, option_map, IsSome, Some, None, string_bytes};
ghost use Rattle.wac_graph_types.specs.Scope.{IsFresh};
ghost use Rattle.wac_graph.specs.Graph.{given_too, plain_node};
ghost use Rattle.wac_graph.specs.Node.{import, definition, alias, instantiation, sort_in, sort_of, source_in, import_in, package_in, arguments_in};

use crate::named::NodeNames;
use std::alloc::{AllocError, Global};
use std::marker::Model;
use wac_graph_types::{InterfaceId, ItemKind};

/// The number of a node in its graph.
#[derive(Clone, Copy, Debug, PartialEq, Eq)]
pub struct NodeId(pub usize);

/// The number of a package in its graph.
#[derive(Clone, Copy, Debug, PartialEq, Eq)]
pub struct PackageId(pub usize);

/// What a node is: an import with its name, a type that is defined, an alias of an instance's export, or an instance
/// of a package.
#[derive(Drop)]
pub enum NodeKind {
    Import(String),
    Definition,
    Alias,
    Instantiation(PackageId),
}

/// A node. A contract sees its parts.
#[derive(Drop)]
pub struct Node {
    node: NodeKind,
    /// Of an alias alone: the node and its export.
    source: Option<(NodeId, String)>,
    kind: ItemKind,
    name: Option<String>,
    /// Of an instantiation alone.
    arguments: NodeNames,
}

impl Model for Node {
    ghost use Rattle.wac_graph.specs.Node.{Node as NodeParts, held_node, form_of, IsHeldAs};

    ghost Value = { NodeParts };

    ghost view = { λ n. held_node (form_of n.node n.source n.arguments) n.kind n.name };

    ghost invariant = { λ n. IsHeldAs n.node n.source n.arguments };
}

impl Node {
    pub fn import(alloc: Global, name: String, kind: ItemKind) -> Self
        ensures { result ≡ plain_node (import (string_bytes name)) kind }
    {
        Node {
            node: NodeKind::Import(name),
            source: None,
            kind,
            name: None,
            arguments: NodeNames::new(alloc),
        }
    }

    pub fn definition(alloc: Global, kind: ItemKind) -> Self
        ensures { result ≡ plain_node definition kind }
    {
        Node {
            node: NodeKind::Definition,
            source: None,
            kind,
            name: None,
            arguments: NodeNames::new(alloc),
        }
    }

    pub fn alias(alloc: Global, node: NodeId, export: String, kind: ItemKind) -> Self
        ensures { result ≡ plain_node (alias node.0 (string_bytes export)) kind }
    {
        Node {
            node: NodeKind::Alias,
            source: Some((node, export)),
            kind,
            name: None,
            arguments: NodeNames::new(alloc),
        }
    }

    pub fn instantiation(alloc: Global, package: PackageId, instance: InterfaceId) -> Self
        ensures { result ≡ plain_node (instantiation «package».0 []) (ItemKind.Instance instance) }
    {
        Node {
            node: NodeKind::Instantiation(package),
            source: None,
            kind: ItemKind::Instance(instance),
            name: None,
            arguments: NodeNames::new(alloc),
        }
    }

    pub fn node(&self) -> &NodeKind
        ensures { sort_of result.now ≡ sort_in self.now.form }
    {
        &self.node
    }

    pub fn kind(&self) -> ItemKind
        ensures { result ≡ self.now.kind }
    {
        self.kind
    }

    pub fn name(&self) -> Option<&str>
        ensures { option_map (λ s. s.now) result ≡ self.now.name }
    {
        match &self.name {
            None => None,
            Some(name) => Some(name.as_str()),
        }
    }

    pub fn import_name(&self) -> Option<&str>
        ensures { option_map (λ s. s.now) result ≡ import_in self.now.form }
    {
        match &self.node {
            NodeKind::Import(name) => Some(name.as_str()),
            _ => None,
        }
    }

    pub fn package(&self) -> Option<PackageId>
        ensures { option_map (λ p. p.0) result ≡ package_in self.now.form }
    {
        match &self.node {
            NodeKind::Instantiation(package) => Some(*package),
            _ => None,
        }
    }

    pub fn source(&self) -> Option<(NodeId, &str)>
        ensures { option_map (λ s. (s.0.0, s.1.now)) result ≡ source_in self.now.form }
    {
        match &self.source {
            None => None,
            Some((node, export)) => Some((*node, export.as_str())),
        }
    }

    pub fn arguments(&self) -> &NodeNames
        ensures { result.now ≡ arguments_in self.now.form }
    {
        &self.arguments
    }

    pub fn set_name(&mut self, name: String)
        ensures { self.new ≡ record self.old { name = Some (string_bytes name) } }
    {
        self.name = Some(name);
    }

    /// Gives an instantiation one more argument.
    pub fn set_argument(
        &mut self,
        alloc: Global,
        import: &str,
        value: NodeId,
    ) -> Result<(), AllocError>
        requires instance { IsSome (package_in self.old.form) }
        requires open { IsFresh import.now (arguments_in self.old.form) }
        ensures ok { OnOk result (self.new ≡ record self.old { form = given_too self.old.form import.now value.0 }) }
        ensures err { OnErr result (self.new ≡ self.old) }
    {
        self.arguments.push(alloc, import, value)
    }
}
