//! Iterators over numbers of nodes and packages.
ghost use Rattle.std.specs.Prelude.{◌≡◌};
ghost use Rattle.wac_graph.specs.Numbers.{numbers};

use crate::held_nodes::HeldNodes;
use crate::node::{NodeId, PackageId};
use crate::packages::HeldPackages;
use std::marker::Model;

/// Goes over the nodes of a graph in order. A contract sees the list of the numbers that are left.
#[derive(Drop)]
pub struct Nodes<'a> {
    nodes: &'a HeldNodes,
    at: usize,
}

impl<'a> Model for Nodes<'a> {
    ghost use Rattle.std.specs.Prelude.{List, ℕ, length, ◌-◌};
    ghost use Rattle.wac_graph.specs.Numbers.{numbers};

    ghost Value = { List ℕ };

    ghost view = { λ n. numbers n.at (length n.nodes.now.items - n.at) };
}

impl<'a> Nodes<'a> {
    ghost use Rattle.std.specs.Prelude.{length};

    pub(crate) fn new(nodes: &'a HeldNodes) -> Self
        ensures { result ≡ numbers 0 (length nodes.now.items) }
    {
        Nodes { nodes, at: 0 }
    }
}

impl<'a> Iterator for Nodes<'a> {
    type Item = NodeId;

    ghost use Rattle.std.specs.Iterator.{YieldsFirstBy, item_count};

    ghost next_gives = { YieldsFirstBy (λ n. n.0) (λ s. s) };

    ghost remaining = { item_count (λ s. s) };

    #[tactic(auto, using(crate::proofs::Numbers::numbers_step, crate::proofs::Numbers::numbers_none))]
    fn next(&mut self) -> Option<NodeId> {
        if self.at >= self.nodes.len() {
            return None;
        }
        let id = NodeId(self.at);
        self.at += 1;
        Some(id)
    }
}

/// Goes over the packages of a graph in order. A contract sees the list of the numbers that are left.
#[derive(Drop)]
pub struct Packages<'a> {
    packages: &'a HeldPackages,
    at: usize,
}

impl<'a> Model for Packages<'a> {
    ghost use Rattle.std.specs.Prelude.{List, ℕ, length, ◌-◌};
    ghost use Rattle.wac_graph.specs.Numbers.{numbers};

    ghost Value = { List ℕ };

    ghost view = { λ p. numbers p.at (length p.packages.now - p.at) };
}

impl<'a> Packages<'a> {
    ghost use Rattle.std.specs.Prelude.{length};

    pub(crate) fn new(packages: &'a HeldPackages) -> Self
        ensures { result ≡ numbers 0 (length packages.now) }
    {
        Packages { packages, at: 0 }
    }
}

impl<'a> Iterator for Packages<'a> {
    type Item = PackageId;

    ghost use Rattle.std.specs.Iterator.{YieldsFirstBy, item_count};

    ghost next_gives = { YieldsFirstBy (λ p. p.0) (λ s. s) };

    ghost remaining = { item_count (λ s. s) };

    #[tactic(auto, using(crate::proofs::Numbers::numbers_step, crate::proofs::Numbers::numbers_none))]
    fn next(&mut self) -> Option<PackageId> {
        if self.at >= self.packages.len() {
            return None;
        }
        let id = PackageId(self.at);
        self.at += 1;
        Some(id)
    }
}
