//! An include, and what its errors say.
ghost use Rattle.std.specs.Prelude.{◌≡◌, ℕ, [], List, false, IfOk, OnOk, option_map};
ghost use Rattle.wac_graph_types.specs.Meaning.{Meaning};
ghost use Rattle.wac_graph_types.specs.Names.{by_name};
ghost use Rattle.wac_graph_types.specs.Scope.{IsFresh};
ghost use Rattle.wac_graph.specs.Graph.{Parts};
ghost use Rattle.wac_graph.specs.Means.{means};
ghost use Rattle.wac_graph.specs.Origin.{Numbering};
ghost use Rattle.wac_resolution_rules.specs.Includes.{has_colon, name_taken as taken_name};
ghost use Rattle.wac_resolution_rules.specs.BrokenWorlds.{span_taken as taken_span, help_of_include, IsIncludeConflict, IsLeftOver, IsNoWorld};
ghost use Rattle.wac_resolution_rules.specs.Errors.{ErrorSays};
ghost use Rattle.wac_resolution_worlds.specs.Entries.{entries_of, AreOf};
ghost use Rattle.wac_resolution_worlds.specs.Taking.{tree_of, clause_of, taking_of, IsWorldKind};

use crate::include_names::name_taken;
use indexmap::IndexMap;
use std::alloc::Global;
use wac_ast_uses::{WorldInclude, WorldIncludeItem};
use wac_graph::names::find;
use wac_graph::{CompositionGraph, ExternKind, ItemKind, Type, WorldId};
use wac_lexer::SourceSpan;
use wac_resolution_errors::Error;

/// An include, and the world that it is in.
#[derive(Drop)]
pub struct Inclusion<'x, 'a> {
    /// The allocator.
    pub alloc: Global,
    /// The include.
    pub include: &'x WorldInclude<'a>,
    /// The name of the world that it is in.
    pub world: &'x str,
    /// The graph of the included world.
    pub graph: &'x CompositionGraph,
}

impl<'x, 'a> Inclusion<'x, 'a> {
    /// Where a name comes from: the entry that renames it, else the included world.
    #[tactic(auto, using(crate::proofs::Found::span_found))]
    fn span_taken(
        &self,
        entries: &IndexMap<String, &'x WorldIncludeItem<'a>>,
        name: &str,
    ) -> SourceSpan
        requires { AreOf (clause_of self.now) (by_name entries.now.entries) }
        ensures { result ≡ taken_span (tree_of self.now) (entries_of (by_name entries.now.entries)) name.now }
    {
        match find(entries, name) {
            Some(item) => item.to.span,
            None => self.include.world.span(),
        }
    }

    /// What can be done about a name that is taken, where none was renamed.
    fn help(&self) -> Option<&'static str>
        ensures { option_map (λ text. text.now) result ≡ help_of_include (clause_of self.now) }
    {
        if self.include.with.is_empty() {
            Some("consider using a `with` clause to use a different name")
        } else {
            None
        }
    }

    /// Rejects a name without a colon that is taken, after it is renamed.
    #[tactic(auto, using(wac_resolution_state::proofs::Scopes::memory_model))]
    pub(crate) fn check_taken(
        &self,
        side: ExternKind,
        entries: &IndexMap<String, &'x WorldIncludeItem<'a>>,
        there: &IndexMap<String, ItemKind>,
        name: &str,
    ) -> Result<(), Error>
        requires of_clause { AreOf (clause_of self.now) (by_name entries.now.entries) }
        requires plain { has_colon name.now ≡ false }
        ensures ok { OnOk result (IsFresh (taken_name (entries_of (by_name entries.now.entries)) name.now)
            (by_name there.now.entries)) }
        ensures err { ErrorSays result (λ e. (numbering : Numbering) (g : Parts) (before : List (List ℕ × Meaning))
            (m : Meaning) → IsIncludeConflict (tree_of self.now) self.now.world.now side e
            (taking_of numbering g (by_name entries.now.entries) (by_name there.now.entries)) before (name.now, m)) }
    {
        let taken = name_taken(entries, name);
        match find(there, taken) {
            Some(_) => Err(Error::WorldIncludeConflict {
                kind: side,
                name: String::from_str(self.alloc, taken)?,
                from: String::from_str(self.alloc, self.include.world.name())?,
                to: String::from_str(self.alloc, self.world)?,
                span: self.span_taken(entries, name),
                help: self.help(),
            }),
            None => Ok(()),
        }
    }

    /// Rejects the first entry that is left over.
    #[tactic(auto, using(wac_resolution_state::proofs::Scopes::memory_model))]
    pub(crate) fn check_left(
        &self,
        entries: &IndexMap<String, &'x WorldIncludeItem<'a>>,
    ) -> Result<(), Error>
        requires { AreOf (clause_of self.now) (by_name entries.now.entries) }
        ensures ok { OnOk result (by_name entries.now.entries ≡ []) }
        ensures err { ErrorSays result (λ e. IsLeftOver (tree_of self.now)
            (entries_of (by_name entries.now.entries)) e) }
    {
        match entries.get_index(0) {
            Some((name, item)) => Err(Error::MissingWorldInclude {
                world: String::from_str(self.alloc, self.include.world.name())?,
                name: String::from_str(self.alloc, name.as_str())?,
                span: item.from.span,
            }),
            None => Ok(()),
        }
    }

    /// The world that a kind is, or that it is a component of.
    #[tactic(auto, using(crate::proofs::IncludedWorlds::worlds_told))]
    pub(crate) fn world_of(&self, kind: ItemKind) -> Result<WorldId, Error>
        ensures ok { IfOk result (λ w. IsWorldKind kind w) }
        ensures err { ErrorSays result (λ e. (numbering : Numbering) (g : Parts)
            → IsNoWorld (means numbering g kind) (tree_of self.now).world e) }
    {
        match kind {
            ItemKind::Ty(Type::World(world)) => Ok(world),
            ItemKind::Component(world) => Ok(world),
            other => Err(Error::NotWorld {
                name: String::from_str(self.alloc, self.include.world.name())?,
                kind: other.desc(),
                span: self.include.world.span(),
            }),
        }
    }
}
