//! What is taken of an included world.
ghost use Rattle.std.specs.Prelude.{◌⊎◌, ℕ, List, OnOk};
ghost use Rattle.wac_graph_types.specs.declared.kind.ItemKind.TheVariants as kinds;
ghost use Rattle.wac_graph_types.specs.declared.kind.ExternKind.TheVariants as sides;
ghost use Rattle.wac_graph_types.specs.Meaning.{Meaning};
ghost use Rattle.wac_graph_types.specs.Names.{by_name};
ghost use Rattle.wac_graph_types.specs.Readings.{world_imports, world_exports};
ghost use Rattle.wac_graph_types.specs.Shape.{IsA, is_world_form, entry_of, items_mean};
ghost use Rattle.wac_graph_types.specs.Steps.{Fails};
ghost use Rattle.wac_graph_types.specs.Table.{Names};
ghost use Rattle.wac_graph.specs.Graph.{Parts};
ghost use Rattle.wac_graph.specs.Means.{means, entry_means};
ghost use Rattle.wac_graph.specs.Origin.{Numbering};
ghost use Rattle.wac_resolution_rules.specs.Bodies.{Body};
ghost use Rattle.wac_resolution_rules.specs.Includes.{Takes};
ghost use Rattle.wac_resolution_rules.specs.BrokenWorlds.{IsIncludeConflict, IsNoWorld, TakingBroken};
ghost use Rattle.wac_resolution_rules.specs.Errors.{ErrorSays};
ghost use Rattle.wac_resolution_worlds.specs.Entries.{entries_of, AreOf};
ghost use Rattle.wac_resolution_worlds.specs.Taking.{tree_of, clause_of, taking_of, NameTaken, NamesTaken, with_both, WorldTaken, IsIncluded};

use crate::include_names::{add_missing, add_renamed, has_colon};
use crate::inclusion::Inclusion;
use indexmap::IndexMap;
use wac_ast_uses::WorldIncludeItem;
use wac_graph::{ExternKind, ItemKind, WorldId};
use wac_resolution_errors::Error;

/// An import or an export of an included world.
#[derive(Clone, Copy)]
struct Extern<'n> {
    /// The name.
    name: &'n str,
    /// What it denotes.
    kind: ItemKind,
}

impl<'x, 'a> Inclusion<'x, 'a> {
    /// Takes a name.
    fn take_name(
        &self,
        side: ExternKind,
        entries: &mut IndexMap<String, &'x WorldIncludeItem<'a>>,
        there: &mut IndexMap<String, ItemKind>,
        taken: &Extern<'_>,
    ) -> Result<(), Error>
        requires { AreOf (clause_of self.now) (by_name entries.old.entries) }
        ensures ok { OnOk result (NameTaken (clause_of self.now) (by_name entries.old.entries)
            (by_name entries.new.entries) (by_name there.old.entries)
            (by_name there.new.entries) (taken.now.name.now, taken.now.kind)) }
        ensures err { ErrorSays result (λ e. (numbering : Numbering) (g : Parts) (before : List (List ℕ × Meaning))
            → IsIncludeConflict (tree_of self.now) self.now.world.now side e
            (taking_of numbering g (by_name entries.old.entries) (by_name there.old.entries)) before
            (taken.now.name.now, means numbering g taken.now.kind)) }
    {
        if has_colon(taken.name) {
            add_missing(self.alloc, there, taken.name, taken.kind)?;
            return Ok(());
        }
        self.check_taken(side, entries, there, taken.name)?;
        add_renamed(self.alloc, entries, there, taken.name, taken.kind)?;
        Ok(())
    }

    /// Takes names in order.
    fn take_names(
        &self,
        side: ExternKind,
        entries: &mut IndexMap<String, &'x WorldIncludeItem<'a>>,
        there: &mut IndexMap<String, ItemKind>,
        names: &IndexMap<String, ItemKind>,
    ) -> Result<(), Error>
        requires { AreOf (clause_of self.now) (by_name entries.old.entries) }
        ensures ok { OnOk result (NamesTaken (clause_of self.now) (by_name entries.old.entries)
            (by_name entries.new.entries) (by_name there.old.entries) (by_name there.new.entries)
            (by_name names.now.entries)) }
        ensures err { ErrorSays result (λ e. (numbering : Numbering) (g : Parts)
            → Fails Takes (IsIncludeConflict (tree_of self.now) self.now.world.now side e)
            (taking_of numbering g (by_name entries.old.entries) (by_name there.old.entries))
            (items_mean (entry_means numbering g) (by_name names.now.entries))) }
    {
        for (name, kind) in names.iter() {
            let taken = Extern {
                name: name.as_str(),
                kind: *kind,
            };
            self.take_name(side, entries, there, &taken)?;
        }
        Ok(())
    }

    /// Takes what a world imports.
    fn take_imports(
        &self,
        world: WorldId,
        entries: &mut IndexMap<String, &'x WorldIncludeItem<'a>>,
        imports: &mut IndexMap<String, ItemKind>,
    ) -> Result<(), Error>
        requires { AreOf (clause_of self.now) (by_name entries.old.entries) }
        ensures ok { OnOk result (NamesTaken (clause_of self.now) (by_name entries.old.entries)
            (by_name entries.new.entries) (by_name imports.old.entries) (by_name imports.new.entries)
            (world_imports self.now.graph.now.types world.0)) }
        ensures err { ErrorSays result (λ e. (numbering : Numbering) (g : Parts)
            → Fails Takes (IsIncludeConflict (tree_of self.now) self.now.world.now sides.Import e)
            (taking_of numbering g (by_name entries.old.entries) (by_name imports.old.entries))
            (items_mean (entry_means numbering g) (world_imports self.now.graph.now.types world.0))) }
    {
        match self.graph.types().imports(world) {
            Some(names) => self.take_names(ExternKind::Import, entries, imports, names),
            None => Ok(()),
        }
    }

    /// Takes what a world exports.
    fn take_exports(
        &self,
        world: WorldId,
        entries: &mut IndexMap<String, &'x WorldIncludeItem<'a>>,
        exports: &mut IndexMap<String, ItemKind>,
    ) -> Result<(), Error>
        requires { AreOf (clause_of self.now) (by_name entries.old.entries) }
        ensures ok { OnOk result (NamesTaken (clause_of self.now) (by_name entries.old.entries)
            (by_name entries.new.entries) (by_name exports.old.entries) (by_name exports.new.entries)
            (world_exports self.now.graph.now.types world.0)) }
        ensures err { ErrorSays result (λ e. (numbering : Numbering) (g : Parts)
            → Fails Takes (IsIncludeConflict (tree_of self.now) self.now.world.now sides.Export e)
            (taking_of numbering g (by_name entries.old.entries) (by_name exports.old.entries))
            (items_mean (entry_means numbering g) (world_exports self.now.graph.now.types world.0))) }
    {
        match self.graph.types().exports(ItemKind::Component(world)) {
            Some(names) => self.take_names(ExternKind::Export, entries, exports, names),
            None => Ok(()),
        }
    }

    /// Takes what a world imports and exports, until no entry is left over.
    fn take_world(
        &self,
        world: WorldId,
        entries: IndexMap<String, &'x WorldIncludeItem<'a>>,
        imports: &mut IndexMap<String, ItemKind>,
        exports: &mut IndexMap<String, ItemKind>,
    ) -> Result<(), Error>
        requires world { Names self.now.graph.now.types (kinds.Component world) }
        requires of_clause { AreOf (clause_of self.now) (by_name entries.entries) }
        ensures ok { OnOk result (WorldTaken self.now.graph.now (entries_of (by_name entries.entry.entries)) world
            (by_name imports.old.entries) (by_name exports.old.entries) (by_name imports.new.entries)
            (by_name exports.new.entries)) }
        ensures err { ErrorSays result (λ e. (numbering : Numbering) (b : Body)
            → TakingBroken (tree_of self.now) self.now.world.now (entries_of (by_name entries.entry.entries))
            (entry_means numbering self.now.graph.now world.0)
            (with_both numbering self.now.graph.now b (by_name imports.old.entries) (by_name exports.old.entries)) e) }
    {
        let mut left = entries;
        // Its contract says that the table is sound, and what its entries mean.
        let _types = self.graph.types();
        self.take_imports(world, &mut left, imports)?;
        self.take_exports(world, &mut left, exports)?;
        self.check_left(&left)?;
        Ok(())
    }

    /// Adds to imports and exports what including a kind adds: it is a world or component.
    pub fn take(
        &self,
        kind: ItemKind,
        entries: IndexMap<String, &'x WorldIncludeItem<'a>>,
        imports: &mut IndexMap<String, ItemKind>,
        exports: &mut IndexMap<String, ItemKind>,
    ) -> Result<(), Error>
        requires kind { Names self.now.graph.now.types kind }
        requires of_clause { AreOf (clause_of self.now) (by_name entries.entries) }
        ensures ok { OnOk result (IsIncluded self.now.graph.now (entries_of (by_name entries.entry.entries)) kind
            (by_name imports.old.entries) (by_name exports.old.entries) (by_name imports.new.entries)
            (by_name exports.new.entries)) }
        ensures err { ErrorSays result (λ e. (numbering : Numbering) (b : Body)
            → IsNoWorld (means numbering self.now.graph.now kind) (tree_of self.now).world e
            ⊎ (IsA is_world_form (means numbering self.now.graph.now kind)
            × TakingBroken (tree_of self.now) self.now.world.now (entries_of (by_name entries.entry.entries))
            (entry_of (means numbering self.now.graph.now kind))
            (with_both numbering self.now.graph.now b (by_name imports.old.entries) (by_name exports.old.entries)) e)) }
    {
        let world = self.world_of(kind)?;
        self.take_world(world, entries, imports, exports)?;
        Ok(())
    }
}
