//! The entries of a `with` clause.
ghost use Rattle.std.specs.Prelude.{◌≡◌, [], List, IfOk, OnOk, map};
ghost use Rattle.wac_ast_grammar.specs.Tree.{WorldIncludeItem as Item};
ghost use Rattle.wac_graph_types.specs.Names.{by_name};
ghost use Rattle.wac_graph_types.specs.Scope.{with_named, IsFresh};
ghost use Rattle.wac_graph_types.specs.Steps.{Fails};
ghost use Rattle.wac_ast_uses.specs.Uses.{world_include_item_of};
ghost use Rattle.wac_resolution_rules.specs.Includes.{HasEntry};
ghost use Rattle.wac_resolution_rules.specs.BrokenWorlds.{IsSecondEntry};
ghost use Rattle.wac_resolution_rules.specs.Errors.{ErrorSays};
ghost use Rattle.wac_resolution_worlds.specs.Entries.{entries_of, AreAll};

use indexmap::IndexMap;
use std::alloc::Global;
use wac_ast_uses::WorldIncludeItem;
use wac_graph::names::{find, push};
use wac_resolution_errors::Error;

/// Rejects the name of an earlier entry.
#[tactic(auto, using(wac_resolution_state::proofs::Scopes::memory_model))]
fn check_entry(
    alloc: Global,
    all: &IndexMap<String, &WorldIncludeItem<'_>>,
    item: &WorldIncludeItem<'_>,
) -> Result<(), Error>
    ensures ok { OnOk result (IsFresh item.now.from.string.now (by_name all.now.entries)) }
    ensures err { ErrorSays result (λ e. (before : List Item)
        → IsSecondEntry e (entries_of (by_name all.now.entries)) before (world_include_item_of item.now)) }
{
    match find(all, item.from.string) {
        Some(_) => Err(Error::DuplicateWorldIncludeName {
            name: String::from_str(alloc, item.from.string)?,
            span: item.from.span,
        }),
        None => Ok(()),
    }
}

/// Takes an entry.
#[tactic(auto, using(wac_resolution_state::proofs::Scopes::memory_model))]
fn entry<'x, 'a>(
    alloc: Global,
    all: &mut IndexMap<String, &'x WorldIncludeItem<'a>>,
    item: &'x WorldIncludeItem<'a>,
) -> Result<(), Error>
    ensures ok { OnOk result (IsFresh item.now.from.string.now (by_name all.old.entries)) }
    ensures added { OnOk result (by_name all.new.entries
        ≡ with_named (by_name all.old.entries) item.now.from.string.now item.entry) }
    ensures err { ErrorSays result (λ e. (before : List Item)
        → IsSecondEntry e (entries_of (by_name all.old.entries)) before (world_include_item_of item.now)) }
{
    check_entry(alloc, all, item)?;
    push(alloc, all, item.from.string, item)?;
    Ok(())
}

/// The entries of a `with` clause, by the names that they rename. It names each name once.
pub fn entries<'x, 'a>(
    alloc: Global,
    items: &'x [WorldIncludeItem<'a>],
) -> Result<IndexMap<String, &'x WorldIncludeItem<'a>>, Error>
    ensures ok { IfOk result (λ all. AreAll (map world_include_item_of items.now) (by_name all.entries)) }
    ensures err { ErrorSays result (λ e. Fails HasEntry (IsSecondEntry e) [] (map world_include_item_of items.now)) }
{
    let mut all = IndexMap::new(alloc);
    for item in items {
        entry(alloc, &mut all, item)?;
    }
    Ok(all)
}
