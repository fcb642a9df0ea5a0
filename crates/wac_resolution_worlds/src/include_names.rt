//! The name that a name of an included world gets.
ghost use Rattle.std.specs.Prelude.{◌≡◌, OnOk};
ghost use Rattle.wac_graph_types.specs.Names.{by_name};
ghost use Rattle.wac_graph_types.specs.Scope.{IsFresh, with_named, without_first};
ghost use Rattle.wac_resolution_rules.specs.Includes.{has_colon as colon_in, name_taken as taken_name};
ghost use Rattle.wac_resolution_worlds.specs.Entries.{entries_of};
ghost use Rattle.wac_resolution_worlds.specs.Taking.{unless_there};

use indexmap::IndexMap;
use std::alloc::{AllocError, Global};
use wac_ast_uses::WorldIncludeItem;
use wac_graph::ItemKind;
use wac_graph::names::{find, push};

/// Whether a name has a colon. Such a name is not renamed.
pub(crate) fn has_colon(name: &str) -> bool
    ensures { result ≡ colon_in name.now }
{
    name.as_bytes().contains(&b':')
}

/// The name that a name gets: of its entry, if there is one.
#[tactic(auto, using(crate::proofs::Found::name_found))]
pub(crate) fn name_taken<'x, 'a>(
    entries: &IndexMap<String, &'x WorldIncludeItem<'a>>,
    name: &'a str,
) -> &'a str
    ensures { result.now ≡ taken_name (entries_of (by_name entries.now.entries)) name.now }
{
    match find(entries, name) {
        Some(item) => item.to.string,
        None => name,
    }
}

/// Adds a name that is not renamed, unless it is present.
pub(crate) fn add_missing(
    alloc: Global,
    there: &mut IndexMap<String, ItemKind>,
    name: &str,
    kind: ItemKind,
) -> Result<(), AllocError>
    ensures { OnOk result (by_name there.new.entries ≡ unless_there (by_name there.old.entries) name.now kind) }
{
    match find(there, name) {
        Some(_) => Ok(()),
        None => push(alloc, there, name, kind),
    }
}

/// Uses up the entry of a name, if there is one, and returns the name that the name gets.
fn use_up<'n, 'a: 'n>(
    entries: &mut IndexMap<String, &WorldIncludeItem<'a>>,
    name: &'n str,
) -> &'n str
    ensures name { result.now ≡ taken_name (entries_of (by_name entries.old.entries)) name.now }
    ensures left { by_name entries.new.entries ≡ without_first name.now (by_name entries.old.entries) }
{
    match entries.shift_remove(name) {
        Some(item) => item.to.string,
        None => name,
    }
}

/// Adds the name that a name gets, and uses up its entry.
pub(crate) fn add_renamed(
    alloc: Global,
    entries: &mut IndexMap<String, &WorldIncludeItem<'_>>,
    there: &mut IndexMap<String, ItemKind>,
    name: &str,
    kind: ItemKind,
) -> Result<(), AllocError>
    requires { IsFresh (taken_name (entries_of (by_name entries.old.entries)) name.now) (by_name there.old.entries) }
    ensures left { OnOk result (by_name entries.new.entries ≡ without_first name.now (by_name entries.old.entries)) }
    ensures there { OnOk result (by_name there.new.entries
        ≡ with_named (by_name there.old.entries)
        (taken_name (entries_of (by_name entries.old.entries)) name.now) kind) }
{
    let taken = use_up(entries, name);
    push(alloc, there, taken, kind)?;
    Ok(())
}
