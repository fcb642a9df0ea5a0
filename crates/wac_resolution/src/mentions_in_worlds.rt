//! What the items of worlds mention.
ghost use Rattle.std.specs.Prelude.{◌≡◌, OnOk, map, flat_map};
ghost use Rattle.wac_ast_worlds.specs.Worlds.{extern_type_of, world_decl_of, world_item_of, world_item_path_of};
ghost use Rattle.wac_ast_uses.specs.Uses.{world_ref_of};
ghost use Rattle.wac_resolution_rules.specs.Mentions.{extern_mentions, extern_type_mentions, world_item_mentions, world_ref_mentions};
ghost use Rattle.wac_resolution.specs.Noted.{Notes};

use crate::mentions::Mentions;
use crate::mentions_in_interfaces::{interface_items, use_path};
use std::alloc::AllocError;
use wac_ast_uses::WorldRef;
use wac_ast_worlds::{ExternType, WorldDecl, WorldItem, WorldItemPath};

/// Notes what the type of a named item mentions.
fn extern_type(ty: &ExternType<'_>, mentions: &mut Mentions<'_>) -> Result<(), AllocError>
    ensures { OnOk result (Notes mentions.old mentions.new
        (extern_type_mentions mentions.old.own (extern_type_of ty.now))) }
{
    match ty {
        ExternType::Interface(interface) => interface_items(&interface.items, mentions),
        ExternType::Ident(_) | ExternType::Func(_) => Ok(()),
    }
}

/// Notes what an import or export of a world mentions.
fn world_item_path(path: &WorldItemPath<'_>, mentions: &mut Mentions<'_>) -> Result<(), AllocError>
    ensures { OnOk result (Notes mentions.old mentions.new
        (extern_mentions mentions.old.own (world_item_path_of path.now))) }
{
    match path {
        WorldItemPath::Package(path) => mentions.path(path),
        WorldItemPath::Named(named) => extern_type(&named.ty, mentions),
        WorldItemPath::Ident(_) => Ok(()),
    }
}

/// Notes what the world of an `include` mentions.
fn world_ref(mentions: &mut Mentions<'_>, world: &WorldRef<'_>) -> Result<(), AllocError>
    ensures { OnOk result (Notes mentions.old mentions.new
        (world_ref_mentions mentions.old.own (world_ref_of world.now))) }
{
    match world {
        WorldRef::Package(path) => mentions.path(path),
        WorldRef::Ident(_) => Ok(()),
    }
}

/// Notes what an item mentions.
fn world_item(item: &WorldItem<'_>, mentions: &mut Mentions<'_>) -> Result<(), AllocError>
    ensures { OnOk result (Notes mentions.old mentions.new
        (world_item_mentions mentions.old.own (world_item_of item.now))) }
{
    match item {
        WorldItem::Use(used) => use_path(mentions, &used.path),
        WorldItem::Import(import) => world_item_path(&import.path, mentions),
        WorldItem::Export(export) => world_item_path(&export.path, mentions),
        WorldItem::Include(include) => world_ref(mentions, &include.world),
        WorldItem::Ty(_) => Ok(()),
    }
}

/// Notes what the items of a world mention.
fn world_items(items: &[WorldItem<'_>], mentions: &mut Mentions<'_>) -> Result<(), AllocError>
    ensures { OnOk result (Notes mentions.old mentions.new
        (flat_map (world_item_mentions mentions.old.own) (map world_item_of items.now))) }
{
    for item in items {
        world_item(item, mentions)?;
    }
    Ok(())
}

/// The items of a declared world. The prover follows them through a call at far less cost than as a part of the declaration.
fn items_of<'x, 'a>(world: &'x WorldDecl<'a>) -> &'x [WorldItem<'a>]
    ensures { result.now ≡ world.now.items.items }
{
    &world.items
}

/// Notes what a declared world mentions. The world comes first: the prover's work grows with the number of lifetimes before its own.
pub(crate) fn world(world: &WorldDecl<'_>, mentions: &mut Mentions<'_>) -> Result<(), AllocError>
    ensures { OnOk result (Notes mentions.old mentions.new
        (flat_map (world_item_mentions mentions.old.own) (world_decl_of world.now).items)) }
{
    world_items(items_of(world), mentions)
}
