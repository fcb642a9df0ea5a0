//! What the items of interfaces mention.
ghost use Rattle.std.specs.Prelude.{OnOk, map};
ghost use Rattle.wac_ast_worlds.specs.Worlds.{interface_item_of};
ghost use Rattle.wac_ast_uses.specs.Uses.{use_path_of};
ghost use Rattle.wac_resolution_rules.specs.Mentions.{interface_item_mentions, interface_mentions, use_path_mentions};
ghost use Rattle.wac_resolution.specs.Noted.{Notes};

use crate::mentions::Mentions;
use std::alloc::AllocError;
use wac_ast_uses::UsePath;
use wac_ast_worlds::InterfaceItem;

/// Notes what the path of a `use` mentions.
pub(crate) fn use_path(mentions: &mut Mentions<'_>, path: &UsePath<'_>) -> Result<(), AllocError>
    ensures { OnOk result (Notes mentions.old mentions.new
        (use_path_mentions mentions.old.own (use_path_of path.now))) }
{
    match path {
        UsePath::Package(path) => mentions.path(path),
        UsePath::Ident(_) => Ok(()),
    }
}

/// Notes what an item mentions.
fn interface_item(item: &InterfaceItem<'_>, mentions: &mut Mentions<'_>) -> Result<(), AllocError>
    ensures { OnOk result (Notes mentions.old mentions.new
        (interface_item_mentions mentions.old.own (interface_item_of item.now))) }
{
    match item {
        InterfaceItem::Use(used) => use_path(mentions, &used.path),
        InterfaceItem::Export(_) | InterfaceItem::Ty(_) => Ok(()),
    }
}

/// Notes what the items of an interface mention.
pub(crate) fn interface_items(
    items: &[InterfaceItem<'_>],
    mentions: &mut Mentions<'_>,
) -> Result<(), AllocError>
    ensures { OnOk result (Notes mentions.old mentions.new
        (interface_mentions mentions.old.own (map interface_item_of items.now))) }
{
    for item in items {
        interface_item(item, mentions)?;
    }
    Ok(())
}
