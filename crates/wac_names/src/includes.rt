//! Names in `include`.

use crate::known::Known;
use crate::names::Kind;
use crate::place::{Denoted, Part, Place};
use std::alloc::AllocError;
use wac_ast_base::Ident;
use wac_ast_uses::WorldIncludeItem;

/// An include.
#[derive(Clone, Copy)]
struct Inclusion {
    /// Where it is.
    place: Place,
    /// The scope of the world that is included. A world of another package has none.
    from: Option<usize>,
    /// A scope of the names that are renamed.
    renamed: usize,
}

/// What an included world has under a name, and on which side: an import comes first.
fn item_of(known: &Known<'_>, from: Option<usize>, name: &str) -> Option<(Part, Denoted)> {
    if let Some(denoted) = known.find(from, Part::Imports, name) {
        return Some((Part::Imports, denoted));
    }
    let denoted = known.find(from, Part::Exports, name)?;
    Some((Part::Exports, denoted))
}

/// Notes a new name for an item on a side.
fn rename<'a>(
    known: &mut Known<'a>,
    inclusion: Inclusion,
    side: Part,
    denoted: Denoted,
    item: &WorldIncludeItem<'a>,
) -> Result<(), AllocError> {
    known.mention_member(&item.from, denoted)?;
    known.bind(inclusion.renamed, side, &item.from, denoted)?;
    let binding = known.declare(&item.to, Kind::IncludedItem, inclusion.place.owner)?;
    known.bind(
        inclusion.place.here.scope,
        side,
        &item.to,
        Denoted::new(binding, denoted.scope),
    )
}

/// Notes a new name for an item that the document doesn't declare. It may be on either side.
fn rename_unknown<'a>(
    known: &mut Known<'a>,
    place: Place,
    to: &Ident<'a>,
) -> Result<(), AllocError> {
    let binding = known.declare(to, Kind::IncludedItem, place.owner)?;
    let denoted = Denoted::new(binding, None);
    let scope = place.here.scope;
    known.bind(scope, Part::Imports, to, denoted)?;
    known.bind(scope, Part::Exports, to, denoted)
}

/// Notes an entry of `with`.
fn entry<'a>(
    known: &mut Known<'a>,
    inclusion: Inclusion,
    item: &WorldIncludeItem<'a>,
) -> Result<(), AllocError> {
    match item_of(known, inclusion.from, item.from.string) {
        Some((side, denoted)) => rename(known, inclusion, side, denoted, item),
        None => rename_unknown(known, inclusion.place, &item.to),
    }
}

/// Notes the entries of `with`.
fn entries<'a>(
    known: &mut Known<'a>,
    inclusion: Inclusion,
    items: &[WorldIncludeItem<'a>],
) -> Result<(), AllocError> {
    for item in items {
        entry(known, inclusion, item)?;
    }
    Ok(())
}

/// Binds an item of the included world on a side, unless it is renamed.
fn include_item(
    known: &mut Known<'_>,
    inclusion: Inclusion,
    from: usize,
    side: Part,
    at: usize,
) -> Result<(), AllocError> {
    let Some((word, denoted)) = known.entry(from, side, at) else {
        return Ok(());
    };
    if known.find_word(inclusion.renamed, side, word).is_some() {
        return Ok(());
    }
    known.bind_word(inclusion.place.here.scope, side, word, denoted)
}

/// Binds the items of the included world on a side that aren't renamed.
fn include_side(
    known: &mut Known<'_>,
    inclusion: Inclusion,
    from: usize,
    side: Part,
) -> Result<(), AllocError> {
    for at in 0..known.count(from, side) {
        include_item(known, inclusion, from, side, at)?;
    }
    Ok(())
}

/// Binds the items of the included world that aren't renamed.
fn include_rest(known: &mut Known<'_>, inclusion: Inclusion) -> Result<(), AllocError> {
    match inclusion.from {
        Some(from) => {
            include_side(known, inclusion, from, Part::Imports)?;
            include_side(known, inclusion, from, Part::Exports)
        }
        None => Ok(()),
    }
}

/// Notes what an `include` at a place takes of the world with this scope, and renames.
pub(crate) fn include_items<'a>(
    known: &mut Known<'a>,
    place: Place,
    from: Option<usize>,
    items: &[WorldIncludeItem<'a>],
) -> Result<(), AllocError> {
    let renamed = known.open()?;
    let inclusion = Inclusion {
        place,
        from,
        renamed,
    };
    entries(known, inclusion, items)?;
    include_rest(known, inclusion)
}
