//! Names in `use`.
ghost use Rattle.std.specs.Prelude.{[], ◌∷◌, OnOk, flat_map, map};
ghost use Rattle.wac_ast_base.specs.Names.{ident_of};
ghost use Rattle.wac_ast_uses.specs.Uses.{use_item_of, use_of};
ghost use Rattle.wac_names.specs.Steps.{Step, use_item_steps, use_steps};
ghost use Rattle.wac_names.specs.Traced.{Takes};

use crate::finder::Finder;
use crate::names::Kind;
use crate::paths::use_path;
use crate::place::{Denoted, Place};
use std::alloc::AllocError;
use wac_ast_base::Ident;
use wac_ast_uses::{Use, UseItem};

/// Notes a used type under a name that is bound here.
fn used_as<'a>(finder: &mut Finder<'a>, place: Place, id: &Ident<'a>) -> Result<(), AllocError>
    ensures { OnOk result (Takes finder.old finder.new (Step.binds place.here.level (ident_of id.now) ∷ [])) }
{
    let binding = finder.declare(id, Kind::UsedType, place.owner)?;
    finder.bind_type(place, id, Denoted::new(binding, None))
}

/// Notes a used type under its own name. Where the document declares it, that is the same name; else it is bound here.
fn used_itself<'a>(
    finder: &mut Finder<'a>,
    place: Place,
    id: &Ident<'a>,
    found: Option<Denoted>,
) -> Result<(), AllocError>
    ensures { OnOk result (Takes finder.old finder.new (Step.binds place.here.level (ident_of id.now) ∷ [])) }
{
    match found {
        Some(denoted) => finder.bind_used(place, id, denoted),
        None => used_as(finder, place, id),
    }
}

/// Notes a type that is used from an interface with this scope.
fn use_item<'a>(
    finder: &mut Finder<'a>,
    place: Place,
    from: Option<usize>,
    item: &UseItem<'a>,
) -> Result<(), AllocError>
    ensures { OnOk result (Takes finder.old finder.new (use_item_steps place.here.level (use_item_of item.now))) }
{
    let found = finder.member(from, &item.id)?;
    match &item.as_id {
        Some(id) => used_as(finder, place, id),
        None => used_itself(finder, place, &item.id, found),
    }
}

/// Notes types that are used from an interface with this scope.
fn use_items<'a>(
    finder: &mut Finder<'a>,
    place: Place,
    from: Option<usize>,
    items: &[UseItem<'a>],
) -> Result<(), AllocError>
    ensures { OnOk result (Takes finder.old finder.new
        (flat_map (use_item_steps place.here.level) (map use_item_of items.now))) }
{
    for item in items {
        use_item(finder, place, from, item)?;
    }
    Ok(())
}

/// Notes the names of a `use`.
pub(crate) fn use_statement<'a>(
    used: &Use<'a>,
    finder: &mut Finder<'a>,
    place: Place,
) -> Result<(), AllocError>
    ensures { OnOk result (Takes finder.old finder.new (use_steps place.here.level (use_of used.now))) }
{
    let from = use_path(finder, &used.path)?;
    use_items(finder, place, from, &used.items)
}
