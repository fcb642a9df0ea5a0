//! Names in worlds.
ghost use Rattle.std.specs.Prelude.{◌≡◌, ◌++◌, [], ◌∷◌, OnOk, flat_map, map};
ghost use Rattle.wac_ast_base.specs.Names.{ident_of};
ghost use Rattle.wac_ast_grammar.specs.Tree.{TypeStatement};
ghost use Rattle.wac_ast_uses.specs.Uses.{world_include_of};
ghost use Rattle.wac_ast_worlds.specs.Worlds.{extern_type_of, named_world_item_of, world_decl_of, world_item_of, world_item_path_of};
ghost use Rattle.wac_names.specs.declared.steps.Level.TheVariants as levels;
ghost use Rattle.wac_names.specs.Steps.{Step, extern_steps, extern_type_steps, type_statement_steps, world_item_steps, world_ref_steps, world_steps};
ghost use Rattle.wac_names.specs.Traced.{Takes};

use crate::declarations::item_type;
use crate::finder::Finder;
use crate::interfaces::interface;
use crate::names::Kind;
use crate::paths::{at_root, path, world_ref};
use crate::place::{Denoted, Here, Part, Place, after};
use crate::steps::Level;
use crate::types::function;
use crate::uses::use_statement;
use std::alloc::AllocError;
use wac_ast_base::Ident;
use wac_ast_uses::WorldInclude;
use wac_ast_worlds::{ExternType, NamedWorldItem, WorldDecl, WorldItem, WorldItemPath};

/// Notes the type that an identifier denotes in a body, else at root, and returns the scope after it.
fn named_extern<'a>(
    finder: &mut Finder<'a>,
    here: Here,
    id: &Ident<'a>,
) -> Result<Option<usize>, AllocError>
    ensures { OnOk result (Takes finder.old finder.new (Step.looks_outwards here.level (ident_of id.now) ∷ [])) }
{
    let found = finder.look_outwards(here, id)?;
    Ok(after(found))
}

/// Notes the names of the type of an item, in the declaration of the name of a number, and returns the scope after it.
fn extern_type<'a>(
    ty: &ExternType<'a>,
    finder: &mut Finder<'a>,
    here: Here,
    owner: usize,
) -> Result<Option<usize>, AllocError>
    ensures { OnOk result (Takes finder.old finder.new (extern_type_steps here.level (extern_type_of ty.now))) }
{
    match ty {
        ExternType::Ident(id) => named_extern(finder, here, id),
        ExternType::Func(func) => {
            function(func, finder, here, owner)?;
            Ok(None)
        }
        ExternType::Interface(inline) => {
            let inner = interface(&inline.items, finder, Level::Inner, owner)?;
            Ok(Some(inner))
        }
    }
}

/// What binds the name of an item on a side.
fn kind_on(side: Part) -> Kind {
    match side {
        Part::Exports => Kind::WorldExport,
        Part::Imports | Part::Names => Kind::WorldImport,
    }
}

/// Notes an import or export with a name.
fn named_item<'a>(
    item: &NamedWorldItem<'a>,
    finder: &mut Finder<'a>,
    place: Place,
    side: Part,
) -> Result<(), AllocError>
    ensures { OnOk result (Takes finder.old finder.new
        (extern_type_steps place.here.level (named_world_item_of item.now).ty)) }
{
    let binding = finder.declare(&item.id, kind_on(side), place.owner)?;
    let scope = extern_type(&item.ty, finder, place.here, binding)?;
    let denoted = Denoted::new(binding, scope);
    finder.bind_outside(place.here.scope, side, &item.id, denoted)
}

/// Notes the names of an import or export.
fn extern_item<'a>(
    item: &WorldItemPath<'a>,
    finder: &mut Finder<'a>,
    place: Place,
    side: Part,
) -> Result<(), AllocError>
    ensures { OnOk result (Takes finder.old finder.new
        (extern_steps place.here.level (world_item_path_of item.now))) }
{
    match item {
        WorldItemPath::Named(item) => named_item(item, finder, place, side),
        WorldItemPath::Package(from) => {
            path(finder, from)?;
            Ok(())
        }
        WorldItemPath::Ident(id) => {
            at_root(finder, id)?;
            Ok(())
        }
    }
}

/// Notes the names of an `include`.
fn include<'a>(
    clause: &WorldInclude<'a>,
    finder: &mut Finder<'a>,
    place: Place,
) -> Result<(), AllocError>
    ensures { OnOk result (Takes finder.old finder.new (world_ref_steps (world_include_of clause.now).world)) }
{
    let from = world_ref(finder, &clause.world)?;
    finder.include(place, from, &clause.with)
}

/// Notes the names of an item.
fn world_item<'a>(
    item: &WorldItem<'a>,
    finder: &mut Finder<'a>,
    place: Place,
) -> Result<(), AllocError>
    ensures { OnOk result (Takes finder.old finder.new
        (world_item_steps place.here.level (world_item_of item.now))) }
{
    match item {
        WorldItem::Use(used) => use_statement(used, finder, place),
        WorldItem::Import(import) => extern_item(&import.path, finder, place, Part::Imports),
        WorldItem::Export(export) => extern_item(&export.path, finder, place, Part::Exports),
        WorldItem::Include(clause) => include(clause, finder, place),
        WorldItem::Ty(decl) => item_type(decl, finder, place),
    }
}

/// Notes the names of items.
fn world_items<'a>(
    items: &[WorldItem<'a>],
    finder: &mut Finder<'a>,
    place: Place,
) -> Result<(), AllocError>
    ensures { OnOk result (Takes finder.old finder.new
        (flat_map (world_item_steps place.here.level) (map world_item_of items.now))) }
{
    for item in items {
        world_item(item, finder, place)?;
    }
    Ok(())
}

/// Notes the names of a world of a name and items. It is bound after its items, so that they can't name it.
fn world<'a>(
    items: &[WorldItem<'a>],
    finder: &mut Finder<'a>,
    id: &Ident<'a>,
) -> Result<(), AllocError>
    ensures { OnOk result (Takes finder.old finder.new
        (world_steps (map world_item_of items.now) ++ Step.binds levels.Root (ident_of id.now) ∷ [])) }
{
    let binding = finder.declare(id, Kind::World, None)?;
    let place = finder.open_body(Level::Body, binding, Part::Imports)?;
    world_items(items, finder, place)?;
    let scope = Some(place.here.scope);
    finder.bind_at_root(id, Denoted::new(binding, scope))
}

/// The items of a declared world. The prover follows them through a call at far less cost than as a part of the declaration.
fn items_of<'x, 'a>(decl: &'x WorldDecl<'a>) -> &'x [WorldItem<'a>]
    ensures { result.now ≡ decl.now.items.items }
{
    &decl.items
}

/// Notes the names of a declared world. The world comes first: the prover's work grows with the number of lifetimes before its own.
pub(crate) fn world_decl<'a>(
    decl: &WorldDecl<'a>,
    finder: &mut Finder<'a>,
) -> Result<(), AllocError>
    ensures { OnOk result (Takes finder.old finder.new
        (type_statement_steps (TypeStatement.world (world_decl_of decl.now)))) }
{
    world(items_of(decl), finder, &decl.id)
}
