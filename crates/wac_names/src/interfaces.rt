//! Names in interfaces.
ghost use Rattle.std.specs.Prelude.{OnOk, flat_map, map};
ghost use Rattle.wac_ast_worlds.specs.Worlds.{interface_decl_of, interface_export_of, interface_item_of};
ghost use Rattle.wac_names.specs.Steps.{func_ref_steps, interface_item_steps, interface_steps, type_statement_steps};
ghost use Rattle.wac_ast_grammar.specs.Tree.{TypeStatement};
ghost use Rattle.wac_names.specs.Traced.{Takes};

use crate::declarations::item_type;
use crate::finder::Finder;
use crate::names::Kind;
use crate::place::{Denoted, Part, Place};
use crate::steps::Level;
use crate::types::function_reference;
use crate::uses::use_statement;
use std::alloc::AllocError;
use wac_ast_worlds::{InterfaceDecl, InterfaceExport, InterfaceItem};

/// Notes a function of an interface.
fn interface_export<'a>(
    export: &InterfaceExport<'a>,
    finder: &mut Finder<'a>,
    place: Place,
) -> Result<(), AllocError>
    ensures { OnOk result (Takes finder.old finder.new
        (func_ref_steps place.here.level (interface_export_of export.now).ty)) }
{
    let binding = finder.declare(&export.id, Kind::Function, place.owner)?;
    function_reference(&export.ty, finder, place.here, binding)?;
    let denoted = Denoted::new(binding, None);
    finder.bind_outside(place.here.scope, Part::Exports, &export.id, denoted)
}

/// Notes the names of an item.
fn interface_item<'a>(
    item: &InterfaceItem<'a>,
    finder: &mut Finder<'a>,
    place: Place,
) -> Result<(), AllocError>
    ensures { OnOk result (Takes finder.old finder.new
        (interface_item_steps place.here.level (interface_item_of item.now))) }
{
    match item {
        InterfaceItem::Use(used) => use_statement(used, finder, place),
        InterfaceItem::Export(export) => interface_export(export, finder, place),
        InterfaceItem::Ty(decl) => item_type(decl, finder, place),
    }
}

/// Notes the names of items.
fn interface_items<'a>(
    items: &[InterfaceItem<'a>],
    finder: &mut Finder<'a>,
    place: Place,
) -> Result<(), AllocError>
    ensures { OnOk result (Takes finder.old finder.new
        (flat_map (interface_item_steps place.here.level) (map interface_item_of items.now))) }
{
    for item in items {
        interface_item(item, finder, place)?;
    }
    Ok(())
}

/// Notes the names of the items of an interface, in the declaration of the name of a number, and returns its scope.
pub(crate) fn interface<'a>(
    items: &[InterfaceItem<'a>],
    finder: &mut Finder<'a>,
    level: Level,
    owner: usize,
) -> Result<usize, AllocError>
    ensures { OnOk result (Takes finder.old finder.new (interface_steps level (map interface_item_of items.now))) }
{
    let place = finder.open_body(level, owner, Part::Exports)?;
    interface_items(items, finder, place)?;
    Ok(place.here.scope)
}

/// Notes the names of a declared interface. It is bound after its items, so that they can't name it.
pub(crate) fn interface_decl<'a>(
    decl: &InterfaceDecl<'a>,
    finder: &mut Finder<'a>,
) -> Result<(), AllocError>
    ensures { OnOk result (Takes finder.old finder.new
        (type_statement_steps (TypeStatement.interface (interface_decl_of decl.now)))) }
{
    let binding = finder.declare(&decl.id, Kind::Interface, None)?;
    let scope = Some(interface(&decl.items, finder, Level::Body, binding)?);
    finder.bind_at_root(&decl.id, Denoted::new(binding, scope))
}
