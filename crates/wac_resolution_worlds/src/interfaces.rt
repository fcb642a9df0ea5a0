//! Interfaces.
ghost use Rattle.std.specs.Prelude.{◌≡◌, List, IfOk, OnOk, map, option_map, string_bytes};
ghost use Rattle.wac_ast_grammar.specs.Tree.{InterfaceItem as ItemTree};
ghost use Rattle.wac_graph_types.specs.declared.kind.ExternKind.TheVariants as sides;
ghost use Rattle.wac_graph_types.specs.Scope.{Scope};
ghost use Rattle.wac_graph_types.specs.Steps.{Fails};
ghost use Rattle.wac_graph_types.specs.Table.{ItemsNamed};
ghost use Rattle.wac_ast_worlds.specs.Worlds.{interface_export_of, interface_item_of};
ghost use Rattle.wac_graph.specs.Means.{declared_count};
ghost use Rattle.wac_graph.specs.Origin.{Numbering};
ghost use Rattle.wac_resolution_rules.specs.BrokenWorlds.{InterfaceItemBroken, InterfaceBroken};
ghost use Rattle.wac_resolution_rules.specs.Errors.{ErrorSays};
ghost use Rattle.wac_resolution_rules.specs.Paths as rules;
ghost use Rattle.wac_resolution_rules.specs.Places.{bound_in_interface};
ghost use Rattle.wac_resolution_rules.specs.Worlds.{HasInterfaceItem};
ghost use Rattle.wac_resolution_state.specs.Bindings.{values_of, places_of};
ghost use Rattle.wac_resolution_state.specs.Named.{scope_of};
ghost use Rattle.wac_resolution_state.specs.Expands.{AllSupplied};
ghost use Rattle.wac_resolution_state.specs.Context.{packages_in, context_of};
ghost use Rattle.wac_resolution_types.specs.Lists.{lists_of};
ghost use Rattle.wac_resolution_types.specs.Bodies.{body_of, IsBody};
ghost use Rattle.wac_resolution_types.specs.Owners.{owner_of};
ghost use Rattle.wac_resolution_worlds.specs.Made.{no_lists, FuncExportStep, InterfaceItemStep, InterfaceItemSteps, InterfaceOf, InterfaceMade};

use crate::functions::func_ref;
use crate::outer_scope::OuterScope;
use crate::use_statements::use_statement;
use std::alloc::AllocError;
use wac_ast_worlds::{InterfaceExport, InterfaceItem};
use wac_graph::{ExternKind, Interface, InterfaceId, ItemKind};
use wac_resolution_errors::Error;
use wac_resolution_state::State;
use wac_resolution_types::{Body, Owner, Section, check_extern};

/// Takes the export of a function.
fn interface_export(
    export: &InterfaceExport<'_>,
    state: &mut State,
    body: &mut Body<'_>,
    owner: &Owner<'_>,
) -> Result<(), Error>
    requires { IsBody state.old.graph.types sides.Export (lists_of body.old) }
    ensures ok { OnOk result (FuncExportStep state.old.graph state.new.graph (lists_of body.old) (lists_of body.new)
        (interface_export_of export.now)) }
    ensures err { ErrorSays result (λ e. (numbering : Numbering) (context : rules.Context) (root : Scope)
        (before : List ItemTree)
        → InterfaceItemBroken context root (owner_of owner.now) e (body_of numbering state.old.graph body.old) before
        (ItemTree.interface_export (interface_export_of export.now))) }
{
    let func = func_ref(&export.ty, state, &body.names)?;
    let id = &export.id;
    let section = Section {
        owner: *owner,
        side: ExternKind::Export,
    };
    check_extern(state.alloc, body, &section, id.string, id.span)?;
    body.add(
        state.alloc,
        ExternKind::Export,
        id.string,
        ItemKind::Func(func),
    )?;
    Ok(())
}

/// Takes an item of an interface.
fn interface_item<'a>(
    item: &InterfaceItem<'a>,
    state: &mut State,
    outer: &OuterScope<'_>,
    body: &mut Body<'a>,
    owner: &Owner<'_>,
) -> Result<(), Error>
    requires body { IsBody state.old.graph.types sides.Export (lists_of body.old) }
    requires root { ItemsNamed state.old.graph.types (values_of outer.now.root.now) }
    requires supplied { AllSupplied (packages_in outer.now.context.now) state.old.graph }
    ensures ok { OnOk result (InterfaceItemStep outer.now.context.now state.old.graph state.new.graph
        (values_of outer.now.root.now) (lists_of body.old) (lists_of body.new) (interface_item_of item.now)) }
    ensures err { ErrorSays result (λ e. (numbering : Numbering) (before : List ItemTree)
        → places_of body.old.names ≡ bound_in_interface before
        → InterfaceItemBroken (context_of numbering outer.now.context.now)
        (scope_of numbering state.old.graph (values_of outer.now.root.now)) (owner_of owner.now) e
        (body_of numbering state.old.graph body.old) before (interface_item_of item.now)) }
{
    match item {
        InterfaceItem::Use(used) => use_statement(used, state, outer, body, ExternKind::Export),
        InterfaceItem::Export(export) => interface_export(export, state, body, owner),
        InterfaceItem::Ty(decl) => {
            let section = Section {
                owner: *owner,
                side: ExternKind::Export,
            };
            wac_resolution_types::item(decl, state, body, &section)
        }
    }
}

/// Takes items of an interface, in order, into an empty body.
fn interface_items<'a>(
    items: &[InterfaceItem<'a>],
    state: &mut State,
    outer: &OuterScope<'_>,
    body: &mut Body<'a>,
    owner: &Owner<'_>,
) -> Result<(), Error>
    requires empty { lists_of body.old ≡ no_lists }
    requires root { ItemsNamed state.old.graph.types (values_of outer.now.root.now) }
    requires supplied { AllSupplied (packages_in outer.now.context.now) state.old.graph }
    ensures ok { OnOk result (InterfaceItemSteps outer.now.context.now state.old.graph state.new.graph
        (values_of outer.now.root.now) (lists_of body.old) (lists_of body.new) (map interface_item_of items.now)) }
    ensures err { ErrorSays result (λ e. (numbering : Numbering)
        → Fails (HasInterfaceItem (context_of numbering outer.now.context.now)
        (scope_of numbering state.old.graph (values_of outer.now.root.now)))
        (InterfaceItemBroken (context_of numbering outer.now.context.now)
        (scope_of numbering state.old.graph (values_of outer.now.root.now)) (owner_of owner.now) e)
        (body_of numbering state.old.graph body.old) (map interface_item_of items.now)) }
{
    for item in items {
        interface_item(item, state, outer, body, owner)?;
    }
    Ok(())
}

/// Adds an interface with the uses and exports of a body.
fn finish_interface(
    state: &mut State,
    id: Option<String>,
    body: Body<'_>,
) -> Result<InterfaceId, AllocError>
    requires { IsBody state.old.graph.types sides.Export (lists_of body) }
    ensures { IfOk result (λ i. InterfaceOf state.old.graph state.new.graph (option_map string_bytes id)
        (lists_of body.entry) i) }
{
    let Body { uses, exports, .. } = body;
    state.add_interface(Interface { id, uses, exports })
}

/// Adds an interface of items, which may have an id, and a name for errors.
pub fn interface(
    items: &[InterfaceItem<'_>],
    state: &mut State,
    outer: &OuterScope<'_>,
    id: Option<String>,
    name: Option<&str>,
) -> Result<InterfaceId, Error>
    requires root { ItemsNamed state.old.graph.types (values_of outer.now.root.now) }
    requires supplied { AllSupplied (packages_in outer.now.context.now) state.old.graph }
    ensures ok { IfOk result (λ i. InterfaceMade outer.now.context.now state.old.graph state.new.graph
        (values_of outer.now.root.now) (option_map string_bytes id) (map interface_item_of items.now) i) }
    ensures err { ErrorSays result (λ e. (numbering : Numbering)
        → InterfaceBroken (context_of numbering outer.now.context.now)
        (scope_of numbering state.old.graph (values_of outer.now.root.now)) (option_map (λ n. n.now) name.entry)
        (declared_count state.old.graph) (map interface_item_of items.now) e) }
{
    let mut body = Body::new(state.alloc);
    let owner = Owner::Interface(name);
    interface_items(items, state, outer, &mut body, &owner)?;
    Ok(finish_interface(state, id, body)?)
}
