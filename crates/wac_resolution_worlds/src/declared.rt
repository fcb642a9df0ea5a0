//! Interfaces and worlds that the document declares.
ghost use Rattle.std.specs.Prelude.{◌≡◌, ◌++◌, Some, IfOk, OnOk, map, option_map, string_bytes};
ghost use Rattle.wac_graph_types.specs.Table.{ItemsNamed};
ghost use Rattle.wac_ast_worlds.specs.Worlds.{world_item_of, interface_decl_of, world_decl_of};
ghost use Rattle.wac_graph.specs.Means.{declared_count};
ghost use Rattle.wac_graph.specs.Origin.{Numbering};
ghost use Rattle.wac_resolution_rules.specs.BrokenWorlds.{InterfaceBroken, WorldBroken};
ghost use Rattle.wac_resolution_rules.specs.Errors.{ErrorSays};
ghost use Rattle.wac_resolution_rules.specs.TypeStatements.{version_part};
ghost use Rattle.wac_resolution_state.specs.Bindings.{values_of};
ghost use Rattle.wac_resolution_state.specs.Named.{scope_of};
ghost use Rattle.wac_resolution_state.specs.Expands.{AllSupplied};
ghost use Rattle.wac_resolution_state.specs.Context.{packages_in, context_of};
ghost use Rattle.wac_resolution_worlds.specs.Declarations.{id_text, InterfaceDeclared, WorldDeclared};

use crate::interfaces::interface;
use crate::outer_scope::OuterScope;
use crate::worlds::world;
use std::alloc::{AllocError, Global};
use wac_ast_worlds::{InterfaceDecl, WorldDecl, WorldItem};
use wac_graph::{ItemKind, Type};
use wac_resolution_errors::Error;
use wac_resolution_state::{Context, State};

/// Adds a version after `@`, if there is one.
fn push_version(text: &mut String, version: Option<&str>) -> Result<(), AllocError>
    ensures { OnOk result (string_bytes text.new
        ≡ string_bytes text.old ++ version_part (option_map (λ v. v.now) version.entry)) }
{
    match version {
        Some(version) => {
            text.push_str("@")?;
            text.push_str(version)?;
            Ok(())
        }
        None => Ok(()),
    }
}

/// The id of an interface or world that the document declares.
fn declared_id(alloc: Global, context: &Context<'_>, name: &str) -> Result<String, AllocError>
    ensures { IfOk result (λ id. string_bytes id ≡ id_text context.now name.now) }
{
    let mut text = String::from_str(alloc, context.own)?;
    text.push_str("/")?;
    text.push_str(name)?;
    push_version(&mut text, context.version)?;
    Ok(text)
}

/// The kind of a declared interface.
pub fn interface_decl(
    decl: &InterfaceDecl<'_>,
    state: &mut State,
    outer: &OuterScope<'_>,
) -> Result<ItemKind, Error>
    requires root { ItemsNamed state.old.graph.types (values_of outer.now.root.now) }
    requires supplied { AllSupplied (packages_in outer.now.context.now) state.old.graph }
    ensures ok { IfOk result (λ k. InterfaceDeclared outer.now.context.now state.old.graph state.new.graph
        (values_of outer.now.root.now) (interface_decl_of decl.now) k) }
    ensures err { ErrorSays result (λ e. (numbering : Numbering)
        → InterfaceBroken (context_of numbering outer.now.context.now)
        (scope_of numbering state.old.graph (values_of outer.now.root.now)) (Some decl.now.id.string.now)
        (declared_count state.old.graph) (interface_decl_of decl.now).items e) }
{
    let id = declared_id(state.alloc, outer.context, decl.id.string)?;
    let name = Some(decl.id.string);
    let declared = interface(&decl.items, state, outer, Some(id), name)?;
    Ok(ItemKind::Ty(Type::Interface(declared)))
}

/// The items of a declared world.
fn items_of<'x, 'a>(decl: &'x WorldDecl<'a>) -> &'x [WorldItem<'a>]
    ensures { result.now ≡ decl.now.items.items }
{
    &decl.items
}

/// The kind of a declared world of a name and items.
fn world_of(
    items: &[WorldItem<'_>],
    state: &mut State,
    outer: &OuterScope<'_>,
    name: &str,
) -> Result<ItemKind, Error>
    requires root { ItemsNamed state.old.graph.types (values_of outer.now.root.now) }
    requires supplied { AllSupplied (packages_in outer.now.context.now) state.old.graph }
    ensures ok { IfOk result (λ k. WorldDeclared outer.now.context.now state.old.graph state.new.graph
        (values_of outer.now.root.now) name.now (map world_item_of items.now) k) }
    ensures err { ErrorSays result (λ e. (numbering : Numbering)
        → WorldBroken (context_of numbering outer.now.context.now)
        (scope_of numbering state.old.graph (values_of outer.now.root.now)) name.now (declared_count state.old.graph)
        (map world_item_of items.now) e) }
{
    let id = declared_id(state.alloc, outer.context, name)?;
    let declared = world(items, state, outer, Some(id), name)?;
    Ok(ItemKind::Ty(Type::World(declared)))
}

/// The kind of a declared world. The world comes first: the prover's work grows with the number of lifetimes before its own.
pub fn world_decl(
    decl: &WorldDecl<'_>,
    state: &mut State,
    outer: &OuterScope<'_>,
) -> Result<ItemKind, Error>
    requires root { ItemsNamed state.old.graph.types (values_of outer.now.root.now) }
    requires supplied { AllSupplied (packages_in outer.now.context.now) state.old.graph }
    ensures ok { IfOk result (λ k. WorldDeclared outer.now.context.now state.old.graph state.new.graph
        (values_of outer.now.root.now) decl.now.id.string.now (world_decl_of decl.now).items k) }
    ensures err { ErrorSays result (λ e. (numbering : Numbering)
        → WorldBroken (context_of numbering outer.now.context.now)
        (scope_of numbering state.old.graph (values_of outer.now.root.now)) decl.now.id.string.now
        (declared_count state.old.graph) (world_decl_of decl.now).items e) }
{
    world_of(items_of(decl), state, outer, decl.id.string)
}
