//! Imports and exports of worlds.
ghost use Rattle.std.specs.Prelude.{IfOk, OnOk};
ghost use Rattle.wac_ast_grammar.specs.Tree.{WorldItemPath as PathTree};
ghost use Rattle.wac_graph_types.specs.declared.kind.ExternKind.TheVariants as sides;
ghost use Rattle.wac_graph_types.specs.Table.{ItemsNamed};
ghost use Rattle.wac_ast_base.specs.Names.{ident_of, package_path_of};
ghost use Rattle.wac_ast_worlds.specs.Worlds.{extern_type_of, named_world_item_of, world_item_path_of};
ghost use Rattle.wac_graph.specs.Means.{declared_count};
ghost use Rattle.wac_graph.specs.Origin.{Numbering};
ghost use Rattle.wac_resolution_rules.specs.BrokenWorlds.{ExternTypeBroken, ExternBroken};
ghost use Rattle.wac_resolution_rules.specs.Errors.{ErrorSays};
ghost use Rattle.wac_resolution_rules.specs.Paths as rules;
ghost use Rattle.wac_resolution_state.specs.Bindings.{values_of};
ghost use Rattle.wac_resolution_state.specs.Named.{scope_of};
ghost use Rattle.wac_resolution_state.specs.Expands.{AllSupplied};
ghost use Rattle.wac_resolution_state.specs.Context.{packages_in, context_of};
ghost use Rattle.wac_resolution_types.specs.Lists.{lists_of};
ghost use Rattle.wac_resolution_types.specs.Bodies.{body_of, IsBody};
ghost use Rattle.wac_resolution_types.specs.Owners.{owner_of};
ghost use Rattle.wac_resolution_worlds.specs.WorldItems.{ExternMade, IdentStep, ExternStep};

use crate::externs::named_extern;
use crate::functions::new_func;
use crate::instances::{NamedKind, instance};
use crate::interfaces::interface;
use crate::outer_scope::OuterScope;
use wac_ast_base::{Ident, PackagePath};
use wac_ast_worlds::{ExternType, NamedWorldItem, WorldItemPath};
use wac_graph::ItemKind;
use wac_resolution_errors::Error;
use wac_resolution_state::{Names, State, kind_of, path};
use wac_resolution_types::{Body, Section, check_extern};

/// The kind of an import or export that is given a name.
fn extern_type(
    ty: &ExternType<'_>,
    state: &mut State,
    outer: &OuterScope<'_>,
    names: &Names<'_, ItemKind>,
) -> Result<ItemKind, Error>
    requires names { ItemsNamed state.old.graph.types (values_of names.now) }
    requires root { ItemsNamed state.old.graph.types (values_of outer.now.root.now) }
    requires supplied { AllSupplied (packages_in outer.now.context.now) state.old.graph }
    ensures ok { IfOk result (λ k. ExternMade outer.now.context.now state.old.graph state.new.graph
        (values_of outer.now.root.now) (values_of names.now) (extern_type_of ty.now) k) }
    ensures err { ErrorSays result (λ e. (numbering : Numbering)
        → ExternTypeBroken (context_of numbering outer.now.context.now)
        (scope_of numbering state.old.graph (values_of outer.now.root.now))
        (scope_of numbering state.old.graph (values_of names.now)) (declared_count state.old.graph)
        (extern_type_of ty.now) e) }
{
    match ty {
        ExternType::Ident(id) => Ok(named_extern(state.alloc, names, outer.root, id)?),
        ExternType::Func(func) => Ok(ItemKind::Func(new_func(func, state, names)?)),
        ExternType::Interface(inline) => Ok(ItemKind::Instance(interface(
            &inline.items,
            state,
            outer,
            None,
            None,
        )?)),
    }
}

/// Takes an import or export that is given a name: the conflict first, then its type.
fn named_item(
    item: &NamedWorldItem<'_>,
    state: &mut State,
    outer: &OuterScope<'_>,
    body: &mut Body<'_>,
    section: &Section<'_>,
) -> Result<(), Error>
    requires body { IsBody state.old.graph.types sides.Import (lists_of body.old) }
    requires root { ItemsNamed state.old.graph.types (values_of outer.now.root.now) }
    requires supplied { AllSupplied (packages_in outer.now.context.now) state.old.graph }
    ensures ok { OnOk result (ExternStep outer.now.context.now section.now.side state.old.graph state.new.graph
        (values_of outer.now.root.now) (lists_of body.old) (lists_of body.new)
        (PathTree.named (named_world_item_of item.now))) }
    ensures err { ErrorSays result (λ e. (numbering : Numbering)
        → ExternBroken (context_of numbering outer.now.context.now)
        (scope_of numbering state.old.graph (values_of outer.now.root.now)) (owner_of section.now.owner)
        section.now.side (body_of numbering state.old.graph body.old)
        (PathTree.named (named_world_item_of item.now)) e) }
{
    let id = &item.id;
    check_extern(state.alloc, body, section, id.string, id.span)?;
    let kind = extern_type(&item.ty, state, outer, &body.names)?;
    body.add(state.alloc, section.side, id.string, kind)?;
    Ok(())
}

/// Takes an import or export of what a path resolves to.
fn path_item(
    state: &mut State,
    outer: &OuterScope<'_>,
    body: &mut Body<'_>,
    section: &Section<'_>,
    from: &PackagePath<'_>,
) -> Result<(), Error>
    requires body { IsBody state.old.graph.types sides.Import (lists_of body.old) }
    requires root { ItemsNamed state.old.graph.types (values_of outer.now.root.now) }
    requires supplied { AllSupplied (packages_in outer.now.context.now) state.old.graph }
    ensures ok { OnOk result (ExternStep outer.now.context.now section.now.side state.old.graph state.new.graph
        (values_of outer.now.root.now) (lists_of body.old) (lists_of body.new)
        (PathTree.path (package_path_of from.now))) }
    ensures err { ErrorSays result (λ e. (numbering : Numbering)
        → ExternBroken (context_of numbering outer.now.context.now)
        (scope_of numbering state.old.graph (values_of outer.now.root.now)) (owner_of section.now.owner)
        section.now.side (body_of numbering state.old.graph body.old) (PathTree.path (package_path_of from.now)) e) }
{
    let kind = path(state, outer.context, outer.root, from)?;
    let named = NamedKind {
        kind,
        text: from.string,
        span: from.span,
    };
    instance(state, body, section, &named)?;
    Ok(())
}

/// Takes an import or export of what an identifier denotes at root.
fn ident_item(
    state: &State,
    root: &Names<'_, ItemKind>,
    body: &mut Body<'_>,
    section: &Section<'_>,
    id: &Ident<'_>,
) -> Result<(), Error>
    requires body { IsBody state.now.graph.types sides.Import (lists_of body.old) }
    requires root { ItemsNamed state.now.graph.types (values_of root.now) }
    ensures ok { OnOk result (IdentStep section.now.side state.now.graph (values_of root.now) (lists_of body.old)
        (lists_of body.new) (ident_of id.now)) }
    ensures err { ErrorSays result (λ e. (numbering : Numbering) (context : rules.Context)
        → ExternBroken context (scope_of numbering state.now.graph (values_of root.now)) (owner_of section.now.owner)
        section.now.side (body_of numbering state.now.graph body.old) (PathTree.ident (ident_of id.now)) e) }
{
    let kind = kind_of(state.alloc, root, id)?;
    let named = NamedKind {
        kind,
        text: id.string,
        span: id.span,
    };
    instance(state, body, section, &named)?;
    Ok(())
}

/// Takes an import or export.
pub fn extern_item(
    item: &WorldItemPath<'_>,
    state: &mut State,
    outer: &OuterScope<'_>,
    body: &mut Body<'_>,
    section: &Section<'_>,
) -> Result<(), Error>
    requires body { IsBody state.old.graph.types sides.Import (lists_of body.old) }
    requires root { ItemsNamed state.old.graph.types (values_of outer.now.root.now) }
    requires supplied { AllSupplied (packages_in outer.now.context.now) state.old.graph }
    ensures ok { OnOk result (ExternStep outer.now.context.now section.now.side state.old.graph state.new.graph
        (values_of outer.now.root.now) (lists_of body.old) (lists_of body.new) (world_item_path_of item.now)) }
    ensures err { ErrorSays result (λ e. (numbering : Numbering)
        → ExternBroken (context_of numbering outer.now.context.now)
        (scope_of numbering state.old.graph (values_of outer.now.root.now)) (owner_of section.now.owner)
        section.now.side (body_of numbering state.old.graph body.old) (world_item_path_of item.now) e) }
{
    match item {
        WorldItemPath::Named(item) => named_item(item, state, outer, body, section),
        WorldItemPath::Package(from) => path_item(state, outer, body, section, from),
        WorldItemPath::Ident(id) => ident_item(state, outer.root, body, section, id),
    }
}
