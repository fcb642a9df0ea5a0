//! The types of an interface that is named.
ghost use Rattle.std.specs.Prelude.{IfOk, OnOk};
ghost use Rattle.wac_graph_types.specs.Table.{ItemsNamed};
ghost use Rattle.wac_ast_uses.specs.Uses.{use_of, use_path_of};
ghost use Rattle.wac_graph.specs.Origin.{Numbering};
ghost use Rattle.wac_resolution_rules.specs.BrokenBodies.{UseBroken};
ghost use Rattle.wac_resolution_rules.specs.Errors.{ErrorSays};
ghost use Rattle.wac_resolution_state.specs.Bindings.{values_of};
ghost use Rattle.wac_resolution_state.specs.Named.{scope_of};
ghost use Rattle.wac_resolution_state.specs.Expands.{AllSupplied};
ghost use Rattle.wac_resolution_state.specs.Context.{packages_in, context_of};
ghost use Rattle.wac_resolution_types.specs.Lists.{lists_of};
ghost use Rattle.wac_resolution_types.specs.Bodies.{body_of, IsBody};
ghost use Rattle.wac_resolution_worlds.specs.UseStatements.{IsInterface, IsNoneNamed, UseStatementStep};

use crate::outer_scope::OuterScope;
use crate::used_interface::{interface_of, path_name, path_span};
use crate::used_item::UsedInterface;
use crate::used_items::use_items;
use wac_ast_uses::{Use, UsePath};
use wac_graph::{ExternKind, InterfaceId};
use wac_resolution_errors::Error;
use wac_resolution_state::{State, use_path};
use wac_resolution_types::Body;

/// The interface that a path or an identifier names.
fn used_interface(
    state: &mut State,
    outer: &OuterScope<'_>,
    path: &UsePath<'_>,
) -> Result<InterfaceId, Error>
    requires root { ItemsNamed state.old.graph.types (values_of outer.now.root.now) }
    requires supplied { AllSupplied (packages_in outer.now.context.now) state.old.graph }
    ensures ok { IfOk result (λ i. IsInterface outer.now.context.now state.old.graph state.new.graph
        (values_of outer.now.root.now) (use_path_of path.now) i) }
    ensures err { ErrorSays result (λ e. (numbering : Numbering)
        → IsNoneNamed (context_of numbering outer.now.context.now)
        (scope_of numbering state.old.graph (values_of outer.now.root.now)) (use_path_of path.now) e) }
{
    let kind = use_path(state, outer.context, outer.root, path)?;
    let name = path_name(path);
    let interface = interface_of(state.alloc, kind, name, path_span(path))?;
    Ok(interface)
}

/// Takes the used types from an interface.
pub(crate) fn use_statement<'a>(
    statement: &Use<'a>,
    state: &mut State,
    outer: &OuterScope<'_>,
    body: &mut Body<'a>,
    side: ExternKind,
) -> Result<(), Error>
    requires body { IsBody state.old.graph.types side (lists_of body.old) }
    requires root { ItemsNamed state.old.graph.types (values_of outer.now.root.now) }
    requires supplied { AllSupplied (packages_in outer.now.context.now) state.old.graph }
    ensures ok { OnOk result (UseStatementStep outer.now.context.now side state.old.graph state.new.graph
        (values_of outer.now.root.now) (lists_of body.old) (lists_of body.new) (use_of statement.now)) }
    ensures err { ErrorSays result (λ e. (numbering : Numbering)
        → UseBroken (context_of numbering outer.now.context.now)
        (scope_of numbering state.old.graph (values_of outer.now.root.now)) side
        (body_of numbering state.old.graph body.old) (use_of statement.now) e) }
{
    let interface = used_interface(state, outer, &statement.path)?;
    let path = path_name(&statement.path);
    let used = UsedInterface { interface, path };
    use_items(state, body, side, &used, &statement.items)?;
    Ok(())
}
