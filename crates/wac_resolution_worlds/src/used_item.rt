//! A used type, by its parts.
ghost use Rattle.std.specs.Prelude.{◌≡◌, ◌⊎◌, IfOk, OnOk, option_map, string_bytes};
ghost use Rattle.wac_graph_types.specs.declared.kind.ItemKind.TheVariants as kinds;
ghost use Rattle.wac_graph_types.specs.Scope.{IsFresh};
ghost use Rattle.wac_graph_types.specs.Table.{Names as NamesEntry};
ghost use Rattle.wac_ast_base.specs.Names.{ident_of};
ghost use Rattle.wac_ast_uses.specs.Uses.{use_item_of};
ghost use Rattle.wac_graph.specs.Graph.{Parts};
ghost use Rattle.wac_graph.specs.Means.{means};
ghost use Rattle.wac_graph.specs.Origin.{Numbering};
ghost use Rattle.wac_resolution_rules.specs.Bodies.{used_as as used_by, renamed_from};
ghost use Rattle.wac_resolution_rules.specs.BrokenBodies.{help_unless, IsNoTypeThere, IsNoUsableType, IsUseConflict};
ghost use Rattle.wac_resolution_rules.specs.Errors.{ErrorSays};
ghost use Rattle.wac_resolution_types.specs.Lists.{lists_of, kinds_of};
ghost use Rattle.wac_resolution_types.specs.Bodies.{body_of};
ghost use Rattle.wac_resolution_worlds.specs.Used.{IsThere, IsUsed};

use std::alloc::{AllocError, Global};
use wac_ast_base::Ident;
use wac_ast_uses::UseItem;
use wac_graph::{ExternKind, InterfaceId, ItemKind, Type};
use wac_resolution_errors::Error;
use wac_resolution_state::State;
use wac_resolution_types::Body;

/// An interface whose types are used, and the path or identifier that names it.
#[derive(Clone, Copy)]
pub struct UsedInterface<'p> {
    /// The interface.
    pub interface: InterfaceId,
    /// The text of the path or identifier.
    pub path: &'p str,
}

/// The identifier that a used type has here.
pub(crate) fn used_as<'x, 'a>(item: &'x UseItem<'a>) -> &'x Ident<'a>
    ensures { ident_of result.now ≡ used_by (use_item_of item.now) }
{
    match &item.as_id {
        Some(id) => id,
        None => &item.id,
    }
}

/// The name of a used type in its interface, where it is another one.
pub(crate) fn renamed(alloc: Global, item: &UseItem<'_>) -> Result<Option<String>, AllocError>
    ensures { IfOk result (λ n. option_map string_bytes n ≡ renamed_from (use_item_of item.now)) }
{
    match &item.as_id {
        Some(_) => Ok(Some(String::from_str(alloc, item.id.string)?)),
        None => Ok(None),
    }
}

/// What can be done where the name is taken.
fn help_of_use(item: &UseItem<'_>) -> Option<&'static str>
    ensures { option_map (λ t. t.now) result ≡ help_unless (use_item_of item.now).as_id }
{
    match &item.as_id {
        Some(_) => None,
        None => Some("consider using an `as` clause to use a different name"),
    }
}

/// What an interface exports under the name of a used type.
fn exported(state: &State, used: &UsedInterface<'_>, item: &UseItem<'_>) -> Result<ItemKind, Error>
    requires { NamesEntry state.now.graph.types (kinds.Instance used.now.interface) }
    ensures ok { IfOk result (λ k. IsThere state.now.graph used.now.interface (use_item_of item.now) k) }
    ensures err { ErrorSays result (λ e. (numbering : Numbering)
        → IsNoTypeThere (means numbering state.now.graph (kinds.Instance used.now.interface)) used.now.path.now
        (use_item_of item.now) e) }
{
    match state
        .graph
        .export(ItemKind::Instance(used.interface), item.id.string)
    {
        Some(kind) => Ok(kind),
        None => Err(Error::UndefinedInterfaceType {
            name: String::from_str(state.alloc, item.id.string)?,
            interface_name: String::from_str(state.alloc, used.path)?,
            span: item.id.span,
        }),
    }
}

/// The resource or type of values that an interface exports under the name of a used type.
#[tactic(auto, using(crate::proofs::UsedItems::kinds_used))]
pub(crate) fn used_kind(
    state: &State,
    used: &UsedInterface<'_>,
    item: &UseItem<'_>,
) -> Result<ItemKind, Error>
    requires { NamesEntry state.now.graph.types (kinds.Instance used.now.interface) }
    ensures ok { IfOk result (λ k. IsUsed state.now.graph used.now.interface (use_item_of item.now) k) }
    ensures err { ErrorSays result (λ e. (numbering : Numbering)
        → IsNoTypeThere (means numbering state.now.graph (kinds.Instance used.now.interface)) used.now.path.now
        (use_item_of item.now) e
        ⊎ IsNoUsableType (means numbering state.now.graph (kinds.Instance used.now.interface)) used.now.path.now
        (use_item_of item.now) e) }
{
    match exported(state, used, item)? {
        ItemKind::Ty(Type::Resource(resource)) => Ok(ItemKind::Ty(Type::Resource(resource))),
        ItemKind::Ty(Type::Value(value)) => Ok(ItemKind::Ty(Type::Value(value))),
        other => Err(Error::NotInterfaceValueType {
            name: String::from_str(state.alloc, item.id.string)?,
            kind: other.desc(),
            interface_name: String::from_str(state.alloc, used.path)?,
            span: item.id.span,
        }),
    }
}

/// Rejects a used type whose name here is imported, or exported, already.
pub(crate) fn check_use(
    alloc: Global,
    body: &Body<'_>,
    side: ExternKind,
    item: &UseItem<'_>,
) -> Result<(), Error>
    ensures ok { OnOk result (IsFresh (used_by (use_item_of item.now)).string (kinds_of side (lists_of body.now))) }
    ensures err { ErrorSays result (λ e. (numbering : Numbering) (g : Parts)
        → IsUseConflict side (body_of numbering g body.now) (use_item_of item.now) e) }
{
    let id = used_as(item);
    match body.find(side, id.string) {
        Some(_) => Err(Error::UseConflict {
            kind: side,
            name: String::from_str(alloc, id.string)?,
            span: id.span,
            help: help_of_use(item),
        }),
        None => Ok(()),
    }
}
