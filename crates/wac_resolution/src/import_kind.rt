//! What imports import.
ghost use Rattle.std.specs.Prelude.{IfOk};
ghost use Rattle.wac_ast_grammar.specs.Tree.{ImportType as ImportTree};
ghost use Rattle.wac_ast_types.specs.Declarations.{func_type_of};
ghost use Rattle.wac_ast_worlds.specs.Worlds.{import_type_of, inline_interface_of};
ghost use Rattle.wac_graph_types.specs.Table.{ItemsNamed};
ghost use Rattle.wac_resolution_rules.specs.Errors.{ErrorSays};
ghost use Rattle.wac_resolution_state.specs.Bindings.{values_of};
ghost use Rattle.wac_resolution_state.specs.Root.{Agrees};
ghost use Rattle.wac_resolution_state.specs.Expands.{AllSupplied};
ghost use Rattle.wac_resolution_state.specs.Context.{packages_in};
ghost use Rattle.wac_resolution.specs.ImportTypes.{FuncMade, FuncTypeBreaks, ImportMade, ImportTypeBreaks};

use wac_ast_types::FuncType;
use wac_ast_worlds::{ImportType, InlineInterface};
use wac_graph::ItemKind;
use wac_resolution_errors::Error;
use wac_resolution_state::{Context, Root, State, kind_of, path};
use wac_resolution_worlds::{OuterScope, interface, new_func};

/// The kind of a function whose type is written in place.
fn func_kind(func: &FuncType<'_>, state: &mut State, root: &Root<'_>) -> Result<ItemKind, Error>
    requires { ItemsNamed state.old.graph.types (values_of root.now.kinds) }
    ensures ok { IfOk result (FuncMade state.old.graph state.new.graph root.now (func_type_of func.now)) }
    ensures err { ErrorSays result (FuncTypeBreaks state.old.graph root.now (func_type_of func.now)) }
{
    match new_func(func, state, &root.kinds) {
        Ok(id) => Ok(ItemKind::Func(id)),
        Err(error) => Err(error),
    }
}

/// The kind of an interface that is written in place.
fn inline_kind(
    inline: &InlineInterface<'_>,
    state: &mut State,
    context: &Context<'_>,
    root: &Root<'_>,
) -> Result<ItemKind, Error>
    requires agrees { Agrees state.old.graph root.now }
    requires supplied { AllSupplied (packages_in context.now) state.old.graph }
    ensures ok { IfOk result (ImportMade context.now state.old.graph state.new.graph root.now
        (ImportTree.interface (inline_interface_of inline.now))) }
    ensures err { ErrorSays result (ImportTypeBreaks context.now state.old.graph root.now
        (ImportTree.interface (inline_interface_of inline.now))) }
{
    let outer = OuterScope {
        context,
        root: &root.kinds,
    };
    match interface(&inline.items, state, &outer, None, None) {
        Ok(id) => Ok(ItemKind::Instance(id)),
        Err(error) => Err(error),
    }
}

/// The kind that the type of an import means, before it is promoted.
pub(crate) fn import_kind(
    ty: &ImportType<'_>,
    state: &mut State,
    context: &Context<'_>,
    root: &Root<'_>,
) -> Result<ItemKind, Error>
    requires agrees { Agrees state.old.graph root.now }
    requires supplied { AllSupplied (packages_in context.now) state.old.graph }
    ensures ok { IfOk result (λ k. ImportMade context.now state.old.graph state.new.graph root.now
        (import_type_of ty.now) k) }
    ensures err { ErrorSays result (λ e. ImportTypeBreaks context.now state.old.graph root.now
        (import_type_of ty.now) e) }
{
    match ty {
        ImportType::Package(from) => path(state, context, &root.kinds, from),
        ImportType::Func(func) => func_kind(func, state, root),
        ImportType::Interface(inline) => inline_kind(inline, state, context, root),
        ImportType::Ident(id) => kind_of(state.alloc, &root.kinds, id),
    }
}
