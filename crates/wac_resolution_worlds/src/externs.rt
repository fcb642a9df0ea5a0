//! Kinds of imports and exports that are given names.
ghost use Rattle.std.specs.Prelude.{◌≡◌, ◌++◌, ℕ, IfOk};
ghost use Rattle.wac_ast_grammar.specs.Tree.{ExternType as ExternTree};
ghost use Rattle.wac_graph_types.specs.Scope.{look_up};
ghost use Rattle.wac_ast_base.specs.Names.{ident_of};
ghost use Rattle.wac_graph.specs.Graph.{Parts};
ghost use Rattle.wac_graph.specs.Origin.{Numbering};
ghost use Rattle.wac_resolution_rules.specs.Paths.{Context};
ghost use Rattle.wac_resolution_rules.specs.BrokenWorlds.{ExternTypeBroken};
ghost use Rattle.wac_resolution_rules.specs.Errors.{ErrorSays};
ghost use Rattle.wac_resolution_state.specs.Bindings.{values_of};
ghost use Rattle.wac_resolution_state.specs.Named.{scope_of};
ghost use Rattle.wac_resolution_worlds.specs.Referred.{IsExternKind, IsNoExternKind, ExternNamed};

use std::alloc::Global;
use wac_ast_base::Ident;
use wac_graph::{ItemKind, Type};
use wac_resolution_errors::Error;
use wac_resolution_state::Names;

/// What a name denotes in a body, else at root.
#[tactic(auto, using(crate::proofs::Refer::either_found))]
fn find_in_either(
    names: &Names<'_, ItemKind>,
    root: &Names<'_, ItemKind>,
    name: &str,
) -> Option<ItemKind>
    ensures { result ≡ look_up name.now (values_of names.now ++ values_of root.now) }
{
    match names.find(name) {
        Some(kind) => Some(kind),
        None => root.find(name),
    }
}

/// The kind of the items of a function type or an interface.
#[tactic(auto, using(crate::proofs::Refer::items_told))]
fn item_of(alloc: Global, kind: ItemKind, id: &Ident<'_>) -> Result<ItemKind, Error>
    ensures ok { IfOk result (λ item. IsExternKind kind item) }
    ensures err { ErrorSays result (λ e. IsNoExternKind kind (ident_of id.now) e) }
{
    match kind {
        ItemKind::Ty(Type::Func(func)) => Ok(ItemKind::Func(func)),
        ItemKind::Ty(Type::Interface(interface)) => Ok(ItemKind::Instance(interface)),
        other => Err(Error::NotFuncOrInterface {
            name: String::from_str(alloc, id.string)?,
            kind: other.desc(),
            span: id.span,
        }),
    }
}

/// The kind of the items of what an identifier denotes in a body, else at root: a function type or an interface.
#[tactic(auto, using(crate::proofs::Refer::either_told))]
pub fn named_extern(
    alloc: Global,
    names: &Names<'_, ItemKind>,
    root: &Names<'_, ItemKind>,
    id: &Ident<'_>,
) -> Result<ItemKind, Error>
    ensures ok { IfOk result (λ k. ExternNamed (values_of names.now) (values_of root.now) (ident_of id.now) k) }
    ensures err { ErrorSays result (λ e. (numbering : Numbering) (g : Parts) (context : Context) (n : ℕ)
        → ExternTypeBroken context (scope_of numbering g (values_of root.now))
        (scope_of numbering g (values_of names.now)) n (ExternTree.ident (ident_of id.now)) e) }
{
    match find_in_either(names, root, id.string) {
        Some(kind) => Ok(item_of(alloc, kind, id)?),
        None => Err(Error::UndefinedName {
            name: String::from_str(alloc, id.string)?,
            span: id.span,
        }),
    }
}
