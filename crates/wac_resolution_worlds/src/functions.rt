//! References to function types.
ghost use Rattle.std.specs.Prelude.{[], IfOk};
ghost use Rattle.wac_ast_grammar.specs.Tree.{FuncTypeRef as RefTree};
ghost use Rattle.wac_graph_types.specs.declared.kind.FuncKind.TheVariants as funcs;
ghost use Rattle.wac_graph_types.specs.Table.{ItemsNamed};
ghost use Rattle.wac_ast_base.specs.Names.{ident_of};
ghost use Rattle.wac_ast_types.specs.Declarations.{func_type_of, func_type_ref_of};
ghost use Rattle.wac_graph.specs.Graph.{Parts};
ghost use Rattle.wac_graph.specs.Origin.{Numbering};
ghost use Rattle.wac_resolution_rules.specs.BrokenTypes.{FuncBroken};
ghost use Rattle.wac_resolution_rules.specs.BrokenWorlds.{FuncRefBroken};
ghost use Rattle.wac_resolution_rules.specs.Errors.{ErrorSays};
ghost use Rattle.wac_resolution_state.specs.Bindings.{values_of};
ghost use Rattle.wac_resolution_state.specs.Named.{scope_of};
ghost use Rattle.wac_resolution_worlds.specs.Referred.{FuncNamed, NewFunc, FuncRefIs};

use indexmap::IndexMap;
use std::alloc::Global;
use wac_ast_base::Ident;
use wac_ast_types::{FuncType, FuncTypeRef};
use wac_graph::{FuncKind, FuncTypeId, ItemKind, Type};
use wac_resolution_errors::Error;
use wac_resolution_state::{Names, State, kind_of};

/// The function type that an identifier of a function or function type denotes.
#[tactic(auto, using(crate::proofs::Refer::funcs_found))]
fn named_func(
    alloc: Global,
    names: &Names<'_, ItemKind>,
    id: &Ident<'_>,
) -> Result<FuncTypeId, Error>
    ensures ok { IfOk result (λ f. FuncNamed (values_of names.now) (ident_of id.now) f) }
    ensures err { ErrorSays result (λ e. (numbering : Numbering) (g : Parts)
        → FuncRefBroken (scope_of numbering g (values_of names.now)) (RefTree.ident (ident_of id.now)) e) }
{
    match kind_of(alloc, names, id)? {
        ItemKind::Ty(Type::Func(func)) => Ok(func),
        ItemKind::Func(func) => Ok(func),
        other => Err(Error::NotFuncType {
            name: String::from_str(alloc, id.string)?,
            kind: other.desc(),
            span: id.span,
        }),
    }
}

/// Adds a function type that belongs to no resource.
pub fn new_func(
    func: &FuncType<'_>,
    state: &mut State,
    names: &Names<'_, ItemKind>,
) -> Result<FuncTypeId, Error>
    requires { ItemsNamed state.old.graph.types (values_of names.now) }
    ensures ok { IfOk result (λ f. NewFunc state.old.graph state.new.graph (values_of names.now)
        (func_type_of func.now) f) }
    ensures err { ErrorSays result (λ e. (numbering : Numbering)
        → FuncBroken funcs.Free (scope_of numbering state.old.graph (values_of names.now)) []
        (func_type_of func.now) e) }
{
    let first = IndexMap::new(state.alloc);
    Ok(wac_resolution_types::function(func, state, names, FuncKind::Free, first)?)
}

/// The function type of a reference.
pub fn func_ref(
    reference: &FuncTypeRef<'_>,
    state: &mut State,
    names: &Names<'_, ItemKind>,
) -> Result<FuncTypeId, Error>
    requires { ItemsNamed state.old.graph.types (values_of names.now) }
    ensures ok { IfOk result (λ f. FuncRefIs state.old.graph state.new.graph (values_of names.now)
        (func_type_ref_of reference.now) f) }
    ensures err { ErrorSays result (λ e. (numbering : Numbering)
        → FuncRefBroken (scope_of numbering state.old.graph (values_of names.now)) (func_type_ref_of reference.now) e) }
{
    match reference {
        FuncTypeRef::Func(func) => Ok(new_func(func, state, names)?),
        FuncTypeRef::Ident(id) => Ok(named_func(state.alloc, names, id)?),
    }
}
