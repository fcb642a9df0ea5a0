//! What identifiers denote.
ghost use Rattle.std.specs.Prelude.{IfOk};
ghost use Rattle.wac_lexer.specs.Span.{Span};
ghost use Rattle.wac_ast_grammar.specs.Tree.{Ty};
ghost use Rattle.wac_ast_base.specs.Names.{ident_of};
ghost use Rattle.wac_graph.specs.Graph.{Parts};
ghost use Rattle.wac_graph.specs.Origin.{Numbering};
ghost use Rattle.wac_resolution_rules.specs.BrokenTypes.{IsUndefined, TypeBroken};
ghost use Rattle.wac_resolution_rules.specs.Errors.{ErrorSays};
ghost use Rattle.wac_resolution_state.specs.Bindings.{values_of};
ghost use Rattle.wac_resolution_state.specs.Named.{scope_of, KindIs, ValueIs};

use crate::names::Names;
use std::alloc::Global;
use wac_ast_base::Ident;
use wac_graph::{ItemKind, ResourceId, Type, ValueType};
use wac_resolution_errors::Error;

/// The kind that an identifier denotes.
#[tactic(auto, using(crate::proofs::Scopes::kinds_found))]
pub fn kind_of(
    alloc: Global,
    names: &Names<'_, ItemKind>,
    id: &Ident<'_>,
) -> Result<ItemKind, Error>
    ensures ok { IfOk result (λ k. KindIs (values_of names.now) (ident_of id.now) k) }
    ensures err { ErrorSays result (λ e. (numbering : Numbering) (g : Parts)
        → IsUndefined (scope_of numbering g (values_of names.now)) (ident_of id.now) e) }
{
    match names.find(id.string) {
        Some(kind) => Ok(kind),
        None => Err(Error::UndefinedName {
            name: String::from_str(alloc, id.string)?,
            span: id.span,
        }),
    }
}

/// The type of values that an identifier denotes.
#[tactic(auto, using(crate::proofs::Scopes::values_found))]
pub fn named_type(
    alloc: Global,
    names: &Names<'_, ItemKind>,
    id: &Ident<'_>,
) -> Result<ValueType, Error>
    ensures ok { IfOk result (λ v. ValueIs (values_of names.now) (Ty.ident (ident_of id.now)) v) }
    ensures err { ErrorSays result (λ e. (numbering : Numbering) (g : Parts)
        → TypeBroken (scope_of numbering g (values_of names.now)) (Ty.ident (ident_of id.now)) e) }
{
    match kind_of(alloc, names, id)? {
        ItemKind::Ty(Type::Resource(resource)) => Ok(ValueType::Own(resource)),
        ItemKind::Ty(Type::Value(value)) => Ok(value),
        other => Err(Error::NotValueType {
            name: String::from_str(alloc, id.string)?,
            kind: other.desc(),
            span: id.span,
        }),
    }
}

/// The resource type that an identifier denotes.
#[tactic(auto, using(crate::proofs::Scopes::values_found))]
pub fn named_resource(
    alloc: Global,
    names: &Names<'_, ItemKind>,
    id: &Ident<'_>,
) -> Result<ResourceId, Error>
    ensures ok { IfOk result (λ r. (s : Span)
        → ValueIs (values_of names.now) (Ty.borrow (ident_of id.now) s) (ValueType.Borrow r)) }
    ensures err { ErrorSays result (λ e. (numbering : Numbering) (g : Parts) (s : Span)
        → TypeBroken (scope_of numbering g (values_of names.now)) (Ty.borrow (ident_of id.now) s) e) }
{
    match kind_of(alloc, names, id)? {
        ItemKind::Ty(Type::Resource(resource)) => Ok(resource),
        other => Err(Error::NotResourceType {
            name: String::from_str(alloc, id.string)?,
            kind: other.desc(),
            span: id.span,
        }),
    }
}
