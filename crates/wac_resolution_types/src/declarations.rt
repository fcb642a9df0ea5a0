//! Declarations of types at root.
ghost use Rattle.std.specs.Prelude.{IfOk};
ghost use Rattle.wac_graph_types.specs.Table.{ItemsNamed};
ghost use Rattle.wac_ast_types.specs.Declarations.{type_decl_of};
ghost use Rattle.wac_graph.specs.Means.{declared_count};
ghost use Rattle.wac_graph.specs.Origin.{Numbering};
ghost use Rattle.wac_resolution_rules.specs.Declarations.{IsTypeDecl};
ghost use Rattle.wac_resolution_rules.specs.BrokenDeclarations.{TypeDeclBroken};
ghost use Rattle.wac_resolution_rules.specs.Errors.{ErrorSays};
ghost use Rattle.wac_resolution_state.specs.Bindings.{values_of};
ghost use Rattle.wac_resolution_types.specs.Declarations.{KindAdded};
ghost use Rattle.wac_resolution_state.specs.Named.{scope_of};

use crate::aliases::alias;
use crate::names_alone::{enumeration, flags};
use crate::place::Place;
use crate::records::record;
use crate::variants::variant;
use wac_ast_types::TypeDecl;
use wac_graph::{ItemKind, Type};
use wac_resolution_errors::Error;
use wac_resolution_state::{Names, State};

/// The kind that a declaration at root declares.
pub fn type_decl(
    decl: &TypeDecl<'_>,
    state: &mut State,
    names: &Names<'_, ItemKind>,
) -> Result<ItemKind, Error>
    requires { ItemsNamed state.old.graph.types (values_of names.now) }
    ensures ok { IfOk result (λ k. KindAdded state.old.graph state.new.graph
        (λ numbering m after. IsTypeDecl (scope_of numbering state.old.graph (values_of names.now))
        (declared_count state.old.graph) (type_decl_of decl.now) m after) k) }
    ensures err { ErrorSays result (λ e. (numbering : Numbering)
        → TypeDeclBroken (scope_of numbering state.old.graph (values_of names.now)) (declared_count state.old.graph)
        (type_decl_of decl.now) e) }
{
    match decl {
        TypeDecl::Variant(decl) => Ok(ItemKind::Ty(Type::Value(variant(decl, state, names)?))),
        TypeDecl::Record(decl) => Ok(ItemKind::Ty(Type::Value(record(decl, state, names)?))),
        TypeDecl::Flags(decl) => Ok(ItemKind::Ty(Type::Value(flags(state, decl)?))),
        TypeDecl::Enum(decl) => Ok(ItemKind::Ty(Type::Value(enumeration(state, decl)?))),
        TypeDecl::Alias(decl) => {
            Ok(alias(&decl.kind, state, names, Place::Root, decl.id.string)?)
        }
    }
}
