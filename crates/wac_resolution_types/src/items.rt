//! Declarations of types in a body.
ghost use Rattle.std.specs.Prelude.{OnOk};
ghost use Rattle.wac_ast_grammar.specs.Tree.{ItemTypeDecl as ItemTree};
ghost use Rattle.wac_ast_types.specs.Declarations.{variant_decl_of, record_decl_of, flags_decl_of, enum_decl_of, type_alias_of, item_type_decl_of};
ghost use Rattle.wac_graph.specs.Origin.{Numbering};
ghost use Rattle.wac_resolution_rules.specs.BrokenBodies.{ItemBroken};
ghost use Rattle.wac_resolution_rules.specs.Errors.{ErrorSays};
ghost use Rattle.wac_resolution_state.specs.Bindings.{places_of};
ghost use Rattle.wac_resolution_types.specs.Lists.{lists_of};
ghost use Rattle.wac_resolution_types.specs.Bodies.{body_of, IsBody, DeclarationStep};
ghost use Rattle.wac_resolution_types.specs.Owners.{owner_of};

use crate::Place;
use crate::body::Body;
use crate::new_name::declare;
use crate::resource::resource;
use crate::section::Section;
use wac_ast_types::{EnumDecl, FlagsDecl, ItemTypeDecl, RecordDecl, TypeAlias, VariantDecl};
use wac_graph::{ItemKind, Type};
use wac_resolution_errors::Error;
use wac_resolution_state::State;

/// Takes a variant.
fn variant<'a>(
    decl: &VariantDecl<'a>,
    state: &mut State,
    body: &mut Body<'a>,
    section: &Section<'_>,
) -> Result<(), Error>
    requires { IsBody state.old.graph.types section.now.side (lists_of body.old) }
    ensures ok { OnOk result (DeclarationStep section.now.side state.old.graph state.new.graph (lists_of body.old)
        (lists_of body.new) (ItemTree.variant (variant_decl_of decl.now))) }
    ensures err { ErrorSays result (λ e. (numbering : Numbering)
        → ItemBroken numbering (owner_of section.now.owner) section.now.side (places_of body.old.names)
        (body_of numbering state.old.graph body.old) (ItemTree.variant (variant_decl_of decl.now)) e) }
{
    let value = crate::variant(decl, state, &body.names)?;
    let kind = ItemKind::Ty(Type::Value(value));
    declare(state.alloc, body, section, &decl.id, kind)?;
    Ok(())
}

/// Takes a record.
fn record<'a>(
    decl: &RecordDecl<'a>,
    state: &mut State,
    body: &mut Body<'a>,
    section: &Section<'_>,
) -> Result<(), Error>
    requires { IsBody state.old.graph.types section.now.side (lists_of body.old) }
    ensures ok { OnOk result (DeclarationStep section.now.side state.old.graph state.new.graph (lists_of body.old)
        (lists_of body.new) (ItemTree.record_decl (record_decl_of decl.now))) }
    ensures err { ErrorSays result (λ e. (numbering : Numbering)
        → ItemBroken numbering (owner_of section.now.owner) section.now.side (places_of body.old.names)
        (body_of numbering state.old.graph body.old) (ItemTree.record_decl (record_decl_of decl.now)) e) }
{
    let value = crate::record(decl, state, &body.names)?;
    let kind = ItemKind::Ty(Type::Value(value));
    declare(state.alloc, body, section, &decl.id, kind)?;
    Ok(())
}

/// Takes flags.
fn flags<'a>(
    state: &mut State,
    body: &mut Body<'a>,
    section: &Section<'_>,
    decl: &FlagsDecl<'a>,
) -> Result<(), Error>
    requires { IsBody state.old.graph.types section.now.side (lists_of body.old) }
    ensures ok { OnOk result (DeclarationStep section.now.side state.old.graph state.new.graph (lists_of body.old)
        (lists_of body.new) (ItemTree.flags (flags_decl_of decl.now))) }
    ensures err { ErrorSays result (λ e. (numbering : Numbering)
        → ItemBroken numbering (owner_of section.now.owner) section.now.side (places_of body.old.names)
        (body_of numbering state.old.graph body.old) (ItemTree.flags (flags_decl_of decl.now)) e) }
{
    let value = crate::flags(state, decl)?;
    let kind = ItemKind::Ty(Type::Value(value));
    declare(state.alloc, body, section, &decl.id, kind)?;
    Ok(())
}

/// Takes an enum.
fn enumeration<'a>(
    state: &mut State,
    body: &mut Body<'a>,
    section: &Section<'_>,
    decl: &EnumDecl<'a>,
) -> Result<(), Error>
    requires { IsBody state.old.graph.types section.now.side (lists_of body.old) }
    ensures ok { OnOk result (DeclarationStep section.now.side state.old.graph state.new.graph (lists_of body.old)
        (lists_of body.new) (ItemTree.enum (enum_decl_of decl.now))) }
    ensures err { ErrorSays result (λ e. (numbering : Numbering)
        → ItemBroken numbering (owner_of section.now.owner) section.now.side (places_of body.old.names)
        (body_of numbering state.old.graph body.old) (ItemTree.enum (enum_decl_of decl.now)) e) }
{
    let value = crate::enumeration(state, decl)?;
    let kind = ItemKind::Ty(Type::Value(value));
    declare(state.alloc, body, section, &decl.id, kind)?;
    Ok(())
}

/// Takes an alias.
fn alias<'a>(
    decl: &TypeAlias<'a>,
    state: &mut State,
    body: &mut Body<'a>,
    section: &Section<'_>,
) -> Result<(), Error>
    requires { IsBody state.old.graph.types section.now.side (lists_of body.old) }
    ensures ok { OnOk result (DeclarationStep section.now.side state.old.graph state.new.graph (lists_of body.old)
        (lists_of body.new) (ItemTree.alias (type_alias_of decl.now))) }
    ensures err { ErrorSays result (λ e. (numbering : Numbering)
        → ItemBroken numbering (owner_of section.now.owner) section.now.side (places_of body.old.names)
        (body_of numbering state.old.graph body.old) (ItemTree.alias (type_alias_of decl.now)) e) }
{
    let kind = crate::alias(&decl.kind, state, &body.names, Place::Body, decl.id.string)?;
    declare(state.alloc, body, section, &decl.id, kind)?;
    Ok(())
}

/// Takes the declaration of a type.
pub fn item<'a>(
    decl: &ItemTypeDecl<'a>,
    state: &mut State,
    body: &mut Body<'a>,
    section: &Section<'_>,
) -> Result<(), Error>
    requires { IsBody state.old.graph.types section.now.side (lists_of body.old) }
    ensures ok { OnOk result (DeclarationStep section.now.side state.old.graph state.new.graph (lists_of body.old)
        (lists_of body.new) (item_type_decl_of decl.now)) }
    ensures err { ErrorSays result (λ e. (numbering : Numbering)
        → ItemBroken numbering (owner_of section.now.owner) section.now.side (places_of body.old.names)
        (body_of numbering state.old.graph body.old) (item_type_decl_of decl.now) e) }
{
    match decl {
        ItemTypeDecl::Resource(decl) => resource(decl, state, body, section),
        ItemTypeDecl::Variant(decl) => variant(decl, state, body, section),
        ItemTypeDecl::Record(decl) => record(decl, state, body, section),
        ItemTypeDecl::Flags(decl) => flags(state, body, section, decl),
        ItemTypeDecl::Enum(decl) => enumeration(state, body, section, decl),
        ItemTypeDecl::Alias(decl) => alias(decl, state, body, section),
    }
}
