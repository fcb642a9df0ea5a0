//! Whether a name of a body is new.
ghost use Rattle.std.specs.Prelude.{◌≡◌, IfOk, OnOk, option_map, string_bytes};
ghost use Rattle.wac_graph_types.specs.Scope.{IsFresh};
ghost use Rattle.wac_ast_base.specs.Names.{ident_of};
ghost use Rattle.wac_graph.specs.Graph.{Parts};
ghost use Rattle.wac_graph.specs.Origin.{Numbering};
ghost use Rattle.wac_resolution_errors.specs.ErrorModel.{error_model};
ghost use Rattle.wac_resolution_rules.specs.BrokenBodies.{IsBoundInBody, IsConflict, NameBroken, conflict as conflict_of};
ghost use Rattle.wac_resolution_rules.specs.Errors.{ErrorSays};
ghost use Rattle.wac_resolution_state.specs.Bindings.{values_of, places_of};
ghost use Rattle.wac_resolution_state.specs.Named.{scope_of};
ghost use Rattle.wac_resolution_types.specs.Lists.{lists_of, kinds_of};
ghost use Rattle.wac_resolution_types.specs.Bodies.{body_of, IsDeclared};
ghost use Rattle.wac_resolution_types.specs.Owners.{owner_of};

use crate::body::Body;
use crate::owner::Owner;
use crate::section::Section;
use std::alloc::{AllocError, Global};
use wac_ast_base::Ident;
use wac_graph::ItemKind;
use wac_lexer::SourceSpan;
use wac_resolution_errors::Error;
use wac_resolution_state::Names;

/// Rejects an identifier that is bound already.
pub fn check_name(alloc: Global, names: &Names<'_, ItemKind>, id: &Ident<'_>) -> Result<(), Error>
    ensures ok { OnOk result (IsFresh id.now.string.now (values_of names.now)) }
    ensures err { ErrorSays result (λ e. (numbering : Numbering) (g : Parts)
        → IsBoundInBody (places_of names.now) (scope_of numbering g (values_of names.now)) (ident_of id.now) e) }
{
    match names.place(id.string) {
        Some(previous) => Err(Error::DuplicateName {
            name: String::from_str(alloc, id.string)?,
            span: id.span,
            previous,
        }),
        None => Ok(()),
    }
}

/// A text that may be left out, copied.
fn copied(alloc: Global, text: &Option<&str>) -> Result<Option<String>, AllocError>
    ensures { IfOk result (λ t. option_map string_bytes t ≡ option_map (λ s. s.now) text.now) }
{
    match text {
        Some(text) => Ok(Some(String::from_str(alloc, text)?)),
        None => Ok(None),
    }
}

/// The error of a name that is imported, or exported, already.
fn conflict(
    alloc: Global,
    section: &Section<'_>,
    name: &str,
    span: SourceSpan,
) -> Result<Error, AllocError>
    ensures { IfOk result (λ e. error_model e ≡ conflict_of (owner_of section.now.owner) section.now.side
        name.now span) }
{
    match &section.owner {
        Owner::Interface(interface) => Ok(Error::DuplicateInterfaceExport {
            name: String::from_str(alloc, name)?,
            interface_name: copied(alloc, interface)?,
            span,
        }),
        Owner::World(world) => Ok(Error::DuplicateWorldItem {
            kind: section.side,
            name: String::from_str(alloc, name)?,
            world: String::from_str(alloc, world)?,
            span,
        }),
    }
}

/// Rejects a name that is imported, or exported, already.
pub fn check_extern(
    alloc: Global,
    body: &Body<'_>,
    section: &Section<'_>,
    name: &str,
    span: SourceSpan,
) -> Result<(), Error>
    ensures ok { OnOk result (IsFresh name.now (kinds_of section.now.side (lists_of body.now))) }
    ensures err { ErrorSays result (λ e. (numbering : Numbering) (g : Parts)
        → IsConflict (owner_of section.now.owner) section.now.side (body_of numbering g body.now) name.now span e) }
{
    match body.find(section.side, name) {
        Some(_) => Err(conflict(alloc, section, name, span)?),
        None => Ok(()),
    }
}

/// Declares a type of a new name.
pub fn declare<'a>(
    alloc: Global,
    body: &mut Body<'a>,
    section: &Section<'_>,
    id: &Ident<'a>,
    kind: ItemKind,
) -> Result<(), Error>
    ensures ok { OnOk result (IsDeclared section.now.side (lists_of body.old) (lists_of body.new)
        (ident_of id.now) kind) }
    ensures err { ErrorSays result (λ e. (numbering : Numbering) (g : Parts)
        → NameBroken (owner_of section.now.owner) section.now.side (places_of body.old.names)
        (body_of numbering g body.old) (ident_of id.now) e) }
{
    check_name(alloc, &body.names, id)?;
    check_extern(alloc, body, section, id.string, id.span)?;
    body.bind(alloc, section.side, id, kind)?;
    Ok(())
}
