//! Resources.
ghost use Rattle.std.specs.Prelude.{◌≡◌, IfOk, OnOk};
ghost use Rattle.wac_ast_grammar.specs.Tree.{ItemTypeDecl as ItemTree};
ghost use Rattle.wac_ast_base.specs.Names.{ident_of};
ghost use Rattle.wac_ast_types.specs.Declarations.{resource_decl_of};
ghost use Rattle.wac_graph.specs.Graph.{Parts};
ghost use Rattle.wac_graph.specs.Origin.{Numbering};
ghost use Rattle.wac_resolution_rules.specs.BrokenBodies.{NameBroken, ItemBroken};
ghost use Rattle.wac_resolution_rules.specs.Errors.{ErrorSays};
ghost use Rattle.wac_resolution_state.specs.Bindings.{places_of};
ghost use Rattle.wac_resolution_types.specs.Lists.{lists_of};
ghost use Rattle.wac_resolution_types.specs.Bodies.{body_of, IsBody, ResourceStep, DeclarationStep};
ghost use Rattle.wac_resolution_types.specs.Owners.{owner_of};

use crate::body::Body;
use crate::new_name::{check_extern, check_name};
use crate::resource_methods::{NewResource, add_methods};
use crate::section::Section;
use wac_ast_base::Ident;
use wac_ast_types::ResourceDecl;
use wac_graph::{ItemKind, ResourceId, Type};
use wac_resolution_errors::Error;
use wac_resolution_state::State;

/// Declares a resource of a new name, without its methods.
fn declare_resource<'a>(
    state: &mut State,
    body: &mut Body<'a>,
    section: &Section<'_>,
    id: &Ident<'a>,
) -> Result<ResourceId, Error>
    requires { IsBody state.old.graph.types section.now.side (lists_of body.old) }
    ensures ok { IfOk result (λ r. ResourceStep section.now.side state.old.graph state.new.graph
        (lists_of body.old) (lists_of body.new) (ident_of id.now) r) }
    ensures err { ErrorSays result (λ e. (numbering : Numbering) (g : Parts)
        → NameBroken (owner_of section.now.owner) section.now.side (places_of body.old.names)
        (body_of numbering g body.old) (ident_of id.now) e) }
{
    check_name(state.alloc, &body.names, id)?;
    check_extern(state.alloc, body, section, id.string, id.span)?;
    let resource = state.add_resource(id.string)?;
    body.bind(
        state.alloc,
        section.side,
        id,
        ItemKind::Ty(Type::Resource(resource)),
    )?;
    Ok(resource)
}

/// Takes a resource with its methods.
pub fn resource<'a>(
    decl: &ResourceDecl<'a>,
    state: &mut State,
    body: &mut Body<'a>,
    section: &Section<'_>,
) -> Result<(), Error>
    requires { IsBody state.old.graph.types section.now.side (lists_of body.old) }
    ensures ok { OnOk result (DeclarationStep section.now.side state.old.graph state.new.graph (lists_of body.old)
        (lists_of body.new) (ItemTree.resource (resource_decl_of decl.now))) }
    ensures err { ErrorSays result (λ e. (numbering : Numbering)
        → ItemBroken numbering (owner_of section.now.owner) section.now.side (places_of body.old.names)
        (body_of numbering state.old.graph body.old) (ItemTree.resource (resource_decl_of decl.now)) e) }
{
    let id = declare_resource(state, body, section, &decl.id)?;
    let resource = NewResource {
        name: decl.id.string,
        id,
    };
    add_methods(&decl.methods, state, body, section.side, &resource)?;
    Ok(())
}
