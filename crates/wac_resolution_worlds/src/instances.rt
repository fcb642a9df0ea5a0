//! Interfaces that are imported or exported under their ids.
ghost use Rattle.std.specs.Prelude.{◌≡◌, [], OnOk, option_map, unwrap_or, string_bytes};
ghost use Rattle.wac_graph_types.specs.declared.kind.ExternKind.TheVariants as sides;
ghost use Rattle.wac_graph_types.specs.declared.kind.ItemKind.TheVariants as kinds;
ghost use Rattle.wac_graph_types.specs.Shape.{id_of};
ghost use Rattle.wac_graph_types.specs.Table.{Names};
ghost use Rattle.wac_graph.specs.Means.{means, entry_means};
ghost use Rattle.wac_graph.specs.Origin.{Numbering};
ghost use Rattle.wac_resolution_rules.specs.BrokenWorlds.{InstanceBroken};
ghost use Rattle.wac_resolution_rules.specs.Errors.{ErrorSays};
ghost use Rattle.wac_resolution_types.specs.Lists.{lists_of};
ghost use Rattle.wac_resolution_types.specs.Bodies.{body_of, IsBody};
ghost use Rattle.wac_resolution_types.specs.Owners.{owner_of};
ghost use Rattle.wac_resolution_worlds.specs.WorldItems.{InstanceStep};

use crate::used_interface::interface_of;
use wac_graph::{CompositionGraph, InterfaceId, ItemKind};
use wac_lexer::SourceSpan;
use wac_resolution_errors::Error;
use wac_resolution_state::State;
use wac_resolution_types::{Body, Section, check_extern};

/// What a path or an identifier resolves to, its text, and where that is.
#[derive(Clone, Copy)]
pub struct NamedKind<'n> {
    /// What it resolves to.
    pub kind: ItemKind,
    /// Its text.
    pub text: &'n str,
    /// Where it is.
    pub span: SourceSpan,
}

/// A text, which is empty if it is left out.
fn text_or_empty(text: &Option<String>) -> &str
    ensures { result.now ≡ unwrap_or (option_map string_bytes text.now) [] }
{
    match text {
        Some(text) => text.as_str(),
        None => "",
    }
}

/// The id of an interface, under which it is imported or exported as an instance. It is empty for one without an id.
pub fn instance_id(graph: &CompositionGraph, interface: InterfaceId) -> &str
    requires { Names graph.now.types (kinds.Instance interface) }
    ensures { (numbering : Numbering)
        → result.now ≡ unwrap_or (id_of (entry_means numbering graph.now interface.0)) [] }
{
    match graph.types().interface(interface) {
        Some(interface) => text_or_empty(&interface.id),
        None => "",
    }
}

/// Imports or exports an interface as an instance under its id.
pub fn instance(
    state: &State,
    body: &mut Body<'_>,
    section: &Section<'_>,
    named: &NamedKind<'_>,
) -> Result<(), Error>
    requires body { IsBody state.now.graph.types sides.Import (lists_of body.old) }
    requires kind { Names state.now.graph.types named.now.kind }
    ensures ok { OnOk result (InstanceStep state.now.graph section.now.side named.now.kind (lists_of body.old)
        (lists_of body.new)) }
    ensures err { ErrorSays result (λ e. (numbering : Numbering)
        → InstanceBroken (owner_of section.now.owner) section.now.side (body_of numbering state.now.graph body.old)
        (means numbering state.now.graph named.now.kind) named.now.text.now named.now.span e) }
{
    let interface = interface_of(state.alloc, named.kind, named.text, named.span)?;
    let id = instance_id(&state.graph, interface);
    check_extern(state.alloc, body, section, id, named.span)?;
    body.add(state.alloc, section.side, id, ItemKind::Instance(interface))?;
    Ok(())
}
