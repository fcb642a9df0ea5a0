//! The names of imports.
ghost use Rattle.std.specs.Prelude.{◌≡◌, IfOk, option_map, unwrap_or, string_bytes};
ghost use Rattle.wac_graph_types.specs.Table.{Names};
ghost use Rattle.wac_ast_base.specs.Names.{ident_of};
ghost use Rattle.wac_ast_worlds.specs.Worlds.{import_type_of, import_statement_of};
ghost use Rattle.wac_graph.specs.Means.{means};
ghost use Rattle.wac_graph.specs.Origin.{Numbering};
ghost use Rattle.wac_resolution_rules.specs.BrokenBodies.{help_unless};
ghost use Rattle.wac_resolution_rules.specs.Spans as spans;
ghost use Rattle.wac_resolution_rules.specs.Statements as rules;
ghost use Rattle.wac_resolution_state.specs.Instances.{written_id};
ghost use Rattle.wac_resolution_statements.specs.Externs.{help_of};
ghost use Rattle.wac_resolution_statements.specs.Imports.{written_world_id};

use crate::NewName;
use std::alloc::AllocError;
use wac_ast_worlds::{ImportStatement, ImportType};
use wac_graph::{InterfaceId, ItemKind, WorldId};
use wac_lexer::SourceSpan;
use wac_resolution_state::State;

/// A text, where it is given.
fn text_of(text: &Option<String>) -> Option<&str>
    ensures { option_map (λ s. s.now) result ≡ option_map string_bytes text.now }
{
    match text {
        Some(text) => Some(text.as_str()),
        None => None,
    }
}

/// The id in the entry of an interface, where it has one.
fn interface_id(state: &State, interface: InterfaceId) -> Option<&str>
    ensures { option_map (λ s. s.now) result ≡ written_id state.now.graph.types interface.0 }
{
    let interface = state.graph.types().interface(interface)?;
    text_of(&interface.id)
}

/// The id in the entry of a world, where it has one.
fn world_id(state: &State, world: WorldId) -> Option<&str>
    ensures { option_map (λ s. s.now) result ≡ written_world_id state.now.graph.types world.0 }
{
    let world = state.graph.types().world(world)?;
    text_of(&world.id)
}

/// The id of an instance or a component.
fn item_id(state: &State, kind: ItemKind) -> Option<&str>
    requires { Names state.now.graph.types kind }
    ensures { (numbering : Numbering) → option_map (λ s. s.now) result
        ≡ rules.item_id (means numbering state.now.graph kind) }
{
    // Its contract says that the table is sound, and what its entries mean.
    let _types = state.graph.types();
    match kind {
        ItemKind::Instance(interface) => interface_id(state, interface),
        ItemKind::Component(world) => world_id(state, world),
        _ => None,
    }
}

/// The name of an import by an identifier: the id of what that denotes, else the import's own identifier.
fn named_by_id<'x>(state: &'x State, kind: ItemKind, own: &'x str) -> &'x str
    requires { Names state.now.graph.types kind }
    ensures { (numbering : Numbering)
        → result.now ≡ unwrap_or (rules.item_id (means numbering state.now.graph kind)) own.now }
{
    match item_id(state, kind) {
        Some(id) => id,
        None => own,
    }
}

/// The name of an import for which none is written.
fn unnamed_import<'x>(
    statement: &'x ImportStatement<'_>,
    state: &'x State,
    kind: ItemKind,
) -> &'x str
    requires { Names state.now.graph.types kind }
    ensures { (numbering : Numbering)
        → result.now ≡ rules.unnamed_import (ident_of statement.now.id) (import_type_of statement.now.ty)
        (means numbering state.now.graph kind) }
{
    match &statement.ty {
        ImportType::Package(path) => path.string,
        ImportType::Ident(_) => named_by_id(state, kind, statement.id.string),
        ImportType::Func(_) | ImportType::Interface(_) => statement.id.string,
    }
}

/// The name of an import: the one that is written, else that of what is imported.
fn name_imported<'x>(
    statement: &'x ImportStatement<'_>,
    state: &'x State,
    kind: ItemKind,
) -> &'x str
    requires { Names state.now.graph.types kind }
    ensures { (numbering : Numbering)
        → result.now ≡ rules.name_imported (import_statement_of statement.now) (means numbering state.now.graph kind) }
{
    match &statement.name {
        Some(name) => name.as_str(),
        None => unnamed_import(statement, state, kind),
    }
}

/// The name of an import, copied.
pub fn import_name(
    statement: &ImportStatement<'_>,
    state: &State,
    kind: ItemKind,
) -> Result<String, AllocError>
    requires { Names state.now.graph.types kind }
    ensures { IfOk result (λ s. (numbering : Numbering)
        → string_bytes s ≡ rules.name_imported (import_statement_of statement.now)
        (means numbering state.now.graph kind)) }
{
    String::from_str(state.alloc, name_imported(statement, state, kind))
}

/// The place of the name of an import for which none is written.
fn unnamed_import_span(statement: &ImportStatement<'_>) -> SourceSpan
    ensures { result ≡ spans.unnamed_import_span (ident_of statement.now.id) (import_type_of statement.now.ty) }
{
    match &statement.ty {
        ImportType::Package(path) => path.span,
        _ => statement.id.span,
    }
}

/// A name of an import, with its place, and help where the statement writes none.
pub(crate) fn new_name<'x>(statement: &ImportStatement<'_>, text: &'x str) -> NewName<'x>
    ensures text { result.text.now ≡ text.now }
    ensures span { result.span ≡ spans.import_span (import_statement_of statement.now) }
    ensures help { help_of result ≡ help_unless (import_statement_of statement.now).name }
{
    match &statement.name {
        Some(name) => NewName {
            text,
            span: name.span(),
            help: None,
        },
        None => NewName {
            text,
            span: unnamed_import_span(statement),
            help: Some("consider using an `as` clause to use a different name"),
        },
    }
}
