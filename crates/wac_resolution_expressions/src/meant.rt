//! The import for which an argument is given.
ghost use Rattle.std.specs.Prelude.{◌≡◌, ◌<◌, ℕ, [], Some, IfOk, length, option_map, unwrap_or, string_bytes};
ghost use Rattle.std.specs.Option.{option_or};
ghost use Rattle.wac_graph_types.specs.Meaning.{Meaning};
ghost use Rattle.wac_graph_types.specs.Names.{by_name};
ghost use Rattle.wac_graph_types.specs.Scope.{Named};
ghost use Rattle.wac_graph_types.specs.Shape.{imports_of, items_mean};
ghost use Rattle.wac_graph_types.specs.Table.{Names};
ghost use Rattle.wac_ast_statements.specs.Expressions.{argument_name_of};
ghost use Rattle.wac_graph.specs.Means.{entry_means};
ghost use Rattle.wac_graph.specs.Origin.{Numbering};
ghost use Rattle.wac_resolution_rules.specs.Expressions.{name_meant, if_imported, name_inferred};
ghost use Rattle.wac_resolution_rules.specs.Find.{find_name as found_name};
ghost use Rattle.wac_resolution_rules.specs.Nodes.{node_at};
ghost use Rattle.wac_resolution_state.specs.Nodes.{composition_of};

use indexmap::IndexMap;
use std::alloc::AllocError;
use wac_ast_statements::InstantiationArgumentName;
use wac_graph::names::find;
use wac_graph::{ItemKind, NodeId, WorldId};
use wac_resolution_state::{State, find_name, instance_id, own_name};

/// The import that an argument's name means: an identifier by find, a string as it is.
#[tactic(auto, using(wac_resolution_state::proofs::Found::found_meant))]
fn meant<'x>(
    name: &'x InstantiationArgumentName<'_>,
    imports: Option<&'x IndexMap<String, ItemKind>>,
) -> &'x str
    ensures { (f : ℕ → Meaning)
        → result.now ≡ name_meant (argument_name_of name.now)
        (items_mean f (unwrap_or (option_map (λ m. by_name m.now.entries) imports.entry) [])) }
{
    match name {
        InstantiationArgumentName::Ident(id) => match imports {
            Some(all) => find_name(id.string, all),
            None => id.string,
        },
        InstantiationArgumentName::String(text) => text.value,
    }
}

/// The import of a world that an argument's name means.
pub(crate) fn written_import<'x>(
    state: &'x State,
    world: WorldId,
    name: &'x InstantiationArgumentName<'_>,
) -> &'x str
    requires { Names state.now.graph.types (ItemKind.Component world) }
    ensures { (numbering : Numbering)
        → result.now ≡ name_meant (argument_name_of name.now)
        (imports_of (entry_means numbering state.now.graph world.0)) }
{
    let types = state.graph.types();
    let imports = types.imports(world);
    meant(name, imports)
}

/// The import of a world that an argument's name means, copied.
pub fn written_name(
    state: &State,
    world: WorldId,
    name: &InstantiationArgumentName<'_>,
) -> Result<String, AllocError>
    requires { Names state.now.graph.types (ItemKind.Component world) }
    ensures { IfOk result (λ s. (numbering : Numbering)
        → string_bytes s ≡ name_meant (argument_name_of name.now)
        (imports_of (entry_means numbering state.now.graph world.0))) }
{
    String::from_str(state.alloc, written_import(state, world, name))
}

/// The name, where it is among the imports.
#[tactic(auto, using(crate::proofs::Imports::imported_names))]
fn imported<'x>(imports: &IndexMap<String, ItemKind>, name: Option<&'x str>) -> Option<&'x str>
    ensures { (f : ℕ → Meaning)
        → option_map (λ s. s.now) result
        ≡ if_imported (items_mean f (by_name imports.now.entries)) (option_map (λ s. s.now) name.entry) }
{
    let name = name?;
    match find(imports, name) {
        Some(_) => Some(name),
        None => None,
    }
}

/// The first of these that is among the imports: the id of an instance, a node's own name.
fn known<'x>(
    imports: &IndexMap<String, ItemKind>,
    id: Option<&'x str>,
    own: Option<&'x str>,
) -> Option<&'x str>
    ensures { (f : ℕ → Meaning)
        → option_map (λ s. s.now) result
        ≡ option_or (if_imported (items_mean f (by_name imports.now.entries)) (option_map (λ s. s.now) id.entry))
        (if_imported (items_mean f (by_name imports.now.entries)) (option_map (λ s. s.now) own.entry)) }
{
    match imported(imports, id) {
        Some(found) => Some(found),
        None => imported(imports, own),
    }
}

/// What is known of a node where it is among the imports, else what the identifier finds.
fn inferred<'x>(
    imports: &'x IndexMap<String, ItemKind>,
    name: &'x str,
    id: Option<&'x str>,
    own: Option<&'x str>,
) -> &'x str
    ensures { (f : ℕ → Meaning)
        → result.now ≡ unwrap_or
        (option_or (if_imported (items_mean f (by_name imports.now.entries)) (option_map (λ s. s.now) id.entry))
        (if_imported (items_mean f (by_name imports.now.entries)) (option_map (λ s. s.now) own.entry)))
        (found_name name.now (items_mean f (by_name imports.now.entries))) }
{
    match known(imports, id, own) {
        Some(found) => found,
        None => find_name(name, imports),
    }
}

/// The import of a world for which a node is given by its identifier alone.
pub(crate) fn inferred_import<'x>(
    state: &'x State,
    world: WorldId,
    name: &'x str,
    node: NodeId,
) -> &'x str
    requires named { Names state.now.graph.types (ItemKind.Component world) }
    requires there { node.0 < length state.now.graph.nodes }
    ensures { (numbering : Numbering) (declared : Named ℕ)
        → option_map (name_inferred (imports_of (entry_means numbering state.now.graph world.0)) name.now)
        (node_at (composition_of numbering state.now.graph declared) node.0) ≡ Some result.now }
{
    let types = state.graph.types();
    match types.imports(world) {
        Some(all) => {
            let id = instance_id(state, node);
            let own = own_name(state, node);
            inferred(all, name, id, own)
        }
        None => name,
    }
}

/// The import of a world for which a node is given by its identifier alone, copied.
pub fn inferred_name(
    state: &State,
    world: WorldId,
    name: &str,
    node: NodeId,
) -> Result<String, AllocError>
    requires named { Names state.now.graph.types (ItemKind.Component world) }
    requires there { node.0 < length state.now.graph.nodes }
    ensures { IfOk result (λ s. (numbering : Numbering) (declared : Named ℕ)
        → option_map (name_inferred (imports_of (entry_means numbering state.now.graph world.0)) name.now)
        (node_at (composition_of numbering state.now.graph declared) node.0) ≡ Some (string_bytes s)) }
{
    let import = inferred_import(state, world, name, node);
    let copy = String::from_str(state.alloc, import)?;
    Ok(copy)
}
