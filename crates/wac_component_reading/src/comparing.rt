//! Where two packages differ.
ghost use Rattle.std.specs.Prelude.{◌≡◌, IfOk, None, string_bytes};
ghost use Rattle.wac_graph.specs.Package.{key_of};
ghost use Rattle.wac_graph_types.specs.Table.{Names};

use crate::defined::{has_root_alone, with_exported_definitions};
use crate::implied::with_implied_imports;
use std::alloc::{AllocError, Global};
use wac_component_rules::mismatch;
use wac_graph::{CompositionGraph, ItemKind, Package, PackageError, PackageKey, Type, WorldId};

/// As what two worlds are compared.
#[derive(Clone, Copy)]
enum Role {
    /// As components: one has to fit the other.
    Components,
    /// As types: each has to fit the other.
    Types,
}

/// Where a component differs first from what a world asks of it, in words; nothing where it fits.
///
/// `given` is the component's package, and `expected` a package with that world. The rules are `ComponentRules`. Both
/// packages are copied into one table.
///
/// ```text
/// at import `log`, parameter `line`: expected string, found u8
/// ```
pub fn misfit(
    alloc: Global,
    given: &Package,
    expected: &Package,
) -> Result<Option<String>, AllocError> {
    compared(alloc, given, expected, Role::Components)
}

/// Where a decoded package differs first from a declared one, in words; nothing where each fits the other. What is expected
/// is declared.
///
/// Where the first is that of a component, which defines its world alone, the worlds are compared, with the imports that
/// the declared one implies; else the definitions are, each as an export.
///
/// The error is that memory ran out, or that the parts of a package with its definitions make none; none is known of which
/// they don't.
pub fn difference(
    alloc: Global,
    given: &Package,
    expected: &Package,
) -> Result<Option<String>, PackageError> {
    if has_root_alone(given) {
        let expected = with_implied_imports(alloc, expected)?;
        return Ok(compared(alloc, given, &expected, Role::Types)?);
    }
    let given = with_exported_definitions(alloc, given)?;
    let expected = with_exported_definitions(alloc, expected)?;
    Ok(compared(alloc, &given, &expected, Role::Types)?)
}

/// The key of a package without a version.
fn key(alloc: Global, name: &str) -> Result<PackageKey, AllocError>
    ensures { IfOk result (λ k. key_of k ≡ (name.now, None)) }
{
    Ok(PackageKey {
        name: String::from_str(alloc, name)?,
        version: None,
    })
}

/// Where the worlds of two packages differ first in a role.
fn compared(
    alloc: Global,
    given: &Package,
    expected: &Package,
    role: Role,
) -> Result<Option<String>, AllocError> {
    let given_key = key(alloc, "given")?;
    let expected_key = key(alloc, "expected")?;
    let mut graph = CompositionGraph::new(alloc);
    let given = graph.add_package(&given_key, given)?;
    let expected = graph.add_package(&expected_key, expected)?;
    let given = graph.package(given).world;
    let expected = graph.package(expected).world;
    match role {
        Role::Components => {
            let given = ItemKind::Component(given);
            mismatch_text(alloc, &graph, given, ItemKind::Component(expected))
        }
        Role::Types => {
            let given = ItemKind::Ty(Type::World(given));
            mismatch_text(alloc, &graph, given, ItemKind::Ty(Type::World(expected)))
        }
    }
}

/// Where a kind of a graph differs first from another one, in words.
fn mismatch_text(
    alloc: Global,
    graph: &CompositionGraph,
    given: ItemKind,
    expected: ItemKind,
) -> Result<Option<String>, AllocError>
    requires given { Names graph.now.types given }
    requires expected { Names graph.now.types expected }
{
    match mismatch(alloc, graph.types(), given, expected)? {
        None => Ok(None),
        Some(found) => Ok(Some(format!(in alloc; "{found}")?)),
    }
}
