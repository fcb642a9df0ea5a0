// The graph of a document.
ghost use Rattle.std.specs.Prelude.{IfErr, IfOk};
ghost use Rattle.wac_calls.specs.Graphs.{IsDocument, IsErrorOf, IsErrorOfDocument};

use crate::components::add_component;
use crate::error::{GraphError, of_fault};
use crate::handed_over::{Component, HandedOver};
use indexmap::IndexMap;
use std::alloc::Global;
use wac_ast::Document;
use wac_ast::internals::Statements;
use wac_component_rules::ComponentRules;
use wac_composition::graph_with;
use wac_declared_packages::declared_packages;
use wac_graph::{Package, PackageKey};
use wac_graph_outputs::exact_json;
use wac_printer::Page;

/// The graph that a document describes by the component model's rules, as one JSON object on a line (docs/GRAPH.md).
/// The packages that it may mention are those that are handed over (docs/PACKAGES.md).
///
/// ```text
/// graph_json(alloc, "package a:b; import y: func();", &none)        // Ok, with one node, an import
/// graph_json(alloc, "package a:b; let x = new c:d {};", &none)      // Err: unknown package
/// ```
pub(crate) fn graph_json(
    alloc: Global,
    source: &str,
    handed: &HandedOver<'_>,
) -> Result<Vec<u8>, GraphError>
    // A graph is shown of documents alone.
    ensures document { IfOk result (λ _. IsDocument source.now) }
    // An error of parsing is that of the text, and one of another kind comes of documents alone.
    ensures error { IfErr result (λ e. IsErrorOf source.now e) }
{
    match Document::parse(alloc, source) {
        Ok(document) => shown(
            Page {
                document: &document,
            },
            alloc,
            handed,
        ),
        Err(error) => Err(GraphError::Parse(error)),
    }
}

/// The graph of a document, with the packages that are handed over.
fn shown(page: Page<'_, '_>, alloc: Global, handed: &HandedOver<'_>) -> Result<Vec<u8>, GraphError>
    ensures { IfErr result IsErrorOfDocument }
{
    let Page { document } = page;
    match supplied(alloc, handed) {
        Ok(supplied) => shown_with(Page { document }, alloc, supplied),
        Err(error) => Err(error),
    }
}

/// The graph of a document, with these packages.
fn shown_with(
    page: Page<'_, '_>,
    alloc: Global,
    packages: IndexMap<PackageKey, Package>,
) -> Result<Vec<u8>, GraphError>
    ensures { IfErr result IsErrorOfDocument }
{
    let Page { document } = page;
    match graph_with(
        Page { document },
        alloc,
        packages,
        &ComponentRules::new(alloc),
    ) {
        Ok(graph) => {
            let statements = Statements {
                all: &document.statements,
            };
            match exact_json(alloc, statements, &graph) {
                Ok(line) => Ok(line),
                Err(refused) => Err(GraphError::Memory(refused)),
            }
        }
        Err(error) => Err(GraphError::Resolution(error)),
    }
}

/// The packages that are handed over.
fn supplied(
    alloc: Global,
    handed: &HandedOver<'_>,
) -> Result<IndexMap<PackageKey, Package>, GraphError>
    ensures { IfErr result IsErrorOfDocument }
{
    let worlds = IndexMap::new(alloc);
    match declared_packages(alloc, handed.texts.as_slice(), &worlds) {
        Ok(packages) => with_components(alloc, packages, handed),
        Err(fault) => Err(of_fault(fault)),
    }
}

/// These packages, and those of the components that are handed over.
fn with_components(
    alloc: Global,
    mut packages: IndexMap<PackageKey, Package>,
    handed: &HandedOver<'_>,
) -> Result<IndexMap<PackageKey, Package>, GraphError>
    ensures { IfErr result IsErrorOfDocument }
{
    for (number, bytes) in handed.components.iter().enumerate() {
        let component = Component {
            key: handed.key(number),
            bytes,
            place: handed.component_place(number),
        };
        if let Err(fault) = add_component(alloc, &mut packages, &component) {
            return Err(GraphError::Component(fault));
        }
    }
    Ok(packages)
}
