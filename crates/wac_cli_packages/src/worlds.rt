// The world of the document that a component is to fit.
use std::alloc::{AllocError, Global};
use wac_component_reading::with_implied_imports;
use wac_declared_packages::{DefinitionsError, package_of};
use wac_diagnostics::Diagnostic;
use wac_graph::{CompositionGraph, ItemKind, Package, PackageError, Type};
use wac_package_errors::Composed;

/// A package whose world a component is to fit, and the world's name; or what is wrong with its document.
#[derive(Drop)]
pub(crate) enum Wanted {
    World(Package, String),
    Rejected(Diagnostic),
    /// The document mentions a package that has an error, which is reported elsewhere.
    Unresolved,
}

/// The world of a document that was resolved: the one of that name, or the only one.
pub(crate) fn wanted_of(
    alloc: Global,
    found: Composed,
    world: Option<&str>,
) -> Result<Wanted, AllocError> {
    match found {
        Composed::Resolved(graph) => wanted_of_graph(alloc, &graph, world),
        Composed::Rejected(diagnostic) => Ok(Wanted::Rejected(diagnostic)),
        Composed::Unresolved => Ok(Wanted::Unresolved),
    }
}

fn wanted_of_graph(
    alloc: Global,
    graph: &CompositionGraph,
    world: Option<&str>,
) -> Result<Wanted, AllocError> {
    match package_of(alloc, graph, world) {
        Ok(package) => wanted_of_package(alloc, &package, world),
        Err(DefinitionsError::NoSuchWorld) => Ok(Wanted::Rejected(Diagnostic::without_place(
            "wac::no-such-world",
            String::from_str(alloc, "the document declares no such world")?,
        ))),
        Err(DefinitionsError::Parts(error)) => no_package(alloc, &error),
    }
}

/// The world of a document's package, with the imports that it implies.
fn wanted_of_package(
    alloc: Global,
    package: &Package,
    world: Option<&str>,
) -> Result<Wanted, AllocError> {
    let Some(name) = chosen(package, world) else {
        return Ok(Wanted::Rejected(no_world(alloc, package)?));
    };
    let name = String::from_str(alloc, name)?;
    match with_implied_imports(alloc, package) {
        Ok(package) => Ok(Wanted::World(package, name)),
        Err(error) => no_package(alloc, &error),
    }
}

/// That the parts of a document make no package.
fn no_package(alloc: Global, error: &PackageError) -> Result<Wanted, AllocError> {
    if let PackageError::Memory(_) = error {
        return Err(AllocError);
    }
    let message = format!(in alloc; "{error}")?;
    Ok(Wanted::Rejected(Diagnostic::without_place("wac::no-package", message)))
}

/// The name of the world that is asked for: the given one, or that of the only world of the definitions.
fn chosen<'w>(package: &'w Package, world: Option<&'w str>) -> Option<&'w str> {
    if let Some(name) = world {
        return Some(name);
    }
    let mut found = None;
    for (name, kind) in package.definitions().iter() {
        if let ItemKind::Ty(Type::World(_)) = kind {
            if found.is_some() {
                return None;
            }
            found = Some(name.as_str());
        }
    }
    found
}

/// That a document declares no world, or several.
fn no_world(alloc: Global, package: &Package) -> Result<Diagnostic, AllocError> {
    let mut worlds = String::new(alloc);
    for (name, kind) in package.definitions().iter() {
        if let ItemKind::Ty(Type::World(_)) = kind {
            worlds.push_str(if worlds.is_empty() { "`" } else { ", `" })?;
            worlds.push_str(name.as_str())?;
            worlds.push('`')?;
        }
    }
    if worlds.is_empty() {
        let message = String::from_str(alloc, "the document declares no world")?;
        return Ok(Diagnostic::without_place("wac::no-world", message));
    }
    let message = String::from_str(alloc, "the document declares several worlds")?;
    let mut diagnostic = Diagnostic::without_place("wac::no-world", message);
    diagnostic.help = Some(format!(in alloc; "choose one by --world: {worlds}")?);
    Ok(diagnostic)
}
