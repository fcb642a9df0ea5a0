//! The documents of a decoded component.

use crate::collection::{Collection, collected};
use crate::fault::{DocumentsError, Fault};
use crate::interfaces::Written;
use crate::items::Home;
use crate::steps::Steps;
use crate::writer::Writer;
use indexmap::{IndexMap, IndexSet};
use std::alloc::{AllocError, Global};
use wac_components::Decoded;
use wac_components_types::{ComponentId, Item, Table};
use wac_components_words::{Path, identifier, is_key, path_of};

/// A document, and the key of the package that it declares.
pub struct Document {
    pub package: String,
    pub text: String,
}

impl Drop for Document {
    fn drop(self) {
        let Document {
            package: _,
            text: _,
        } = self;
    }
}

/// The documents of a component, and what they can't say.
pub struct Documents {
    /// That of the component's own package comes first, the others follow in the order of their keys.
    pub documents: Vec<Document>,
    /// For each comment the interface or world that it is in, and its text.
    pub warnings: Vec<String>,
}

impl Drop for Documents {
    fn drop(self) {
        let Documents {
            documents: _,
            warnings: _,
        } = self;
    }
}

/// The documents that declare a decoded component, written in at most so many steps. Each byte that is written is a step,
/// and so is each byte and each thing that is looked at or moved.
///
/// `package` is the key of the component's own package. Without one it is that of the first definition, or
/// `root:component` where nothing is defined.
///
/// ```text
/// let all = documents_of(alloc, &decoded, Some("demo:cache@1.2.0"), 10_000_000)?;
/// ```
pub fn documents_of(
    alloc: Global,
    decoded: &Decoded,
    package: Option<&str>,
    steps: u64,
) -> Result<Documents, DocumentsError> {
    let key = key_of(alloc, decoded, package)?;
    let mut writer = Writer::new(alloc, &decoded.table, steps);
    let documents = all_documents(&mut writer, decoded, key.as_str())?;
    Ok(Documents {
        documents,
        warnings: writer.into_warnings(),
    })
}

/// The documents of a component whose package has that key.
fn all_documents(
    writer: &mut Writer<'_>,
    decoded: &Decoded,
    key: &str,
) -> Result<Vec<Document>, Fault> {
    let collection = collected(writer.alloc(), &mut writer.line.steps, decoded)?;
    let mut home = Home {
        package: String::new(writer.alloc()),
        gone: IndexMap::new(writer.alloc()),
    };
    let bodies = writer.bodies(&collection, &mut home)?;
    home.package = String::from_str(writer.alloc(), key)?;
    documents_with(writer, decoded, &collection, &bodies, &home)
}

/// The documents of a component, where these are the bodies of its interfaces.
fn documents_with(
    writer: &mut Writer<'_>,
    decoded: &Decoded,
    collection: &Collection,
    bodies: &[Written],
    home: &Home,
) -> Result<Vec<Document>, Fault> {
    let mut documents = Vec::new(writer.alloc());
    add_own(writer, &mut documents, decoded, bodies, home)?;
    add_others(
        writer,
        &mut documents,
        collection,
        bodies,
        home.package.as_str(),
    )?;
    Ok(documents)
}

/// Adds the documents of the other packages.
fn add_others(
    writer: &mut Writer<'_>,
    documents: &mut Vec<Document>,
    collection: &Collection,
    bodies: &[Written],
    own: &str,
) -> Result<(), Fault> {
    let keys = other_keys(writer.alloc(), writer.table, collection, own)?;
    for key in &keys {
        add_other(writer, documents, bodies, key.as_str())?;
    }
    Ok(())
}

fn add_document(
    alloc: Global,
    documents: &mut Vec<Document>,
    key: &str,
    text: String,
) -> Result<(), AllocError> {
    let package = String::from_str(alloc, key)?;
    documents.push(Document { package, text })?;
    Ok(())
}

fn add_other(
    writer: &mut Writer<'_>,
    documents: &mut Vec<Document>,
    bodies: &[Written],
    key: &str,
) -> Result<(), Fault> {
    let text = begun(
        writer.alloc(),
        &mut writer.line.steps,
        writer.table,
        bodies,
        key,
    )?;
    add_document(writer.alloc(), documents, key, text)?;
    Ok(())
}

/// The key of the component's own package.
fn key_of(
    alloc: Global,
    decoded: &Decoded,
    package: Option<&str>,
) -> Result<String, DocumentsError> {
    if let Some(key) = package {
        if !is_key(key) {
            return Err(DocumentsError::Name);
        }
        return Ok(String::from_str(alloc, key)?);
    }
    if let Some(first) = decoded.definitions.first() {
        if let Some(path) = path_of(decoded.table.name(first.path)) {
            return Ok(path.key(alloc)?);
        }
    }
    Ok(String::from_str(alloc, "root:component")?)
}

/// Adds the key of the package of a path, if it isn't that one.
fn add_key(
    alloc: Global,
    keys: &mut IndexSet<String>,
    path: Path<'_>,
    own: &str,
) -> Result<(), AllocError> {
    if path.is_of(own) {
        return Ok(());
    }
    let key = path.key(alloc)?;
    keys.insert(key)?;
    Ok(())
}

/// Adds the keys of the other packages.
fn add_keys(
    alloc: Global,
    keys: &mut IndexSet<String>,
    table: &Table,
    collection: &Collection,
    own: &str,
) -> Result<(), AllocError> {
    for number in 0..collection.paths.len() {
        if let Some(name) = collection.path(number) {
            if let Some(path) = path_of(table.name(name)) {
                add_key(alloc, keys, path, own)?;
            }
        }
    }
    keys.sort()?;
    Ok(())
}

/// The keys of the other packages, in order.
fn other_keys(
    alloc: Global,
    table: &Table,
    collection: &Collection,
    own: &str,
) -> Result<IndexSet<String>, AllocError> {
    let mut keys = IndexSet::new(alloc);
    match add_keys(alloc, &mut keys, table, collection, own) {
        Ok(()) => Ok(keys),
        Err(refused) => Err(refused),
    }
}

/// Adds the document of the component's own package: its interfaces, and its worlds.
fn add_own(
    writer: &mut Writer<'_>,
    documents: &mut Vec<Document>,
    decoded: &Decoded,
    bodies: &[Written],
    home: &Home,
) -> Result<(), Fault> {
    let key = home.package.as_str();
    let mut text = begun(
        writer.alloc(),
        &mut writer.line.steps,
        writer.table,
        bodies,
        key,
    )?;
    add_worlds(writer, &mut text, decoded, bodies, home)?;
    add_document(writer.alloc(), documents, key, text)?;
    Ok(())
}

/// Adds the worlds of a component.
fn add_worlds(
    writer: &mut Writer<'_>,
    text: &mut String,
    decoded: &Decoded,
    bodies: &[Written],
    home: &Home,
) -> Result<(), Fault> {
    if decoded.definitions.is_empty() {
        let key = home.package.as_str();
        let name = root_name(
            writer.line.alloc,
            &mut writer.line.steps,
            writer.table,
            bodies,
            key,
        )?;
        return add_world(writer, text, name.as_str(), decoded.component, home);
    }
    for definition in &decoded.definitions {
        if let Item::Component(component) = definition.item {
            if let Some(path) = path_of(decoded.table.name(definition.path)) {
                add_world(writer, text, path.name, component, home)?;
            }
        }
    }
    Ok(())
}

/// Adds a world, after an empty line.
fn add_world(
    writer: &mut Writer<'_>,
    text: &mut String,
    name: &str,
    component: ComponentId,
    home: &Home,
) -> Result<(), Fault> {
    writer.begin(0);
    writer.set_place(name)?;
    writer.world(name, component, home)?;
    text.push_str("\n")?;
    text.push_str(writer.text.as_str())?;
    Ok(())
}

/// The first line of a document.
fn first_line(alloc: Global, key: &str) -> Result<String, AllocError> {
    let mut text = String::from_str(alloc, "package ")?;
    text.push_str(key)?;
    text.push_str(";\n")?;
    Ok(text)
}

/// The first line of a document, and the interfaces of its package.
fn begun(
    alloc: Global,
    steps: &mut Steps,
    table: &Table,
    bodies: &[Written],
    key: &str,
) -> Result<String, Fault> {
    let mut text = first_line(alloc, key)?;
    for body in bodies {
        let path = table.name(body.path);
        steps.take(path.len() as u64)?;
        if let Some(name) = name_in(path, key) {
            add_interface(alloc, &mut text, name, body.text.as_str())?;
        }
    }
    Ok(text)
}

/// The name of the interface of a path, if it is one of the package.
fn name_in<'t>(path: &'t str, key: &str) -> Option<&'t str> {
    match path_of(path) {
        Some(path) if path.is_of(key) => Some(path.name),
        _ => None,
    }
}

fn add_interface(
    alloc: Global,
    text: &mut String,
    name: &str,
    body: &str,
) -> Result<(), AllocError> {
    text.push_str("\ninterface ")?;
    if let Some(word) = identifier(alloc, name)? {
        text.push_str(word.as_str())?;
    }
    text.push_str(" {\n")?;
    text.push_str(body)?;
    text.push_str("}\n")?;
    Ok(())
}

/// Whether an interface of that name is among those of the package.
fn is_taken(
    steps: &mut Steps,
    table: &Table,
    bodies: &[Written],
    key: &str,
    name: &str,
) -> Result<bool, Fault> {
    for body in bodies {
        let text = table.name(body.path);
        steps.take(text.len() as u64)?;
        if name_in(text, key) == Some(name) {
            return Ok(true);
        }
    }
    Ok(false)
}

/// The name of the component's own world: `root`, with as many `-world` after it as no interface of its package has.
fn root_name(
    alloc: Global,
    steps: &mut Steps,
    table: &Table,
    bodies: &[Written],
    key: &str,
) -> Result<String, Fault> {
    let mut name = String::from_str(alloc, "root")?;
    for _ in 0..bodies.len() {
        if !is_taken(steps, table, bodies, key, name.as_str())? {
            return Ok(name);
        }
        name.push_str("-world")?;
    }
    Ok(name)
}
