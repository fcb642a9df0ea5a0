//! What a component is decoded to.
ghost use Rattle.std.specs.Prelude.{◌≡◌, ◌≤◌, true, length, IfOk, IfErr};
ghost use Rattle.std.specs.List.{list_all};
ghost use Rattle.wac_components.specs.Within as within;

use crate::decoder::Decoder;
use crate::frame::{Body, Next, Sequel};
use crate::limits::Limits;
use std::alloc::Global;
use wac_components_bytes::{DecodeError, ErrorKind, error_at};
use wac_components_types::{BodyKind, ComponentId, Counts, Item, NameId, Owner, Table, TypeDef};

/// An interface or a world that a WIT package defines.
#[derive(Clone, Copy, Debug, PartialEq, Eq)]
pub struct Definition {
    /// Its name in the package.
    pub name: NameId,
    /// Its whole name, as `wasi:http/types@0.2.0`.
    pub path: NameId,
    /// The interface as an instance, or the world as a component.
    pub item: Item,
}

/// What the world of a component imports and exports, and what it defines.
pub struct Decoded {
    /// All types, instances and components that were met.
    pub table: Table,
    /// The component itself.
    pub component: ComponentId,
    /// What is defined, where the component is a WIT package; else none.
    pub definitions: Vec<Definition>,
    /// What it took: the depth and the size of all that is imported and exported, and how many bytes were read.
    pub used: Limits,
}

impl Drop for Decoded {
    fn drop(self) {
        let Decoded {
            table: _,
            component: _,
            definitions: _,
            used: _,
        } = self;
    }
}

impl Decoded {
    /// Whether all numbers name entries of the table.
    fn is_of_table(&self) -> bool
        ensures { result ≡ within.is_of_table self.now }
    {
        let counts = self.table.counts();
        self.table.is_closed()
            && (counts.has_item(Item::Component(self.component))
                && have_definitions(counts, self.definitions.as_slice()))
    }
}

fn has_definition(counts: Counts, definition: Definition) -> bool
    ensures { result ≡ within.has_definition counts definition }
{
    (counts.has_name(definition.name) && counts.has_name(definition.path))
        && counts.has_item(definition.item)
}

fn have_definitions(counts: Counts, definitions: &[Definition]) -> bool
    ensures { result ≡ list_all (within.has_definition counts) definitions.now }
{
    definitions
        .iter()
        .all(|definition| has_definition(counts, *definition))
}

/// Decodes the bytes of a component.
///
/// The time and the memory that it takes are at most a constant times the bytes and the limit of work. Core modules
/// and custom sections are skipped without being read.
///
/// ```text
/// let decoded = decode(alloc, &bytes, Limits::for_length(bytes.len()))?;
/// ```
pub fn decode(alloc: Global, bytes: &[u8], limits: Limits) -> Result<Decoded, DecodeError>
    ensures place { IfErr result (λ e. e.offset ≤ length bytes.now) }
    // Each number of what is decoded names an entry of its table.
    ensures table { IfOk result (λ d. within.is_of_table d ≡ true) }
    ensures within { IfOk result (λ d. within.IsWithin d.used limits) }
{
    match decode_world(alloc, bytes, limits) {
        Ok(decoded) => tested(decoded, bytes.len(), limits),
        Err(error) => Err(DecodeError {
            kind: error.kind,
            offset: error.offset.min(bytes.len()),
        }),
    }
}

/// What is decoded, unless it is none of its table or takes more than the limits, which tests never saw.
fn tested(decoded: Decoded, end: usize, limits: Limits) -> Result<Decoded, DecodeError>
    ensures place { IfErr result (λ e. e.offset ≡ end) }
    ensures table { IfOk result (λ d. within.is_of_table d ≡ true) }
    ensures within { IfOk result (λ d. within.IsWithin d.used limits) }
{
    if !decoded.is_of_table() {
        return error_at(ErrorKind::Index, end);
    }
    if decoded.used.is_within(limits) {
        Ok(decoded)
    } else {
        error_at(ErrorKind::Work, end)
    }
}

fn decode_world(alloc: Global, bytes: &[u8], limits: Limits) -> Result<Decoded, DecodeError> {
    let mut decoder = Decoder::new(alloc, bytes, limits)?;
    let component = evaluated(&mut decoder, bytes.len())?;
    let definitions = definitions(alloc, &decoder.table, component)?;
    let used = decoder.used(component);
    Ok(Decoded {
        table: decoder.into_table(),
        component,
        definitions,
        used,
    })
}

/// The component of so many bytes, evaluated.
fn evaluated(decoder: &mut Decoder<'_>, length: usize) -> Result<ComponentId, DecodeError> {
    let body = Body {
        kind: BodyKind::Component,
        start: 0,
        end: length,
        parent: None,
    };
    let number = decoder.add_body(body)?;
    let sequel = Sequel {
        next: Next::End,
        resume: None,
    };
    decoder.begin(number, body, None, sequel)?;
    decoder.run()?;
    match decoder.root {
        Some(component) => Ok(component),
        None => error_at(ErrorKind::Work, length),
    }
}

/// What an export of a WIT package defines: the export is the type of a component whose only export has the path of
/// an interface or a world.
fn defined_by(table: &Table, name: NameId, item: Item) -> Option<Definition> {
    let Item::Type(ty) = item else {
        return None;
    };
    let entry = table.ty(ty)?;
    let TypeDef::Named(named) = entry.def else {
        return None;
    };
    let Some(Owner::Component(component)) = named.body else {
        return None;
    };
    let instance = table.component(component)?.instance;
    if table.export_count(instance) != 1 {
        return None;
    }
    let (path, item) = table.export_at(instance, 0)?;
    if !table.name(path).contains('/') {
        return None;
    }
    match item {
        Item::Instance(_) | Item::Component(_) => Some(Definition { name, path, item }),
        _ => None,
    }
}

/// What a WIT package defines.
fn definitions(
    alloc: Global,
    table: &Table,
    component: ComponentId,
) -> Result<Vec<Definition>, DecodeError> {
    let mut all = Vec::new(alloc);
    let Some(found) = table.component(component) else {
        return Ok(all);
    };
    let instance = found.instance;
    for place in 0..table.export_count(instance) {
        if let Some((name, item)) = table.export_at(instance, place) {
            if let Some(definition) = defined_by(table, name, item) {
                all.push(definition)?;
            }
        }
    }
    Ok(all)
}
