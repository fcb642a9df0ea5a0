//! Packages of decoded components.
ghost use Rattle.std.specs.Prelude.{IfOk};
ghost use Rattle.wac_graph_types.specs.Package.{IsPackage};

use crate::converter::Converter;
use indexmap::IndexMap;
use std::alloc::{AllocError, AllocFailed, Global};
use std::fmt;
use wac_components::Decoded;
use wac_components_types::Item;
use wac_graph_types::{Interface, InterfaceId, ItemKind, Package, PackageError, WorldId};

/// How many bytes of names are copied at most for each unit of work that decoding took: a name is read where it is given,
/// and copied for what is given, for its use elsewhere, and for the world and the instance that has it.
const LETTERS: u64 = 8;

/// Why a decoded component is no package.
#[derive(Debug, Drop)]
pub enum ConversionError {
    /// A type of it can't be said: a list of fixed length, a map, or a type in use that is none of values.
    Unsupported,
    /// There is more to convert than the limit of steps allows, or the names that are to be copied are longer together
    /// than eight times the work that decoding took.
    TooLarge,
    /// Its types are no package.
    Package(PackageError),
    /// Memory ran out.
    Memory,
}

impl fmt::Display for ConversionError {
    fn fmt<W: fmt::Write>(&self, f: &mut fmt::Formatter<W>) -> fmt::Result {
        match self {
            ConversionError::Unsupported => f.write_str("a type that WAC can't say"),
            ConversionError::TooLarge => f.write_str("too many types"),
            ConversionError::Package(error) => error.fmt(f),
            ConversionError::Memory => f.write_str("out of memory"),
        }
    }
}

impl std::error::Error for ConversionError {}

impl From<AllocError> for ConversionError {
    fn from(_refused: AllocError) -> ConversionError {
        ConversionError::Memory
    }
}

impl<T: Drop> From<AllocFailed<T>> for ConversionError {
    fn from(_refused: AllocFailed<T>) -> ConversionError {
        ConversionError::Memory
    }
}

/// The package of a decoded component, made in at most so many steps.
///
/// Its definitions are the interfaces and worlds that a WIT package defines, by name.
pub fn package_of(alloc: Global, decoded: &Decoded, steps: u64) -> Result<Package, ConversionError>
    ensures { IfOk result IsPackage }
{
    let letters = decoded.used.work.saturating_mul(LETTERS);
    let mut converter = Converter::new(alloc, &decoded.table, letters);
    let world = converter.convert(decoded.component, steps)?;
    let instance = root_instance(alloc, &mut converter, world)?;
    let definitions = definitions(alloc, decoded, &converter)?;
    match Package::new(converter.into_types(), world, instance, definitions) {
        Ok(package) => Ok(package),
        Err(error) => Err(ConversionError::Package(error)),
    }
}

/// The interface of the component's instances, which exports what the world does.
fn root_instance(
    alloc: Global,
    converter: &mut Converter<'_>,
    world: WorldId,
) -> Result<InterfaceId, ConversionError> {
    let mut exports = IndexMap::new(alloc);
    let kind = ItemKind::Component(world);
    let count = match converter.types.exports(kind) {
        Some(all) => all.len(),
        None => 0,
    };
    for place in 0..count {
        if let Some(name) = converter.types.export_name(alloc, kind, place)? {
            if let Some(item) = converter.types.export(kind, name.as_str()) {
                exports.insert(name, item)?;
            }
        }
    }
    Ok(
        converter.types.add_interface(Interface {
            id: None,
            uses: IndexMap::new(alloc),
            exports,
        })?,
    )
}

/// What a WIT package defines, by name.
fn definitions(
    alloc: Global,
    decoded: &Decoded,
    converter: &Converter<'_>,
) -> Result<IndexMap<String, ItemKind>, ConversionError> {
    let mut all = IndexMap::new(alloc);
    for definition in &decoded.definitions {
        let kind = match definition.item {
            Item::Instance(instance) => converter.interface_type(instance),
            Item::Component(component) => converter.world_type(component),
            _ => None,
        };
        if let Some(kind) = kind {
            let name = String::from_str(alloc, decoded.table.name(definition.name))?;
            all.insert(name, kind)?;
        }
    }
    Ok(all)
}
