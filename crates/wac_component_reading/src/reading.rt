// Reading components as packages.
use crate::defined::{defined_world, with_defined_world, with_root};
use crate::errors::{conversion_diagnostic, decode_diagnostic, no_such_world};
use std::alloc::{AllocError, Global};
use wac_components::{Decoded, Limits, decode};
use wac_components_package::{ConversionError, package_of};
use wac_diagnostics::Diagnostic;
use wac_graph_types::{Package, PackageError};

/// How many steps it may take to write or to convert what is decoded.
pub const STEPS: u64 = 10_000_000;

/// The package of bytes, or what is wrong with them.
#[derive(Drop)]
pub enum Converted {
    Package(Package),
    Rejected(Diagnostic),
}

/// The package of the component that bytes are, which defines its world as `root`; or, where they are an encoded WIT
/// package, that package, whose world is the chosen one, or else its only one.
pub fn component_package(
    alloc: Global,
    bytes: &[u8],
    world: Option<&str>,
) -> Result<Converted, AllocError> {
    match decode(alloc, bytes, Limits::for_length(bytes.len())) {
        Ok(decoded) => convert(alloc, &decoded, world),
        Err(error) => Ok(Converted::Rejected(decode_diagnostic(alloc, error)?)),
    }
}

/// The package of what is decoded, if it has the world that is chosen.
fn convert(alloc: Global, decoded: &Decoded, world: Option<&str>) -> Result<Converted, AllocError> {
    match package_with_world(alloc, decoded, world) {
        Ok(package) => with_world(alloc, package, world),
        Err(error) => Ok(Converted::Rejected(conversion_diagnostic(alloc, &error)?)),
    }
}

/// The package, if it has the world that is chosen.
fn with_world(
    alloc: Global,
    package: Package,
    world: Option<&str>,
) -> Result<Converted, AllocError> {
    if let Some(name) = world {
        if defined_world(package.definitions(), world).is_none() {
            return Ok(Converted::Rejected(no_such_world(alloc, name)?));
        }
    }
    Ok(Converted::Package(package))
}

/// The package of a component, or the one that an encoded WIT package is.
fn package_with_world(
    alloc: Global,
    decoded: &Decoded,
    world: Option<&str>,
) -> Result<Package, ConversionError> {
    let package = package_of(alloc, decoded, STEPS)?;
    let made = if decoded.definitions.is_empty() {
        with_root(alloc, &package)
    } else {
        with_defined_world(alloc, &package, world)
    };
    match made {
        Ok(package) => Ok(package),
        Err(PackageError::Memory(_)) => Err(ConversionError::Memory),
        Err(error) => Err(ConversionError::Package(error)),
    }
}
