//! Small components, and one that grows without end.

use std::alloc::{AllocError, Global};
use std::test::Fail;
use wac_components::{DecodeError, Decoded, ErrorKind, Limits, decode};
use wac_components_types::{ComponentId, InstanceId, Sort};

/// Two instances of one type, each with a resource of its own, are imported; types of both are exported again.
pub(crate) static IDENTITIES: &[u8] =
    b"\0asm\x0d\0\x01\0\x07\x17\x01B\x04\x04\0\x01r\x03\x01\x01i\0\x01@\0\0\x01\x04\0\x01f\x01\x02\x0a\x13\x02\0\x05a:b/x\x05\0\0\x05a:b/y\x05\0\x06\x0b\x02\x03\0\x01\x01r\x01\0\x01\x01f\x05\x0f\x01\x01\x02\0\x02r2\x03\x01\0\x02f2\x01\0\x0b\x16\x02\0\x05a:b/z\x05\x02\0\0\x06a:b/x2\x05\0\0";

/// Components, modules, types and functions at the root.
static OTHERS: &[u8] =
    b"\0asm\x0d\0\x01\0\x03\x03\x01P\0\x07%\x04A\x03\x01@\x01\x01a}\0s\x03\0\x01f\x01\0\x04\0\x01g\x01\0m\x01\x01x?\x7f\0@\x01\x01a}\0s\x0a\x17\x04\0\x01c\x04\0\0\x01m\0\x11\0\0\x01r\x03\x01\0\x02f0\x01\x03\x043\0asm\x0d\0\x01\0\x06\x06\x01\0\x10\x02\x01\0\x07\x08\x01@\x01\x01ny\x01\0\x0a\x0d\x02\0\x01h\x01\0\0\x02m2\0\x11\0\x0b\x08\x01\0\x02h2\x01\0\0\x05\x08\x01\0\0\x01\x01f\x01\0\x06\x06\x01\x01\0\0\x01g\x0b<\x07\0\x05inner\x04\x01\0\0\x01e\x03\x01\0\0\x03res\x03\x02\x01\x03\x01\0\x05world\x03\0\0\0\x05again\x04\0\0\0\x02r2\x03\x04\0\0\x01g\x01\x01\0";

/// An import or an export: its name and its sort.
type Row = (&'static str, Sort);

static IDENTITIES_IMPORTS: [Row; 2] = [("a:b/x", Sort::Instance), ("a:b/y", Sort::Instance)];

static IDENTITIES_EXPORTS: [Row; 2] = [("a:b/z", Sort::Instance), ("a:b/x2", Sort::Instance)];

static OTHERS_IMPORTS: [Row; 4] = [
    ("c", Sort::Component),
    ("m", Sort::Module),
    ("r", Sort::Type),
    ("f0", Sort::Func),
];

static OTHERS_EXPORTS: [Row; 7] = [
    ("inner", Sort::Component),
    ("e", Sort::Type),
    ("res", Sort::Type),
    ("world", Sort::Type),
    ("again", Sort::Component),
    ("r2", Sort::Type),
    ("g", Sort::Func),
];

/// What bytes are decoded to; decoded once more where memory runs out.
pub(crate) fn decoded_again(alloc: Global, bytes: &[u8]) -> Result<Decoded, DecodeError> {
    let limits = Limits::for_length(bytes.len());
    match decode(alloc, bytes, limits) {
        Err(error) if error.kind == ErrorKind::Memory => decode(alloc, bytes, limits),
        answer => answer,
    }
}

fn imports_are(decoded: &Decoded, component: ComponentId, rows: &[Row]) -> bool {
    for (place, (name, sort)) in rows.iter().enumerate() {
        match decoded.table.import_at(component, place) {
            None => return false,
            Some((found, item)) => {
                if decoded.table.name(found) != *name || item.sort() != *sort {
                    return false;
                }
            }
        }
    }
    decoded.table.import_at(component, rows.len()) == None
}

fn exports_are(decoded: &Decoded, instance: InstanceId, rows: &[Row]) -> bool {
    for (place, (name, sort)) in rows.iter().enumerate() {
        match decoded.table.export_at(instance, place) {
            None => return false,
            Some((found, item)) => {
                if decoded.table.name(found) != *name || item.sort() != *sort {
                    return false;
                }
            }
        }
    }
    decoded.table.export_at(instance, rows.len()) == None
}

/// Whether bytes are decoded to a world with these imports and exports.
fn is_world(
    alloc: Global,
    bytes: &[u8],
    imports: &[Row],
    exports: &[Row],
) -> Result<bool, DecodeError> {
    let decoded = decoded_again(alloc, bytes)?;
    let component = decoded.component;
    let instance = match decoded.table.component(component) {
        Some(found) => found.instance,
        None => return Ok(false),
    };
    Ok(imports_are(&decoded, component, imports) && exports_are(&decoded, instance, exports))
}

#[test]
fn worlds_have_their_items_in_order(rt: HostRuntime) -> Result<(), Fail> {
    let identities = is_world(
        rt.alloc(),
        IDENTITIES,
        &IDENTITIES_IMPORTS,
        &IDENTITIES_EXPORTS,
    )?;
    assert!(rt; identities);
    let others = is_world(rt.alloc(), OTHERS, &OTHERS_IMPORTS, &OTHERS_EXPORTS)?;
    assert!(rt; others);
    Ok(())
}

/// The first eight bytes of a component.
static PREAMBLE: &[u8] = b"\0asm\x0d\0\x01\0";

/// A component with forty others in it, each of which makes two instances of the one before.
fn growing(alloc: Global) -> Result<Vec<u8>, AllocError> {
    let mut bytes = Vec::from_slice(alloc, PREAMBLE)?;
    bytes.extend_from_slice(&[4, 8])?;
    bytes.extend_from_slice(PREAMBLE)?;
    for number in 0..40u8 {
        bytes.extend_from_slice(&[4, 24])?;
        bytes.extend_from_slice(PREAMBLE)?;
        bytes.extend_from_slice(&[6, 5, 1, 4, 2, 1, number])?;
        bytes.extend_from_slice(&[5, 7, 2, 0, 0, 0, 0, 0, 0])?;
    }
    bytes.extend_from_slice(&[5, 4, 1, 0, 40, 0])?;
    Ok(bytes)
}

fn growing_again(alloc: Global) -> Result<Vec<u8>, AllocError> {
    match growing(alloc) {
        Err(_) => growing(alloc),
        answer => answer,
    }
}

#[test]
fn a_component_that_grows_without_end_is_rejected(rt: HostRuntime) -> Result<(), Fail> {
    let bytes = growing_again(rt.alloc())?;
    let kind = match decoded_again(rt.alloc(), bytes.as_slice()) {
        Ok(_) => None,
        Err(error) => Some(error.kind),
    };
    assert!(rt; kind == Some(ErrorKind::Work));
    Ok(())
}
