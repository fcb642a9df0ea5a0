//! A component with a large core module in it.

use std::alloc::{AllocError, Global};
use std::test::Fail;
use wac_components::{DecodeError, Decoded, ErrorKind, Limits, decode};

/// The bytes before the core module: those that begin a component, the number of the section, and its length, which is
/// ten megabytes in LEB128.
static BEFORE: &[u8] = b"\0asm\x0d\0\x01\0\x01\x80\x80\x80\x05";

/// The bytes after the core module: the type `bool`, and its export as `t`.
static AFTER: &[u8] = b"\x07\x02\x01\x7f\x0b\x07\x01\0\x01t\x03\0\0";

/// A part of the core module, which is none: all of its bytes are 0.
static BLOCK: [u8; 4096] = [0; 4096];

/// How many blocks are ten megabytes.
const BLOCKS: u32 = 2560;

/// What is read of the component is far less than its core module.
const FEW_BYTES: Limits = Limits {
    depth: 100,
    size: 100,
    work: 100,
};

/// A component with a core module of ten megabytes.
fn large(alloc: Global) -> Result<Vec<u8>, AllocError> {
    let mut bytes = Vec::from_slice(alloc, BEFORE)?;
    for _ in 0..BLOCKS {
        bytes.extend_from_slice(&BLOCK)?;
    }
    bytes.extend_from_slice(AFTER)?;
    Ok(bytes)
}

fn large_again(alloc: Global) -> Result<Vec<u8>, AllocError> {
    match large(alloc) {
        Err(_) => large(alloc),
        answer => answer,
    }
}

/// What bytes are decoded to; decoded once more where memory runs out.
fn decoded_again(alloc: Global, bytes: &[u8]) -> Result<Decoded, DecodeError> {
    match decode(alloc, bytes, FEW_BYTES) {
        Err(error) if error.kind == ErrorKind::Memory => decode(alloc, bytes, FEW_BYTES),
        answer => answer,
    }
}

/// How many exports a decoded component has.
fn export_count(decoded: &Decoded) -> usize {
    match decoded.table.component(decoded.component) {
        Some(found) => decoded.table.export_count(found.instance),
        None => 0,
    }
}

#[test]
fn a_large_core_module_is_not_read(rt: HostRuntime) -> Result<(), Fail> {
    let bytes = large_again(rt.alloc())?;
    let decoded = decoded_again(rt.alloc(), bytes.as_slice())?;
    assert!(rt; export_count(&decoded) == 1);
    Ok(())
}
