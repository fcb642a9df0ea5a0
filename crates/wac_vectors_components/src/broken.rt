//! Broken components: what is wrong with each, and at which byte.

use std::alloc::Global;
use std::process::Abort;
use std::test::Fail;
use wac_components::{DecodeError, ErrorKind, Limits, decode};

/// The bytes of a component, what is wrong with them, and at which offset.
type Row = (&'static [u8], ErrorKind, usize);

static SECTIONS: [Row; 10] = [
    // empty
    (b"", ErrorKind::UnexpectedEnd, 0),
    // three-bytes
    (b"\0as", ErrorKind::UnexpectedEnd, 3),
    // no-magic
    (b"\0bsm\x0d\0\x01\0", ErrorKind::Magic, 0),
    // text
    (b"(component)", ErrorKind::Magic, 0),
    // core-module
    (b"\0asm\x01\0\0\0", ErrorKind::CoreModule, 4),
    // older-version
    (b"\0asm\x0c\0\x01\0", ErrorKind::Version, 4),
    // cut-in-a-section
    (
        b"\0asm\x0d\0\x01\0\x07o\x01B\x0a\x04\0\x06bucket\x03\x01\x01i\0\x01@\x01\x04names\0\x01\x04\0\x13[constructor]bucket",
        ErrorKind::UnexpectedEnd,
        9,
    ),
    // section-13
    (b"\0asm\x0d\0\x01\0\x0d\0", ErrorKind::Section, 8),
    // section-past-the-end
    (
        b"\0asm\x0d\0\x01\0\x07\x05\x01@",
        ErrorKind::UnexpectedEnd,
        9,
    ),
    // section-size-of-six-bytes
    (
        b"\0asm\x0d\0\x01\0\x07\x80\x80\x80\x80\x80\0",
        ErrorKind::LongNumber,
        9,
    ),
];

static TYPES: [Row; 10] = [
    // section-size-over-32-bits
    (
        b"\0asm\x0d\0\x01\0\x07\xff\xff\xff\xff\x1f",
        ErrorKind::LongNumber,
        9,
    ),
    // bytes-left-in-section
    (
        b"\0asm\x0d\0\x01\0\x07\x03\x01}\0",
        ErrorKind::SectionSize,
        12,
    ),
    // count-too-large
    (b"\0asm\x0d\0\x01\0\x07\x02\x09}", ErrorKind::Count, 10),
    // type-opcode
    (b"\0asm\x0d\0\x01\0\x07\x02\x01=", ErrorKind::Opcode, 11),
    // value-type-opcode
    (b"\0asm\x0d\0\x01\0\x07\x03\x01pP", ErrorKind::Opcode, 12),
    // type-index
    (b"\0asm\x0d\0\x01\0\x07\x04\x02}p\x01", ErrorKind::Index, 13),
    // own-of-a-value
    (
        b"\0asm\x0d\0\x01\0\x07\x04\x02}i\0",
        ErrorKind::OtherKind,
        13,
    ),
    // list-of-a-function
    (
        b"\0asm\x0d\0\x01\0\x07\x07\x02@\0\x01\0p\0",
        ErrorKind::OtherKind,
        16,
    ),
    // name-not-utf8
    (
        b"\0asm\x0d\0\x01\0\x07\x06\x01m\x01\x02a\xff",
        ErrorKind::Utf8,
        15,
    ),
    // field-again
    (
        b"\0asm\x0d\0\x01\0\x07\x09\x01r\x02\x01a}\x01a}",
        ErrorKind::DuplicateName,
        16,
    ),
];

static ITEMS: [Row; 10] = [
    // import-again
    (
        b"\0asm\x0d\0\x01\0\x07\x05\x01@\0\x01\0\x0a\x0b\x02\0\x01f\x01\0\0\x01f\x01\0",
        ErrorKind::DuplicateName,
        23,
    ),
    // export-again
    (
        b"\0asm\x0d\0\x01\0\x07\x02\x01}\x0b\x0d\x02\0\x01t\x03\0\0\0\x01t\x03\0\0",
        ErrorKind::DuplicateName,
        21,
    ),
    // extern-name-byte
    (
        b"\0asm\x0d\0\x01\0\x07\x02\x01}\x0a\x07\x01\x07\x01t\x03\0\0",
        ErrorKind::Opcode,
        15,
    ),
    // extern-kind
    (
        b"\0asm\x0d\0\x01\0\x0a\x06\x01\0\x01t\x06\0",
        ErrorKind::Opcode,
        14,
    ),
    // instance-of-a-value-type
    (
        b"\0asm\x0d\0\x01\0\x07\x02\x01}\x0a\x06\x01\0\x01i\x05\0",
        ErrorKind::OtherKind,
        19,
    ),
    // alias-of-no-export
    (
        b"\0asm\x0d\0\x01\0\x07\x03\x01B\0\x0a\x06\x01\0\x01i\x05\0\x06\x06\x01\x03\0\0\x01x",
        ErrorKind::UnknownName,
        27,
    ),
    // alias-of-another-sort
    (
        b"\0asm\x0d\0\x01\0\x07\x0c\x01B\x02\x01}\x04\0\x01t\x03\0\0\x0a\x06\x01\0\x01i\x05\0\x06\x06\x01\x01\0\0\x01t",
        ErrorKind::OtherKind,
        33,
    ),
    // outer-too-far
    (
        b"\0asm\x0d\0\x01\0\x06\x05\x01\x03\x02\x01\0",
        ErrorKind::Index,
        13,
    ),
    // value-section
    (b"\0asm\x0d\0\x01\0\x0c\x01\0", ErrorKind::Unsupported, 8),
    // start-section
    (
        b"\0asm\x0d\0\x01\0\x09\x03\0\0\0",
        ErrorKind::Unsupported,
        8,
    ),
];

static SCOPES: [Row; 7] = [
    // named-results
    (
        b"\0asm\x0d\0\x01\0\x07\x08\x01@\0\x01\x01\x01a}",
        ErrorKind::Unsupported,
        14,
    ),
    // canon-opcode
    (b"\0asm\x0d\0\x01\0\x08\x02\x01\x7f", ErrorKind::Opcode, 11),
    // lift-of-no-core-function
    (
        b"\0asm\x0d\0\x01\0\x07\x05\x01@\0\x01\0\x08\x06\x01\0\0\0\0\0",
        ErrorKind::Index,
        20,
    ),
    // argument-missing
    (
        b"\0asm\x0d\0\x01\0\x04\x17\0asm\x0d\0\x01\0\x07\x05\x01@\0\x01\0\x0a\x06\x01\0\x01f\x01\0\x05\x04\x01\0\0\0",
        ErrorKind::UnknownName,
        28,
    ),
    // argument-of-another-sort
    (
        b"\0asm\x0d\0\x01\0\x04\x17\0asm\x0d\0\x01\0\x07\x05\x01@\0\x01\0\x0a\x06\x01\0\x01f\x01\0\x07\x02\x01}\x05\x08\x01\0\0\x01\x01f\x03\0",
        ErrorKind::OtherKind,
        28,
    ),
    // broken-inside
    (
        b"\0asm\x0d\0\x01\0\x04\x0d\0asm\x0d\0\x01\0\x07\x03\x01p\x01\x05\x04\x01\0\0\0",
        ErrorKind::Index,
        22,
    ),
    // outer-type-after-the-component
    (
        b"\0asm\x0d\0\x01\0\x04\x0f\0asm\x0d\0\x01\0\x06\x05\x01\x03\x02\x01\0\x07\x02\x01}\x05\x04\x01\0\0\0",
        ErrorKind::Index,
        24,
    ),
];

static LONG_ROWS: [Row; 2] = [
    // types-too-deep
    (
        b"\0asm\x0d\0\x01\0\x07\x85\x03\x97\x01}p\0p\x01p\x02p\x03p\x04p\x05p\x06p\x07p\x08p\x09p\x0ap\x0bp\x0cp\x0dp\x0ep\x0fp\x10p\x11p\x12p\x13p\x14p\x15p\x16p\x17p\x18p\x19p\x1ap\x1bp\x1cp\x1dp\x1ep\x1fp p!p\"p#p$p%p&p'p(p)p*p+p,p-p.p/p0p1p2p3p4p5p6p7p8p9p:p;p<p=p>p?p\xc0\0p\xc1\0p\xc2\0p\xc3\0p\xc4\0p\xc5\0p\xc6\0p\xc7\0p\xc8\0p\xc9\0p\xca\0p\xcb\0p\xcc\0p\xcd\0p\xce\0p\xcf\0p\xd0\0p\xd1\0p\xd2\0p\xd3\0p\xd4\0p\xd5\0p\xd6\0p\xd7\0p\xd8\0p\xd9\0p\xda\0p\xdb\0p\xdc\0p\xdd\0p\xde\0p\xdf\0p\xe0\0p\xe1\0p\xe2\0p\xe3\0p\xe4\0p\xe5\0p\xe6\0p\xe7\0p\xe8\0p\xe9\0p\xea\0p\xeb\0p\xec\0p\xed\0p\xee\0p\xef\0p\xf0\0p\xf1\0p\xf2\0p\xf3\0p\xf4\0p\xf5\0p\xf6\0p\xf7\0p\xf8\0p\xf9\0p\xfa\0p\xfb\0p\xfc\0p\xfd\0p\xfe\0p\xff\0p\x80\x01p\x81\x01p\x82\x01p\x83\x01p\x84\x01p\x85\x01p\x86\x01p\x87\x01p\x88\x01p\x89\x01p\x8a\x01p\x8b\x01p\x8c\x01p\x8d\x01p\x8e\x01p\x8f\x01p\x90\x01p\x91\x01p\x92\x01p\x93\x01p\x94\x01p\x95\x01",
        ErrorKind::Depth,
        247,
    ),
    // types-too-large
    (
        b"\0asm\x0d\0\x01\0\x07\xa2\x01)}o\x02\0\0o\x02\x01\x01o\x02\x02\x02o\x02\x03\x03o\x02\x04\x04o\x02\x05\x05o\x02\x06\x06o\x02\x07\x07o\x02\x08\x08o\x02\x09\x09o\x02\x0a\x0ao\x02\x0b\x0bo\x02\x0c\x0co\x02\x0d\x0do\x02\x0e\x0eo\x02\x0f\x0fo\x02\x10\x10o\x02\x11\x11o\x02\x12\x12o\x02\x13\x13o\x02\x14\x14o\x02\x15\x15o\x02\x16\x16o\x02\x17\x17o\x02\x18\x18o\x02\x19\x19o\x02\x1a\x1ao\x02\x1b\x1bo\x02\x1c\x1co\x02\x1d\x1do\x02\x1e\x1eo\x02\x1f\x1fo\x02  o\x02!!o\x02\"\"o\x02##o\x02$$o\x02%%o\x02&&o\x02''",
        ErrorKind::Work,
        73,
    ),
];

/// The error of these bytes; decoded once more where memory runs out.
fn error_of(alloc: Global, bytes: &[u8]) -> Option<DecodeError> {
    let limits = Limits::for_length(bytes.len());
    match decode(alloc, bytes, limits) {
        Ok(_) => None,
        Err(error) if error.kind == ErrorKind::Memory => match decode(alloc, bytes, limits) {
            Ok(_) => None,
            Err(error) => Some(error),
        },
        Err(error) => Some(error),
    }
}

/// The number of the first row that isn't as it should be.
fn first_wrong(alloc: Global, rows: &[Row]) -> Option<usize> {
    for (number, (bytes, kind, offset)) in rows.iter().enumerate() {
        let expected = DecodeError {
            kind: *kind,
            offset: *offset,
        };
        if error_of(alloc, bytes) != Some(expected) {
            return Some(number);
        }
    }
    None
}

fn are_rejected(rt: &impl Abort, alloc: Global, rows: &[Row]) {
    let wrong = first_wrong(alloc, rows);
    assert!(rt; wrong == None, "row {wrong:?}");
}

#[test]
fn broken_sections_are_rejected(rt: HostRuntime) -> Result<(), Fail> {
    are_rejected(&rt, rt.alloc(), &SECTIONS);
    Ok(())
}

#[test]
fn broken_types_are_rejected(rt: HostRuntime) -> Result<(), Fail> {
    are_rejected(&rt, rt.alloc(), &TYPES);
    Ok(())
}

#[test]
fn broken_items_are_rejected(rt: HostRuntime) -> Result<(), Fail> {
    are_rejected(&rt, rt.alloc(), &ITEMS);
    Ok(())
}

#[test]
fn broken_scopes_are_rejected(rt: HostRuntime) -> Result<(), Fail> {
    are_rejected(&rt, rt.alloc(), &SCOPES);
    Ok(())
}

#[test]
fn types_past_the_limits_are_rejected(rt: HostRuntime) -> Result<(), Fail> {
    are_rejected(&rt, rt.alloc(), &LONG_ROWS);
    Ok(())
}
