//! Numbers and names, read from bytes.

use std::test::Fail;
use wac_components_bytes::{ErrorKind, Reader};

/// Bytes, and the number that they begin with, with the offset after it; or what is wrong, with its offset.
type Row = (&'static [u8], Result<u32, ErrorKind>, usize);

/// The first is the example that descriptions of LEB128 have; the others are limits of the format.
static NUMBERS: [Row; 9] = [
    (b"\xe5\x8e\x26", Ok(624_485), 3),
    (b"\0\x01", Ok(0), 1),
    (b"\x7f", Ok(127), 1),
    (b"\x80\x01", Ok(128), 2),
    (b"\x80\x80\0", Ok(0), 3),
    (b"\xff\xff\xff\xff\x0f", Ok(u32::MAX), 5),
    (b"\xff\xff\xff\xff\x1f", Err(ErrorKind::LongNumber), 0),
    (b"\x80\x80\x80\x80\x80\0", Err(ErrorKind::LongNumber), 0),
    (b"\x80\x80", Err(ErrorKind::UnexpectedEnd), 2),
];

/// Whether a row's bytes are read as it says.
fn is_right(row: &Row) -> bool {
    let (bytes, expected, offset) = row;
    let mut reader = Reader::new(bytes, 100);
    match (reader.number(), expected) {
        (Ok(number), Ok(value)) => number == *value && reader.position() == *offset,
        (Err(error), Err(kind)) => error.kind == *kind && error.offset == *offset,
        _ => false,
    }
}

/// The number of the first row that isn't read as it says.
fn first_wrong(rows: &[Row]) -> Option<usize> {
    for (number, row) in rows.iter().enumerate() {
        if !is_right(row) {
            return Some(number);
        }
    }
    None
}

#[test]
fn numbers_are_read(rt: HostRuntime) -> Result<(), Fail> {
    let wrong = first_wrong(&NUMBERS);
    assert!(rt; wrong == None, "row {wrong:?}");
    Ok(())
}

/// Bytes, and the signed number of 33 bits that they begin with, if it isn't below 0.
type IndexRow = (&'static [u8], Result<Option<u32>, ErrorKind>);

static INDEXES: [IndexRow; 9] = [
    (b"\x3f", Ok(Some(63))),
    (b"\x40", Ok(None)),
    (b"\x7f", Ok(None)),
    (b"\xc0\0", Ok(Some(64))),
    (b"\xff\0", Ok(Some(127))),
    (b"\xff\xff\xff\xff\x0f", Ok(Some(u32::MAX))),
    (b"\x80\x80\x80\x80\x70", Ok(None)),
    (b"\x80\x80\x80\x80\x10", Err(ErrorKind::LongNumber)),
    (b"\xff\xff\xff\xff\x8f\0", Err(ErrorKind::LongNumber)),
];

fn is_right_index(row: &IndexRow) -> bool {
    let (bytes, expected) = row;
    match (Reader::new(bytes, 100).index_or_opcode(), expected) {
        (Ok(index), Ok(value)) => index == *value,
        (Err(error), Err(kind)) => error.kind == *kind && error.offset == 0,
        _ => false,
    }
}

fn first_wrong_index(rows: &[IndexRow]) -> Option<usize> {
    for (number, row) in rows.iter().enumerate() {
        if !is_right_index(row) {
            return Some(number);
        }
    }
    None
}

#[test]
fn indexes_are_read(rt: HostRuntime) -> Result<(), Fail> {
    let wrong = first_wrong_index(&INDEXES);
    assert!(rt; wrong == None, "row {wrong:?}");
    Ok(())
}

/// Bytes, and the name that they begin with, or what is wrong, with its offset.
type NameRow = (&'static [u8], Result<&'static str, (ErrorKind, usize)>);

static NAMES: [NameRow; 5] = [
    (b"\x02hi!", Ok("hi")),
    (b"\0", Ok("")),
    (b"\x03h\xc3\xa9", Ok("hé")),
    (b"\x05hi", Err((ErrorKind::UnexpectedEnd, 0))),
    (b"\x02a\xff", Err((ErrorKind::Utf8, 2))),
];

fn is_right_name(row: &NameRow) -> bool {
    let (bytes, expected) = row;
    match (Reader::new(bytes, 100).name(), expected) {
        (Ok(name), Ok(text)) => name == *text,
        (Err(error), Err((kind, offset))) => error.kind == *kind && error.offset == *offset,
        _ => false,
    }
}

fn first_wrong_name(rows: &[NameRow]) -> Option<usize> {
    for (number, row) in rows.iter().enumerate() {
        if !is_right_name(row) {
            return Some(number);
        }
    }
    None
}

#[test]
fn names_are_read(rt: HostRuntime) -> Result<(), Fail> {
    let wrong = first_wrong_name(&NAMES);
    assert!(rt; wrong == None, "row {wrong:?}");
    Ok(())
}
