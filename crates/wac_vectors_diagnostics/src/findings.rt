//! What is found first, and where it lies.

use crate::parts::{Parts, joined};
use std::alloc::{AllocError, Global};
use std::process::Abort;
use std::test::Fail;
use wac_diagnostics::Diagnostic;
use wac_first_error::{Reading, Verdict, first_error, read_text};

/// A text, whether it is to be resolved, and what is found: a line `OFFSET+LEN CODE`, or what it is.
type Row = (Parts, bool, &'static str);

static ROWS: [Row; 11] = [
    // Of two errors the one that is tested first is reported, wherever they lie.
    (&[("\u{feff}\u{c}", 1)], true, "0+3 wac::byte-order-mark"),
    (&[("x\u{c}", 1)], true, "1+1 wac::disallowed-control-code"),
    (
        &[("package a:b;\nlet x = y;\nlet", 1)],
        true,
        "26+1 wac::expected",
    ),
    // A thousand brackets are none too many, and nor are more in a comment; one more is rejected before parsing.
    (&[("; {", 1), ("(", 999)], true, "0+1 wac::expected"),
    (
        &[("; {", 1), ("(", 1000)],
        true,
        "1002+1 wac::nested-too-deep",
    ),
    (
        &[("// ", 1), ("(", 1001), ("\npackage a:b;", 1)],
        true,
        "a document",
    ),
    // A document that mentions packages isn't resolved, and none is where that isn't asked for.
    (
        &[("package a:b;\nimport f: func();\nexport f as g;\n", 1)],
        true,
        "a document",
    ),
    (
        &[("package a:b;\nlet x = new c:d { };\nlet x = y;\n", 1)],
        true,
        "not resolved",
    ),
    (
        &[("package a:b;\nlet x = new c:d { };\nlet x = y;\n", 1)],
        false,
        "a document",
    ),
    (&[("package a:b;\nlet x = y;\n", 1)], false, "a document"),
    (
        &[("package a:b;\nlet x = y;\n", 1)],
        true,
        "21+1 wac::undefined-name",
    ),
];

/// The line of a diagnostic.
fn line_of(alloc: Global, diagnostic: &Diagnostic) -> Result<String, AllocError> {
    let code = diagnostic.code;
    match diagnostic.span {
        Some(span) => {
            let offset = span.offset();
            let len = span.len();
            format!(in alloc; "{offset}+{len} {code}")
        }
        None => String::from_str(alloc, code),
    }
}

/// What is found of bytes first.
fn found_first(alloc: Global, bytes: &[u8], resolve: bool) -> Result<String, AllocError> {
    match first_error(alloc, bytes, resolve) {
        Ok(Verdict::Document(text)) if text.as_bytes() == bytes => String::from_str(
            alloc,
            "a document",
        ),
        Ok(Verdict::Unresolved(text)) if text.as_bytes() == bytes => String::from_str(
            alloc,
            "not resolved",
        ),
        Ok(Verdict::Rejected(diagnostic)) => line_of(alloc, &diagnostic),
        Ok(_) => String::from_str(alloc, "another text"),
        Err(_) => Err(AllocError),
    }
}

/// What is found of the text of a row.
fn found_of(alloc: Global, row: &Row) -> Result<String, AllocError> {
    let text = joined(alloc, row.0)?;
    found_first(alloc, text.as_bytes(), row.1)
}

/// What reading bytes gives, which tests no more than UTF-8 and the byte order mark.
fn read(alloc: Global, bytes: &[u8]) -> Result<String, AllocError> {
    match read_text(alloc, bytes) {
        Ok(Reading::Text(text)) => String::from_str(alloc, text),
        Ok(Reading::Rejected(diagnostic)) => line_of(alloc, &diagnostic),
        Err(_) => Err(AllocError),
    }
}

/// The first finding that is another one than its row says.
fn first_other(alloc: Global) -> Result<Option<String>, AllocError> {
    for row in &ROWS {
        let found = found_of(alloc, row)?;
        if found.as_str() != row.2 {
            return Ok(Some(found));
        }
    }
    Ok(None)
}

#[test]
fn the_first_error_is_found(rt: HostRuntime) -> Result<(), Fail> {
    if let Some(found) = first_other(rt.alloc())? {
        panic!(rt; "{found}");
    }
    Ok(())
}

#[test]
fn bytes_are_read(rt: HostRuntime) -> Result<(), Fail> {
    let found = found_first(rt.alloc(), b"\xef\xbb\xbf\x0c\xff", true)?;
    assert!(rt; found.as_str() == "4+1 wac::not-utf-8", "{found}");
    let text = read(rt.alloc(), b"x\x0c")?;
    assert!(rt; text.as_str() == "x\u{c}", "{text}");
    let line = read(rt.alloc(), b"x\xff")?;
    assert!(rt; line.as_str() == "1+1 wac::not-utf-8", "{line}");
    Ok(())
}
