//! Frames: what is received of bytes that come in pieces.

use crate::devices::Pieces;
use std::alloc::{AllocError, Global};
use std::process::Abort;
use std::test::Fail;
use wac_lsp_messages::{ReceiveError, Received, Receiver, send};

/// What is received until the end, a line for each body, and for the end.
fn received(alloc: Global, mut input: Pieces<'_>) -> Result<String, AllocError> {
    let mut receiver = Receiver::new(alloc);
    let mut found = String::new(alloc);
    for _ in 0..9 {
        match receiver.receive(alloc, &mut input) {
            Ok(Some(Received::TooLong)) => found.push_str("too long\n")?,
            Ok(Some(Received::Body(body))) => {
                found.push_str(str::from_utf8(body.as_slice()).unwrap_or("?"))?;
                found.push('\n')?;
            }
            Ok(None) => {
                found.push_str("end")?;
                return Ok(found);
            }
            Err(ReceiveError::Memory(_)) => return Err(AllocError),
            Err(error) => {
                found.push_str(error.to_string(alloc)?.as_str())?;
                return Ok(found);
            }
        }
    }
    Ok(found)
}

/// Bytes, and what is received of them.
static ROWS: [(&str, &str); 20] = [
    ("", "end"),
    ("Content-Length: 2\r\n\r\n{}", "{}\nend"),
    ("Content-Length: 0\r\n\r\n", "\nend"),
    (
        "Content-Length: 2\r\n\r\n{}Content-Length: 4\r\n\r\nnull",
        "{}\nnull\nend",
    ),
    (
        "Content-Length: 1\r\nContent-Type: application/vscode-jsonrpc; charset=utf-8\r\n\r\n1",
        "1\nend",
    ),
    (
        "Content-Type: application/vscode-jsonrpc; charset=utf-8\r\nContent-Length: 1\r\n\r\n1",
        "1\nend",
    ),
    ("content-length:3\r\n\r\n\r\n\r", "\r\n\r\nend"),
    ("CONTENT-LENGTH: 3 \r\n\r\n[1]", "[1]\nend"),
    ("Content-Length:\t3 \t\r\n\r\n[1]", "[1]\nend"),
    (
        "Content-Length: 3\r\n\r\n{}",
        "the input ended within a message",
    ),
    ("Content-Length: 3\r\n", "the input ended within a message"),
    ("Content-Leng", "the input ended within a message"),
    (
        "Content-Type: x\r\n\r\n{}",
        "the header has no Content-Length",
    ),
    ("\r\n\r\n{}", "a line of the header has no colon"),
    (
        "Content-Length 2\r\n\r\n{}",
        "a line of the header has no colon",
    ),
    (
        "Content-Length: x\r\n\r\n{}",
        "the Content-Length is no number",
    ),
    (
        "Content-Length: -2\r\n\r\n{}",
        "the Content-Length is no number",
    ),
    (
        "Content-Length: 2\r\nContent-Length: 2\r\n\r\n{}",
        "the Content-Length is no number",
    ),
    (
        "Content-Length: 67108865\r\n\r\n{}",
        "the input ended within a message",
    ),
    (
        "Content-Length: 99999999999999999999999\r\n\r\n",
        "the Content-Length is more than 64 MB",
    ),
];

/// Of how many bytes a piece has at most.
static WIDTHS: [usize; 5] = [1, 2, 3, 19, 65536];

#[test]
fn messages_come_in_any_pieces(rt: HostRuntime) -> Result<(), Fail> {
    for (bytes, expected) in &ROWS {
        for width in &WIDTHS {
            let input = Pieces::new(bytes.as_bytes(), *width);
            let found = received(rt.alloc(), input)?;
            assert!(rt; found.as_str() == *expected, "{bytes}: {found}");
        }
    }
    Ok(())
}

#[test]
fn headers_end_within_8_kb(rt: HostRuntime) -> Result<(), Fail> {
    let mut bytes = String::from_str(rt.alloc(), "x: ")?;
    for _ in 0..9000 {
        bytes.push('y')?;
    }
    let found = received(rt.alloc(), Pieces::new(bytes.as_bytes(), 65536))?;
    assert!(rt;
        found.as_str() == "the header is longer than 8 KB",
        "{found}"
    );
    bytes.push_str("\r\nContent-Length: 2\r\n\r\n{}")?;
    let found = received(rt.alloc(), Pieces::new(bytes.as_bytes(), 65536))?;
    assert!(rt;
        found.as_str() == "the header is longer than 8 KB",
        "{found}"
    );
    Ok(())
}

#[test]
fn input_that_fails_is_told(rt: HostRuntime) -> Result<(), Fail> {
    let bytes = "Content-Length: 2\r\n\r\n{}Content-";
    let found = received(rt.alloc(), Pieces::new(bytes.as_bytes(), 5).failing(true))?;
    assert!(rt; found.as_str() == "{}\nthe input failed", "{found}");
    Ok(())
}

#[test]
fn what_is_sent_can_be_received(rt: HostRuntime) -> Result<(), Fail> {
    let mut sent = Vec::new(rt.alloc());
    send(rt.alloc(), &mut sent, "{\"a\":\"\u{e9}\"}")?;
    let text = str::from_utf8(sent.as_slice()).unwrap_or("");
    assert!(rt;
        text == "Content-Length: 10\r\n\r\n{\"a\":\"\u{e9}\"}",
        "{text}"
    );
    let found = received(rt.alloc(), Pieces::new(sent.as_slice(), 1))?;
    assert!(rt; found.as_str() == "{\"a\":\"\u{e9}\"}\nend", "{found}");
    Ok(())
}
