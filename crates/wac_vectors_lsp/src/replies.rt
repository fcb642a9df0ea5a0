//! Replies and notifications, as texts.

use serde_json::Value;
use std::process::Abort;
use std::test::Fail;
use wac_lsp_messages::{Code, Id, Refusal, notification, refused, reply};

#[test]
fn replies(rt: HostRuntime) -> Result<(), Fail> {
    let alloc = rt.alloc();
    let found = reply(alloc, &Id::Number(3), Value::Null)?;
    assert!(rt;
        found.as_str() == "{\"id\":3,\"jsonrpc\":\"2.0\",\"result\":null}",
        "{found}"
    );
    let id = Id::Text(String::from_str(alloc, "a\"b")?);
    let found = reply(alloc, &id, Value::from(true))?;
    assert!(rt;
        found.as_str() == "{\"id\":\"a\\\"b\",\"jsonrpc\":\"2.0\",\"result\":true}",
        "{found}"
    );
    Ok(())
}

/// Each code, and its number.
static CODES: [(Code, &str); 7] = [
    (Code::ParseError, "-32700"),
    (Code::InvalidRequest, "-32600"),
    (Code::MethodNotFound, "-32601"),
    (Code::InvalidParams, "-32602"),
    (Code::InternalError, "-32603"),
    (Code::NotInitialized, "-32002"),
    (Code::RequestFailed, "-32803"),
];

#[test]
fn refusals(rt: HostRuntime) -> Result<(), Fail> {
    let alloc = rt.alloc();
    for (code, number) in &CODES {
        let why = Refusal {
            code: *code,
            message: "no",
        };
        let found = refused(alloc, None, why)?;
        let expected = format!(in alloc;
            "{{\"error\":{{\"code\":{number},\"message\":\"no\"}},\"id\":null,\"jsonrpc\":\"2.0\"}}"
        )?;
        assert!(rt; found.as_str() == expected.as_str(), "{found}");
    }
    Ok(())
}

#[test]
fn notifications(rt: HostRuntime) -> Result<(), Fail> {
    let found = notification(rt.alloc(), "a/b", Value::Null)?;
    assert!(rt;
        found.as_str() == "{\"jsonrpc\":\"2.0\",\"method\":\"a/b\",\"params\":null}",
        "{found}"
    );
    Ok(())
}
