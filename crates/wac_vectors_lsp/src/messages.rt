//! What a client says of itself that no answer shows. Rows of messages are in .ci/sessions/.

use std::alloc::{AllocError, Global};
use std::process::Abort;
use std::test::Fail;
use wac_lsp_messages::{Call, Initialize, Message, read_message};

/// A body, and the process of the client and its page, in words.
type Row = (&'static str, &'static str);

static ROWS: [Row; 5] = [
    (
        "{\"id\":1,\"method\":\"initialize\",\"params\":{\"processId\":17,\"capabilities\":{}}}",
        "17 -",
    ),
    (
        "{\"id\":1,\"method\":\"initialize\",\"params\":{\"processId\":null,\"capabilities\":{},\"initializationOptions\":{\"errorsPage\":\"https://e.org/e\"}}}",
        "- https://e.org/e",
    ),
    (
        "{\"id\":1,\"method\":\"initialize\",\"params\":{\"capabilities\":{},\"initializationOptions\":{\"errorsPage\":7}}}",
        "- -",
    ),
    (
        "{\"id\":1,\"method\":\"initialize\",\"params\":{\"capabilities\":{},\"initializationOptions\":{\"errorsPage\":\"\"}}}",
        "- -",
    ),
    ("{\"id\":1,\"method\":\"initialize\"}", "?"),
];

/// What a client says of itself, in words.
fn client_words(alloc: Global, found: &Initialize) -> Result<String, AllocError> {
    let page = match &found.errors_page {
        Some(page) => page.as_str(),
        None => "-",
    };
    match found.process_id {
        Some(process) => format!(in alloc; "{process} {page}"),
        None => format!(in alloc; "- {page}"),
    }
}

/// What a message says of a client, in words.
fn words(alloc: Global, message: &Message) -> Result<String, AllocError> {
    match message {
        Message::Request {
            call: Ok(Call::Initialize(Some(found))),
            ..
        } => client_words(alloc, found),
        _ => String::from_str(alloc, "?"),
    }
}

#[test]
fn clients_say_their_process_and_page(rt: HostRuntime) -> Result<(), Fail> {
    for (body, expected) in &ROWS {
        let message = read_message(rt.alloc(), body.as_bytes())?;
        let found = words(rt.alloc(), &message)?;
        assert!(rt; found.as_str() == *expected, "{body}: {found}");
    }
    Ok(())
}
