//! The messages of a client.
ghost use Rattle.std.specs.Prelude.{◌≡◌, IfOk, IsUtf8, None, Some, codes, option_map};
ghost use Rattle.serde_json.specs.Data.{null};
ghost use Rattle.serde_json.specs.Read.{read};
ghost use Rattle.serde_json.specs.View.{view};
ghost use Rattle.wac_lsp_messages.specs.Meaning.{IsMessageIn, IsMessageOf, has_outcome, params_of};
ghost use Rattle.wac_lsp_messages.specs.Reading.{text_in};

use crate::call::{Call, read_call};
use crate::fields::{field, text};
use crate::id::Id;
use crate::notice::{Notice, read_notice};
use crate::refusal::{Code, Refusal};
use crate::surrogates::without_lone_surrogates;
use serde_json::Value;
use std::alloc::{AllocError, Global};

/// A message of a client.
#[derive(Debug, Drop)]
pub enum Message {
    /// A request, which gets exactly one reply with its id: what it asks for, or why it is refused.
    Request {
        /// Its id.
        id: Id,
        /// What it asks for.
        call: Result<Call, Refusal>,
    },
    /// A notification, which gets no reply.
    Notification(Notice),
    /// A reply of the client, which gets none.
    Reply,
    /// No message of the protocol. It gets a reply without an id.
    Wrong(Refusal),
}

/// A body that is no JSON.
const NO_JSON: Refusal = Refusal {
    code: Code::ParseError,
    message: "the body is no JSON text",
};

/// A value that is no message.
const NO_MESSAGE: Refusal = Refusal {
    code: Code::InvalidRequest,
    message: "the body is no message",
};

/// The value that bytes are: `None` where they are no JSON text.
fn value_of(alloc: Global, bytes: &[u8]) -> Result<Option<Value>, AllocError>
    ensures { IfOk result (λ found. IsUtf8 bytes.now → option_map (λ value. view value) found ≡ read bytes.now) }
{
    match Value::from_slice(alloc, bytes) {
        Ok(value) => Ok(Some(value)),
        Err(error) if error.is_memory() => Err(AllocError),
        Err(_) => Ok(None),
    }
}

/// The message that a body is which is no JSON text as it stands: it may be one without its lone surrogates.
fn read_mended(alloc: Global, body: &[u8]) -> Result<Message, AllocError> {
    let body = without_lone_surrogates(alloc, body)?;
    match value_of(alloc, body.as_slice())? {
        Some(value) => message_of(alloc, &value),
        None => Ok(Message::Wrong(NO_JSON)),
    }
}

/// The message that a body is. A lone surrogate in it is read as U+FFFD. The error is that memory ran out.
#[tactic(auto, using(crate::proofs::Found::message_in, crate::proofs::Found::no_json))]
pub fn read_message(alloc: Global, body: &[u8]) -> Result<Message, AllocError>
    // Of a JSON text it is a request with its id, a notification or a reply as its fields say.
    ensures { IfOk result (λ message. IsMessageIn body.now message) }
{
    match value_of(alloc, body)? {
        Some(value) => message_of(alloc, &value),
        None => read_mended(alloc, body),
    }
}

/// The message that a value is.
fn message_of(alloc: Global, value: &Value) -> Result<Message, AllocError>
    ensures { IfOk result (λ message. IsMessageOf (view value.now) message) }
{
    match text(value, "method") {
        Some(method) => sent(alloc, value, method),
        None => without_method(alloc, value),
    }
}

/// Whether a value says what became of a request.
fn is_reply(value: &Value) -> bool
    ensures { result ≡ has_outcome (view value.now) }
{
    field(value, "result").is_some() || field(value, "error").is_some()
}

/// What has no method: a reply, or a request that can't be one, if it has an id.
#[tactic(auto, using(crate::proofs::Found::request_without, crate::proofs::Found::wrong_without_method, crate::proofs::Found::wrong_without_id))]
fn without_method(alloc: Global, value: &Value) -> Result<Message, AllocError>
    requires { text_in (codes "method") (view value.now) ≡ None }
    ensures { IfOk result (λ message. IsMessageOf (view value.now) message) }
{
    if is_reply(value) {
        return Ok(Message::Reply);
    }
    match field(value, "id") {
        Some(id) => match Id::of(alloc, id)? {
            Some(id) => Ok(Message::Request {
                id,
                call: Err(NO_MESSAGE),
            }),
            None => Ok(Message::Wrong(NO_MESSAGE)),
        },
        None => Ok(Message::Wrong(NO_MESSAGE)),
    }
}

/// The parameters of a message: `nothing` where it has none.
fn params_of<'v>(message: &'v Value, nothing: &'v Value) -> &'v Value
    requires { view nothing.now ≡ null }
    ensures { view result.now ≡ params_of (view message.now) }
{
    match field(message, "params") {
        Some(params) => params,
        None => nothing,
    }
}

/// A request or a notification of this method.
#[tactic(auto, using(crate::proofs::Found::request_with, crate::proofs::Found::notification_with, crate::proofs::Found::wrong_with))]
fn sent(alloc: Global, value: &Value, method: &str) -> Result<Message, AllocError>
    requires { text_in (codes "method") (view value.now) ≡ Some method.now }
    ensures { IfOk result (λ message. IsMessageOf (view value.now) message) }
{
    let nothing = Value::Null;
    let params = params_of(value, &nothing);
    match field(value, "id") {
        Some(id) => match Id::of(alloc, id)? {
            Some(id) => Ok(Message::Request {
                id,
                call: read_call(alloc, method, params)?,
            }),
            None => Ok(Message::Wrong(NO_MESSAGE)),
        },
        None => Ok(Message::Notification(read_notice(alloc, method, params)?)),
    }
}
