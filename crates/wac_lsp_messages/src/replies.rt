//! The messages of the server.
//!
//! An object's members are sorted, whatever the order in which they are given. So an owned value is given first, and no
//! way out after it has to drop it, which each would have to be proved to do.
ghost use Rattle.std.specs.Prelude.{◌≡◌, Some, None, IfOk, codes, option_map, string_bytes};
ghost use Rattle.serde_json.specs.Find.{get};
ghost use Rattle.serde_json.specs.View.{view};
ghost use Rattle.wac_lsp_messages.specs.Replying.{HasCode, IsRefusal, IsReplyTo, IsResult, id_data, reply_id};

use crate::id::Id;
use crate::refusal::Refusal;
use serde_json::{Value, json};
use std::alloc::{AllocError, Global};

/// The id of a reply: `null` where the request's isn't known.
fn id_value(alloc: Global, id: Option<&Id>) -> Result<Value, AllocError>
    ensures { IfOk result (λ value. view value ≡ reply_id (option_map (λ it. it.now) id.entry)) }
{
    match id {
        Some(id) => id.to_value(alloc),
        None => Ok(Value::Null),
    }
}

/// The reply to a request, as a value.
fn reply_value(alloc: Global, id: &Id, value: Value) -> Result<Value, AllocError>
    ensures id { IfOk result (λ message. get (codes "id") (view message) ≡ Some (id_data id.now)) }
    ensures has { IfOk result (λ message. get (codes "result") (view message) ≡ Some (view value)) }
    ensures no_error { IfOk result (λ message. get (codes "error") (view message) ≡ None) }
{
    json!(in alloc; {"result": value, "id": id.to_value(alloc)?, "jsonrpc": "2.0"})
}

/// The reply to a request, with what it asked for.
pub fn reply(alloc: Global, id: &Id, value: Value) -> Result<String, AllocError>
    ensures id { IfOk result (λ text. IsReplyTo (Some id.now) (string_bytes text)) }
    ensures result { IfOk result (λ text. IsResult (view value) (string_bytes text)) }
{
    let message = reply_value(alloc, id, value)?;
    message.to_string(alloc)
}

/// Why a request is refused, as a value.
fn error_value(alloc: Global, refusal: Refusal) -> Result<Value, AllocError>
    ensures { IfOk result (λ error. HasCode refusal.code (view error)) }
{
    let code = refusal.code.number();
    let text = refusal.message;
    json!(in alloc; {"code": code, "message": text})
}

/// The reply to a request that is refused with this error, as a value.
fn refused_value(alloc: Global, id: Option<&Id>, error: Value) -> Result<Value, AllocError>
    ensures id { IfOk result (λ message.
        get (codes "id") (view message) ≡ Some (reply_id (option_map (λ it. it.now) id.entry))) }
    ensures has { IfOk result (λ message. get (codes "error") (view message) ≡ Some (view error)) }
    ensures no_result { IfOk result (λ message. get (codes "result") (view message) ≡ None) }
{
    json!(in alloc; {"error": error, "id": id_value(alloc, id)?, "jsonrpc": "2.0"})
}

/// The reply to a request that is refused, or to what is no message.
pub fn refused(alloc: Global, id: Option<&Id>, refusal: Refusal) -> Result<String, AllocError>
    ensures id { IfOk result (λ text. IsReplyTo (option_map (λ it. it.now) id.entry) (string_bytes text)) }
    ensures error { IfOk result (λ text. IsRefusal refusal.code (string_bytes text)) }
{
    let error = error_value(alloc, refusal)?;
    let message = refused_value(alloc, id, error)?;
    message.to_string(alloc)
}

/// A notification of the server.
pub fn notification(alloc: Global, method: &str, params: Value) -> Result<String, AllocError> {
    json!(in alloc; {"params": params, "method": method, "jsonrpc": "2.0"})?.to_string(alloc)
}
