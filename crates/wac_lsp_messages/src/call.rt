//! Requests of a client.
ghost use Rattle.std.specs.Prelude.{◌≡◌, IfOk, codes, is_some};
ghost use Rattle.serde_json.specs.View.{view};
ghost use Rattle.wac_lsp_messages.specs.Calls.{IsCallOf, IsDocumentRead, has_capabilities};

use crate::features::{Features, read_features};
use crate::fields::{field, owned_text, text, uri};
use crate::question::{INVALID_PARAMS, Question, read_question};
use crate::refusal::Refusal;
use serde_json::Value;
use std::alloc::{AllocError, Global};

/// What a client says of itself.
#[derive(Debug, Drop)]
pub struct Initialize {
    /// The process that the server ends with, where there is one.
    pub process_id: Option<i64>,
    /// Whether columns are counted in bytes: where the client offers UTF-8 before UTF-16.
    pub counts_bytes: bool,
    /// What the client takes of answers.
    pub features: Features,
    /// The URI of the page that explains the codes of errors, if the client's options name one as `errorsPage`.
    pub errors_page: Option<String>,
}

/// What a client asks for.
#[derive(Debug, Drop)]
pub enum Call {
    /// To begin, with what the client says of itself: `None` where the parameters lack its capabilities.
    Initialize(Option<Initialize>),
    /// To prepare for the end.
    Shutdown,
    /// Something of a document.
    Document {
        /// Its name.
        uri: String,
        /// What.
        question: Question,
    },
    /// What open documents declare under names that have a text in them.
    WorkspaceSymbols {
        /// The text.
        query: String,
    },
}

/// What reading the parameters of a request gives: it, or why not.
pub(crate) type CallResult = Result<Call, Refusal>;

/// Whether columns are to be counted in bytes, by the encodings that a client has in order of preference.
fn counts_bytes(capabilities: &Value) -> bool {
    let Some(general) = field(capabilities, "general") else {
        return false;
    };
    let Some(Value::Array(encodings)) = field(general, "positionEncodings") else {
        return false;
    };
    for encoding in encodings {
        match encoding.as_str() {
            Some("utf-8") => return true,
            Some("utf-16") => return false,
            _ => {}
        }
    }
    false
}

/// The page that a client's options name, if they name one. An empty text names none.
fn page_in(options: &Value) -> Option<&str> {
    let page = text(options, "errorsPage")?;
    if page.is_empty() { None } else { Some(page) }
}

/// The page that explains the codes of errors, if the client's options name one.
fn errors_page(alloc: Global, params: &Value) -> Result<Option<String>, AllocError> {
    match field(params, "initializationOptions").and_then(page_in) {
        Some(page) => Ok(Some(String::from_str(alloc, page)?)),
        None => Ok(None),
    }
}

/// The capabilities of a client, if they are an object.
fn capabilities_in(params: &Value) -> Option<&Value>
    ensures { is_some result ≡ has_capabilities (view params.now) }
{
    let capabilities = field(params, "capabilities")?;
    if capabilities.is_object() {
        Some(capabilities)
    } else {
        None
    }
}

/// What a client says of itself, if the parameters have its capabilities.
fn read_initialize(alloc: Global, params: &Value) -> Result<Option<Initialize>, AllocError>
    ensures { IfOk result (λ said. is_some said ≡ has_capabilities (view params.now)) }
{
    let Some(capabilities) = capabilities_in(params) else {
        return Ok(None);
    };
    Ok(Some(Initialize {
        process_id: field(params, "processId").and_then(Value::as_i64),
        counts_bytes: counts_bytes(capabilities),
        features: read_features(capabilities),
        errors_page: errors_page(alloc, params)?,
    }))
}

/// What open documents declare.
#[tactic(auto, using(crate::proofs::Refusing::symbols_of_nothing))]
fn read_workspace_symbols(alloc: Global, params: &Value) -> Result<CallResult, AllocError>
    ensures { IfOk result (IsCallOf (codes "workspace/symbol") (view params.now)) }
{
    match owned_text(alloc, params, "query")? {
        Some(query) => Ok(Ok(Call::WorkspaceSymbols { query })),
        None => Ok(Err(INVALID_PARAMS)),
    }
}

/// Something of a document.
fn read_about(alloc: Global, method: &str, params: &Value) -> Result<CallResult, AllocError>
    ensures { IfOk result (IsDocumentRead method.now (view params.now)) }
{
    let question = match read_question(alloc, method, params)? {
        Ok(question) => question,
        Err(why) => return Ok(Err(why)),
    };
    match uri(alloc, params)? {
        Some(uri) => Ok(Ok(Call::Document { uri, question })),
        None => Ok(Err(INVALID_PARAMS)),
    }
}

/// What a request of this method asks for.
pub(crate) fn read_call(
    alloc: Global,
    method: &str,
    params: &Value,
) -> Result<CallResult, AllocError>
    ensures { IfOk result (IsCallOf method.now (view params.now)) }
{
    match method {
        "initialize" => Ok(Ok(Call::Initialize(read_initialize(alloc, params)?))),
        "shutdown" => Ok(Ok(Call::Shutdown)),
        "workspace/symbol" => read_workspace_symbols(alloc, params),
        _ => read_about(alloc, method, params),
    }
}
