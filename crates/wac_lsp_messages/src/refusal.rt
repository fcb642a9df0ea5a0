//! Why a request is refused.
ghost use Rattle.std.specs.Prelude.{◌≡◌};
ghost use Rattle.wac_lsp_messages.specs.Replying.{number_of};

/// The code of a refusal.
#[derive(Clone, Copy, Debug, PartialEq, Eq)]
pub enum Code {
    /// The body of a message is no JSON.
    ParseError,
    /// A message is none that may be sent, or not then.
    InvalidRequest,
    /// There is no such method.
    MethodNotFound,
    /// The parameters lack something, or have another type.
    InvalidParams,
    /// Something went wrong in the server.
    InternalError,
    /// The server wasn't initialized.
    NotInitialized,
    /// The request is right, and can't be done.
    RequestFailed,
}

impl Code {
    /// The number that stands for it.
    pub fn number(self) -> i64
        ensures { result ≡ number_of self }
    {
        match self {
            Code::ParseError => -32700,
            Code::InvalidRequest => -32600,
            Code::MethodNotFound => -32601,
            Code::InvalidParams => -32602,
            Code::InternalError => -32603,
            Code::NotInitialized => -32002,
            Code::RequestFailed => -32803,
        }
    }
}

/// Why a request is refused: a code, and a text for people.
#[derive(Clone, Copy, Debug)]
pub struct Refusal {
    /// The code.
    pub code: Code,
    /// The text.
    pub message: &'static str,
}
