//! The ids of requests.
use serde_json::Value;
use std::alloc::{AllocError, Global};

/// By which a reply is known as that of a request.
#[derive(Debug, Drop, PartialEq)]
pub enum Id {
    /// A number.
    Number(i64),
    /// A text.
    Text(String),
}

impl Id {
    ghost use Rattle.std.specs.Prelude.{◌≡◌, IfOk, MatchOption};
    ghost use Rattle.serde_json.specs.View.{view};
    ghost use Rattle.wac_lsp_messages.specs.Meaning.{IsIdOf, IsNoId};
    ghost use Rattle.wac_lsp_messages.specs.Replying.{id_data};

    /// The id that a value is, if it is one.
    pub(crate) fn of(alloc: Global, value: &Value) -> Result<Option<Id>, AllocError>
        ensures { IfOk result (λ found. MatchOption found (IsNoId (view value.now)) (IsIdOf (view value.now))) }
    {
        if let Some(number) = value.as_i64() {
            return Ok(Some(Id::Number(number)));
        }
        match value.as_str() {
            Some(text) => match String::from_str(alloc, text) {
                Ok(text) => Ok(Some(Id::Text(text))),
                Err(_) => Err(AllocError),
            },
            None => Ok(None),
        }
    }

    /// The id as a value.
    pub(crate) fn to_value(&self, alloc: Global) -> Result<Value, AllocError>
        ensures { IfOk result (λ value. view value ≡ id_data self.now) }
    {
        match self {
            Id::Number(number) => Ok(Value::from(*number)),
            Id::Text(text) => Value::try_from_str(alloc, text.as_str()),
        }
    }
}
