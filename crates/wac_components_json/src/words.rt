//! Words of the JSON.
ghost use Rattle.std.specs.Prelude.{◌≡◌, IfOk, string_bytes};
ghost use Rattle.serde_json.specs.Data.{string};
ghost use Rattle.serde_json.specs.Read.{read};

use serde_json::Value;
use std::alloc::{AllocError, Global};
use wac_graph_types::{ExternKind, PrimitiveType};

/// The name of a primitive type, in quotes.
pub(crate) fn primitive_name(primitive: PrimitiveType) -> &'static str {
    match primitive {
        PrimitiveType::U8 => "\"u8\"",
        PrimitiveType::S8 => "\"s8\"",
        PrimitiveType::U16 => "\"u16\"",
        PrimitiveType::S16 => "\"s16\"",
        PrimitiveType::U32 => "\"u32\"",
        PrimitiveType::S32 => "\"s32\"",
        PrimitiveType::U64 => "\"u64\"",
        PrimitiveType::S64 => "\"s64\"",
        PrimitiveType::F32 => "\"f32\"",
        PrimitiveType::F64 => "\"f64\"",
        PrimitiveType::Char => "\"char\"",
        PrimitiveType::Bool => "\"bool\"",
        PrimitiveType::String => "\"string\"",
        PrimitiveType::ErrorContext => "\"error-context\"",
    }
}

/// The word for one side of a world, in quotes.
pub(crate) fn side(kind: ExternKind) -> &'static str {
    match kind {
        ExternKind::Import => "\"import\"",
        ExternKind::Export => "\"export\"",
    }
}

/// A text as a JSON string.
pub(crate) fn quoted(alloc: Global, text: &str) -> Result<String, AllocError>
    ensures { IfOk result (λ s. read (string_bytes s) ≡ Some (string text.now)) }
{
    Value::String(String::from_str(alloc, text)?).to_string(alloc)
}
