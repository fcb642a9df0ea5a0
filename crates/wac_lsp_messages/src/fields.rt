//! Reading the fields of values.
ghost use Rattle.std.specs.Prelude.{◌≡◌, IfOk, option_map, string_bytes};
ghost use Rattle.serde_json.specs.Find.{get};
ghost use Rattle.serde_json.specs.View.{view};
ghost use Rattle.wac_lsp_messages.specs.Reading.{count_in, document_text_in, flag_in, text_in, uri_in};

use serde_json::Value;
use std::alloc::{AllocError, Global};

/// The field of a value, if it is an object that has it.
pub(crate) fn field<'v>(value: &'v Value, name: &str) -> Option<&'v Value>
    ensures { option_map (λ it. view it.now) result ≡ get name.now (view value.now) }
{
    value.get(name)
}

/// The text of a field.
pub(crate) fn text<'v>(value: &'v Value, name: &str) -> Option<&'v str>
    ensures { option_map (λ it. it.now) result ≡ text_in name.now (view value.now) }
{
    match field(value, name) {
        Some(field) => field.as_str(),
        None => None,
    }
}

/// The text of a field, copied.
pub(crate) fn owned_text(
    alloc: Global,
    value: &Value,
    name: &str,
) -> Result<Option<String>, AllocError>
    ensures { IfOk result (λ found. option_map string_bytes found ≡ text_in name.now (view value.now)) }
{
    match text(value, name) {
        Some(text) => Ok(Some(String::from_str(alloc, text)?)),
        None => Ok(None),
    }
}

/// The number of a field that isn't negative.
pub(crate) fn count(value: &Value, name: &str) -> Option<usize>
    ensures { result ≡ count_in name.now (view value.now) }
{
    let number = field(value, name)?.as_u64()?;
    usize::try_from(number).ok()
}

/// Whether a field is true, if it is true or false.
pub(crate) fn flag(value: &Value, name: &str) -> Option<bool>
    ensures { result ≡ flag_in name.now (view value.now) }
{
    field(value, name)?.as_bool()
}

/// The text of a field of the document that parameters name, copied.
pub(crate) fn document_text(
    alloc: Global,
    params: &Value,
    name: &str,
) -> Result<Option<String>, AllocError>
    ensures { IfOk result (λ found. option_map string_bytes found ≡ document_text_in name.now (view params.now)) }
{
    match field(params, "textDocument") {
        Some(document) => owned_text(alloc, document, name),
        None => Ok(None),
    }
}

/// The URI of the document that parameters name.
pub(crate) fn uri(alloc: Global, params: &Value) -> Result<Option<String>, AllocError>
    ensures { IfOk result (λ found. option_map string_bytes found ≡ uri_in (view params.now)) }
{
    document_text(alloc, params, "uri")
}
