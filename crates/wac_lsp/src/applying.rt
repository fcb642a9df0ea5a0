//! Edits of a document that a client applies.
use crate::questions::Subject;
use serde_json::{Value, json};
use std::alloc::{AllocError, Global};

/// The version of a document as a value: null where it isn't known.
fn version_value(version: Option<i64>) -> Value {
    match version {
        Some(version) => Value::from(version),
        None => Value::Null,
    }
}

/// Edits of a document as those of a client's documents: of this version, if the client takes that.
pub(crate) fn workspace_edit(
    alloc: Global,
    about: &Subject<'_>,
    edits: Value,
) -> Result<Value, AllocError> {
    let uri = about.uri;
    if !about.features.versioned_edits {
        return json!(in alloc; {"changes": {(uri): edits}});
    }
    let version = version_value(about.version);
    let document = json!(in alloc; {"uri": uri, "version": version})?;
    let change = json!(in alloc; {"textDocument": document, "edits": edits})?;
    json!(in alloc; {"documentChanges": [change]})
}
