//! Notifications of a client.
ghost use Rattle.std.specs.Prelude.{◌≡◌, IfOk, Some, codes, map, option_map, string_bytes};
ghost use Rattle.serde_json.specs.View.{items_view, view};
ghost use Rattle.wac_lsp_messages.specs.Notices.{IsNoticeOf, change_of, changes_in, files_in, folders_in, replaced, said};
ghost use Rattle.wac_lsp_messages.specs.Reading.{each, place_of, range_of, text_in, uri_in, version_in};

use crate::fields::{count, document_text, field, owned_text, uri};
use serde_json::Value;
use std::alloc::{AllocError, Global};
use wac_positions::Place;

/// From one place of a text to another.
#[derive(Clone, Copy, Debug, PartialEq, Eq)]
pub struct Range {
    /// Where it begins. Columns are in units of the encoding that was agreed on.
    pub start: Place,
    /// Where it ends.
    pub end: Place,
}

/// A change of a text.
#[derive(Debug, Drop)]
pub struct Change {
    /// What is replaced: all where there is no range.
    pub range: Option<Range>,
    /// What comes in its place.
    pub text: String,
}

/// What a client tells.
#[derive(Debug, Drop)]
pub enum Notice {
    /// The server's reply to `initialize` came.
    Initialized,
    /// The server is to end.
    Exit,
    /// A document was opened.
    Opened {
        /// Its name, letter for letter.
        uri: String,
        /// The version of its text.
        version: i64,
        /// Its text.
        text: String,
    },
    /// A document was changed.
    Changed {
        /// Its name.
        uri: String,
        /// The version of the text after the changes.
        version: i64,
        /// The changes, each of the text that the one before leaves.
        changes: Vec<Change>,
    },
    /// A document was changed, and how can't be read, so that its text isn't known.
    Lost {
        /// Its name.
        uri: String,
    },
    /// A document was closed.
    Closed {
        /// Its name.
        uri: String,
    },
    /// Files of the client's folders were made, changed or removed.
    FilesChanged {
        /// Their URIs: none where they can't be read, so that it isn't known which.
        uris: Option<Vec<String>>,
    },
    /// The client has other folders open than before.
    FoldersChanged {
        /// The URIs of those that it opened.
        added: Vec<String>,
        /// The URIs of those that it closed.
        removed: Vec<String>,
    },
    /// Something that the server does nothing about, or a notice without what it needs.
    Other,
}

/// The place that a value is.
pub(crate) fn read_place(value: &Value) -> Option<Place>
    ensures { result ≡ place_of (view value.now) }
{
    Some(Place {
        line: count(value, "line")?,
        column: count(value, "character")?,
    })
}

/// The range that a value is.
pub(crate) fn read_range(value: &Value) -> Option<Range>
    ensures { result ≡ range_of (view value.now) }
{
    Some(Range {
        start: read_place(field(value, "start")?)?,
        end: read_place(field(value, "end")?)?,
    })
}

/// The version of a document.
fn read_version(params: &Value) -> Option<i64>
    ensures { result ≡ version_in (view params.now) }
{
    field(field(params, "textDocument")?, "version")?.as_i64()
}

/// What a change replaces, of the range that it has, if that is one. One of `null` is as none.
fn read_replaced(given: Option<&Value>) -> Option<Option<Range>>
    ensures { result ≡ replaced (option_map (λ it. view it.now) given.entry) }
{
    match given {
        Some(Value::Null) | None => Some(None),
        Some(given) => Some(Some(read_range(given)?)),
    }
}

/// The change that a value is. A range that is none makes it none.
fn read_change(alloc: Global, value: &Value) -> Result<Option<Change>, AllocError>
    ensures { IfOk result (λ found. option_map said found ≡ change_of (view value.now)) }
{
    let given = field(value, "range");
    let Some(range) = read_replaced(given) else {
        return Ok(None);
    };
    match owned_text(alloc, value, "text")? {
        Some(text) => Ok(Some(Change { range, text })),
        None => Ok(None),
    }
}

/// The changes that values are, if each is one.
fn read_each_change(alloc: Global, values: &[Value]) -> Result<Option<Vec<Change>>, AllocError>
    ensures { IfOk result (λ found. option_map (λ all. map said all.items) found
        ≡ each change_of (items_view values.now)) }
{
    let mut all = Vec::new(alloc);
    for value in values {
        match read_change(alloc, value)? {
            Some(change) => all.push(change)?,
            None => return Ok(None),
        }
    }
    Ok(Some(all))
}

/// The changes of a notice, if each value is one.
fn read_changes(alloc: Global, params: &Value) -> Result<Option<Vec<Change>>, AllocError>
    ensures { IfOk result (λ found. option_map (λ all. map said all.items) found ≡ changes_in (view params.now)) }
{
    match field(params, "contentChanges") {
        Some(Value::Array(values)) => read_each_change(alloc, values),
        _ => Ok(None),
    }
}

/// That a document was opened.
#[tactic(auto, using(crate::proofs::Telling::opened_no_version, crate::proofs::Telling::opened_no_text, crate::proofs::Telling::opened_no_uri))]
fn read_opened(alloc: Global, params: &Value) -> Result<Notice, AllocError>
    ensures { IfOk result (IsNoticeOf (codes "textDocument/didOpen") (view params.now)) }
{
    let Some(version) = read_version(params) else {
        return Ok(Notice::Other);
    };
    let Some(text) = document_text(alloc, params, "text")? else {
        return Ok(Notice::Other);
    };
    match uri(alloc, params)? {
        Some(uri) => Ok(Notice::Opened { uri, version, text }),
        None => Ok(Notice::Other),
    }
}

/// That a document of this name was changed: lost, where the version or one of the changes is none.
fn read_changes_of(alloc: Global, params: &Value, uri: String) -> Result<Notice, AllocError>
    requires { uri_in (view params.now) ≡ Some (string_bytes uri) }
    ensures { IfOk result (IsNoticeOf (codes "textDocument/didChange") (view params.now)) }
{
    let Some(version) = read_version(params) else {
        return Ok(Notice::Lost { uri });
    };
    match read_changes(alloc, params)? {
        Some(changes) => Ok(Notice::Changed {
            uri,
            version,
            changes,
        }),
        None => Ok(Notice::Lost { uri }),
    }
}

/// That a document was changed.
#[tactic(auto, using(crate::proofs::Telling::changed_no_uri))]
fn read_changed(alloc: Global, params: &Value) -> Result<Notice, AllocError>
    ensures { IfOk result (IsNoticeOf (codes "textDocument/didChange") (view params.now)) }
{
    match uri(alloc, params)? {
        Some(uri) => read_changes_of(alloc, params, uri),
        None => Ok(Notice::Other),
    }
}

/// That a document was closed.
#[tactic(auto, using(crate::proofs::Telling::closed_no_uri))]
fn read_closed(alloc: Global, params: &Value) -> Result<Notice, AllocError>
    ensures { IfOk result (IsNoticeOf (codes "textDocument/didClose") (view params.now)) }
{
    match uri(alloc, params)? {
        Some(uri) => Ok(Notice::Closed { uri }),
        None => Ok(Notice::Other),
    }
}

/// The URIs of folders or files, if each value has one.
fn read_each_uri(alloc: Global, values: &[Value]) -> Result<Option<Vec<String>>, AllocError>
    ensures { IfOk result (λ found. option_map (λ all. map string_bytes all.items) found
        ≡ each (text_in (codes "uri")) (items_view values.now)) }
{
    let mut all = Vec::new(alloc);
    for value in values {
        match owned_text(alloc, value, "uri")? {
            Some(uri) => all.push(uri)?,
            None => return Ok(None),
        }
    }
    Ok(Some(all))
}

/// The URIs of the folders that a field of the event lists, if each value there has one.
fn read_folders(
    alloc: Global,
    params: &Value,
    name: &str,
) -> Result<Option<Vec<String>>, AllocError>
    ensures { IfOk result (λ found. option_map (λ all. map string_bytes all.items) found
        ≡ folders_in name.now (view params.now)) }
{
    let Some(event) = field(params, "event") else {
        return Ok(None);
    };
    match field(event, name) {
        Some(Value::Array(folders)) => read_each_uri(alloc, folders),
        _ => Ok(None),
    }
}

/// That the client has other folders open.
#[tactic(auto, using(crate::proofs::Telling::folders_none_added, crate::proofs::Telling::folders_none_removed))]
fn read_folders_changed(alloc: Global, params: &Value) -> Result<Notice, AllocError>
    ensures { IfOk result (IsNoticeOf (codes "workspace/didChangeWorkspaceFolders") (view params.now)) }
{
    let Some(added) = read_folders(alloc, params, "added")? else {
        return Ok(Notice::Other);
    };
    match read_folders(alloc, params, "removed")? {
        Some(removed) => Ok(Notice::FoldersChanged { added, removed }),
        None => Ok(Notice::Other),
    }
}

/// The URIs of the files that were changed, if each change has one.
fn read_files(alloc: Global, params: &Value) -> Result<Option<Vec<String>>, AllocError>
    ensures { IfOk result (λ found. option_map (λ all. map string_bytes all.items) found ≡ files_in (view params.now)) }
{
    match field(params, "changes") {
        Some(Value::Array(changes)) => read_each_uri(alloc, changes),
        _ => Ok(None),
    }
}

/// That files were changed.
fn read_files_changed(alloc: Global, params: &Value) -> Result<Notice, AllocError>
    ensures { IfOk result (IsNoticeOf (codes "workspace/didChangeWatchedFiles") (view params.now)) }
{
    let uris = read_files(alloc, params)?;
    Ok(Notice::FilesChanged { uris })
}

/// What a notification of this method tells.
pub(crate) fn read_notice(alloc: Global, method: &str, params: &Value) -> Result<Notice, AllocError>
    ensures { IfOk result (IsNoticeOf method.now (view params.now)) }
{
    match method {
        "initialized" => Ok(Notice::Initialized),
        "exit" => Ok(Notice::Exit),
        "textDocument/didOpen" => read_opened(alloc, params),
        "textDocument/didChange" => read_changed(alloc, params),
        "textDocument/didClose" => read_closed(alloc, params),
        "workspace/didChangeWatchedFiles" => read_files_changed(alloc, params),
        "workspace/didChangeWorkspaceFolders" => read_folders_changed(alloc, params),
        _ => Ok(Notice::Other),
    }
}
