//! What a message means for the folders of a client.
use serde_json::{Value, json};
use std::alloc::{AllocError, Global};
use wac_lsp_folders::folder_paths;
use wac_lsp_messages::Notice;

/// What a notification changes of what is known of folders.
#[derive(Drop)]
pub(crate) enum Touched {
    /// Nothing.
    Nothing,
    /// The text of the document of this name.
    Text(String),
    /// That the text of the document of this name is known: it was closed, or a change of it was lost. Its file counts from
    /// then on, and may be another one than before.
    Closed(String),
    /// The client has begun.
    Begun,
    /// Files, by their paths: none where it isn't known which.
    Files(Option<Vec<String>>),
    /// The folders that the client has open, by their paths.
    Folders {
        added: Vec<String>,
        removed: Vec<String>,
    },
}

/// The paths of files, if they are known: a file of another machine is none.
fn paths_of(alloc: Global, uris: &Option<Vec<String>>) -> Result<Option<Vec<String>>, AllocError> {
    match uris {
        Some(uris) => Ok(Some(folder_paths(alloc, uris.as_slice())?)),
        None => Ok(None),
    }
}

/// What a notification changes of what is known of folders.
pub(crate) fn touched_by(alloc: Global, notice: &Notice) -> Result<Touched, AllocError> {
    match notice {
        Notice::Opened { uri, .. } | Notice::Changed { uri, .. } => {
            Ok(Touched::Text(String::from_str(alloc, uri.as_str())?))
        }
        Notice::Closed { uri } | Notice::Lost { uri } => Ok(Touched::Closed(String::from_str(
            alloc,
            uri.as_str(),
        )?)),
        Notice::Initialized => Ok(Touched::Begun),
        Notice::FilesChanged { uris } => Ok(Touched::Files(paths_of(alloc, uris)?)),
        Notice::FoldersChanged { added, removed } => Ok(Touched::Folders {
            added: folder_paths(alloc, added.as_slice())?,
            removed: folder_paths(alloc, removed.as_slice())?,
        }),
        Notice::Exit | Notice::Other => Ok(Touched::Nothing),
    }
}

/// Whether a client takes that it is asked to watch files, by the body of its message `initialize`.
pub(crate) fn watches_files(alloc: Global, body: &[u8]) -> Result<bool, AllocError> {
    match Value::from_slice(alloc, body) {
        Ok(message) => Ok(may_register(&message).unwrap_or(false)),
        Err(error) if error.is_memory() => Err(AllocError),
        Err(_) => Ok(false),
    }
}

/// What a client says of watching files, if it says something.
fn may_register(message: &Value) -> Option<bool> {
    let capabilities = message.get("params")?.get("capabilities")?;
    let watching = capabilities.get("workspace")?.get("didChangeWatchedFiles")?;
    watching.get("dynamicRegistration")?.as_bool()
}

/// The request that asks a client to tell when documents or components change.
pub(crate) fn watch_request(alloc: Global) -> Result<String, AllocError> {
    let watchers = json!(in alloc; [{"globPattern": "**/*.{wac,wasm}"}])?;
    let options = json!(in alloc; {"watchers": watchers})?;
    let registration = json!(in alloc; {
        "id": "files",
        "method": "workspace/didChangeWatchedFiles",
        "registerOptions": options
    })?;
    let message = json!(in alloc; {
        "jsonrpc": "2.0",
        "id": "files",
        "method": "client/registerCapability",
        "params": {"registrations": [registration]}
    })?;
    message.to_string(alloc)
}
