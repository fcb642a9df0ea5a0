//! What a client says of its folders when it begins.
use crate::uris::{normal_path, path_of_uri};
use serde_json::Value;
use std::alloc::{AllocError, Global};

/// The field of the parameters of a message.
fn parameter<'v>(message: &'v Value, name: &str) -> Option<&'v Value> {
    message.get("params")?.get(name)
}

/// The URI of a folder.
fn uri_of(folder: &Value) -> Option<&str> {
    folder.get("uri")?.as_str()
}

/// Adds the folder of a path, unless it is the root of all files.
fn push_path(alloc: Global, folders: &mut Vec<String>, path: &str) -> Result<(), AllocError> {
    if path.starts_with('/') {
        let path = normal_path(alloc, path)?;
        if path.as_str() != "/" {
            folders.push(path)?;
        }
    }
    Ok(())
}

/// Adds the folder of a URI, if it is one of this machine.
fn push_uri(alloc: Global, folders: &mut Vec<String>, uri: Option<&str>) -> Result<(), AllocError> {
    let Some(uri) = uri else {
        return Ok(());
    };
    match path_of_uri(alloc, uri)? {
        Some(path) => push_path(alloc, folders, path.as_str()),
        None => Ok(()),
    }
}

/// The paths of the folders of some URIs, as `client_folders` has them: those that are no folders of this machine, and the
/// root of all files, are left out.
pub fn folder_paths(alloc: Global, uris: &[String]) -> Result<Vec<String>, AllocError> {
    let mut folders = Vec::new(alloc);
    for uri in uris {
        push_uri(alloc, &mut folders, Some(uri.as_str()))?;
    }
    Ok(folders)
}

/// The folders of a list.
fn listed(alloc: Global, list: &[Value]) -> Result<Vec<String>, AllocError> {
    let mut folders = Vec::new(alloc);
    for folder in list {
        push_uri(alloc, &mut folders, uri_of(folder))?;
    }
    Ok(folders)
}

/// The folder that older clients have: that of a URI, or else that of a path.
fn single(alloc: Global, message: &Value) -> Result<Vec<String>, AllocError> {
    let mut folders = Vec::new(alloc);
    let uri = parameter(message, "rootUri").and_then(Value::as_str);
    if uri.is_some() {
        push_uri(alloc, &mut folders, uri)?;
        return Ok(folders);
    }
    if let Some(path) = parameter(message, "rootPath").and_then(Value::as_str) {
        push_path(alloc, &mut folders, path)?;
    }
    Ok(folders)
}

/// The folders that the message `initialize` names.
fn named(alloc: Global, message: &Value) -> Result<Vec<String>, AllocError> {
    match parameter(message, "workspaceFolders") {
        Some(Value::Array(list)) => listed(alloc, list.as_slice()),
        _ => single(alloc, message),
    }
}

/// The paths of the folders that a client has open, by the body of its message `initialize`: those of its
/// `workspaceFolders`, or where it sends none that of its `rootUri`, or else its `rootPath`.
///
/// A path begins with a slash and ends with none. The root of all files is left out, as are URIs of other schemes or
/// machines. A body that is no JSON text names none. The error is that memory ran out.
pub fn client_folders(alloc: Global, body: &[u8]) -> Result<Vec<String>, AllocError> {
    match Value::from_slice(alloc, body) {
        Ok(message) => named(alloc, &message),
        Err(error) if error.is_memory() => Err(AllocError),
        Err(_) => Ok(Vec::new(alloc)),
    }
}
