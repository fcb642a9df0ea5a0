//! Paths of files as URIs.
use percent_encoding::{AsciiSet, NON_ALPHANUMERIC, ascii_set, percent_decode, percent_encode};
use std::alloc::{AllocError, Global};

/// The bytes of paths that are escaped in URIs: all but letters, digits, `/` and `-._~`.
const ESCAPED: AsciiSet = ascii_set!(
    NON_ALPHANUMERIC
        .remove(b'/')
        .remove(b'-')
        .remove(b'.')
        .remove(b'_')
        .remove(b'~')
);

/// What URIs of files of this machine begin with, before the path, in letters of any case.
static BEGINNINGS: [&str; 2] = ["file://localhost/", "file:///"];

/// Whether a text begins with another one, whatever the case of their letters.
fn begins_with(text: &str, beginning: &str) -> bool {
    match text.get(..beginning.len()) {
        Some(front) => front.eq_ignore_ascii_case(beginning),
        None => false,
    }
}

/// The path of a URI, with its first slash, escaped: none where the URI isn't that of a file of this machine.
fn escaped_path(uri: &str) -> Option<&str> {
    for beginning in BEGINNINGS.as_slice() {
        if begins_with(uri, beginning) {
            return uri.get(beginning.len().saturating_sub(1)..);
        }
    }
    None
}

/// The names of which a path from the root is made. A name of one dot is left out, and one of two dots takes the name before
/// it away.
fn names_in(alloc: Global, path: &str) -> Result<Vec<&str>, AllocError> {
    let mut names = Vec::new(alloc);
    for name in path.split('/') {
        match name {
            "" | "." => {}
            ".." => {
                let _ = names.pop();
            }
            _ => names.push(name)?,
        }
    }
    Ok(names)
}

/// A path from the root in its one form: no name of dots, no slash after another one, and none at the end.
pub(crate) fn normal_path(alloc: Global, path: &str) -> Result<String, AllocError> {
    let mut normal = String::new(alloc);
    for name in &names_in(alloc, path)? {
        normal.push('/')?;
        normal.push_str(*name)?;
    }
    if normal.is_empty() {
        normal.push('/')?;
    }
    Ok(normal)
}

/// The path of the file that a URI names, as `file:///home/me/a%20b.wac` names `/home/me/a b.wac`: none where it names no
/// file of this machine, or one whose path is no text. All URIs of a path that differ in what is escaped, in the case of the
/// scheme, or in names of dots, name one path.
pub fn path_of_uri(alloc: Global, uri: &str) -> Result<Option<String>, AllocError> {
    let Some(escaped) = escaped_path(uri) else {
        return Ok(None);
    };
    let mut bytes = Vec::new(alloc);
    percent_decode(escaped.as_bytes()).append_to(&mut bytes)?;
    match str::from_utf8(bytes.as_slice()) {
        Ok(path) => Ok(Some(normal_path(alloc, path)?)),
        Err(_) => Ok(None),
    }
}

/// The URI of the file at a path from the root, as `file:///home/me/a%20b.wac` of `/home/me/a b.wac`.
pub fn uri_of_path(alloc: Global, path: &str) -> Result<String, AllocError> {
    let mut uri = String::from_str(alloc, "file://")?;
    percent_encode(path.as_bytes(), ESCAPED).append_to(&mut uri)?;
    Ok(uri)
}
