// Names of files, and the paths that they are in.
use std::alloc::{AllocError, Global};

/// Whether a name is one of those that a list of files leaves out.
pub(crate) fn is_hidden(name: &[u8]) -> bool {
    name.starts_with(b".")
}

/// Whether a name is that of a WAC file.
pub(crate) fn is_wac(name: &[u8]) -> bool {
    name.ends_with(b".wac")
}

/// The path of a name in a folder. Below `.` it is the name alone.
pub(crate) fn join(alloc: Global, folder: &str, name: &str) -> Result<String, AllocError> {
    if folder == "." || folder == "./" {
        return String::from_str(alloc, name);
    }
    let mut path = String::from_str(alloc, folder)?;
    if !folder.ends_with('/') {
        path.push('/')?;
    }
    path.push_str(name)?;
    Ok(path)
}

/// A path without what leads nowhere: `.` and doubled slashes.
pub(crate) fn plain(alloc: Global, path: &str) -> Result<String, AllocError> {
    let mut plain = String::new(alloc);
    if path.starts_with('/') {
        plain.push('/')?;
    }
    for part in path.split('/') {
        if part.is_empty() || part == "." {
            continue;
        }
        if !plain.is_empty() && !plain.ends_with('/') {
            plain.push('/')?;
        }
        plain.push_str(part)?;
    }
    if plain.is_empty() {
        plain.push('.')?;
    }
    Ok(plain)
}

/// The folder that a path is in, with its slash.
pub(crate) fn folder_of(path: &str) -> &str {
    match path.rfind('/') {
        Some(at) => match path.split_at_checked(at + 1) {
            Some((folder, _)) => folder,
            None => "",
        },
        None => "",
    }
}
