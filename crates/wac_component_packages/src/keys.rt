// Keys of packages that follow from the paths of their files.
use std::alloc::{AllocError, Global};
use wac_components_words::is_key;
use wac_graph::PackageKey;

/// What the names of components' files end with.
const SUFFIX: &str = ".wasm";

/// Whether a path is that of a component's file, by its name.
pub fn is_component_file(path: &str) -> bool {
    path.ends_with(SUFFIX)
}

/// The part of a file's name before what the names of components' files end with.
pub(crate) fn stem_of(name: &str) -> Option<&str> {
    name.strip_suffix(SUFFIX)
}

/// The key of a package, if the parts make one.
pub(crate) fn key_of(
    alloc: Global,
    namespace: &str,
    name: &str,
    version: Option<&str>,
) -> Result<Option<String>, AllocError> {
    let mut key = format!(in alloc; "{namespace}:{name}")?;
    if let Some(version) = version {
        key.push('@')?;
        key.push_str(version)?;
    }
    Ok(if is_key(key.as_str()) {
        Some(key)
    } else {
        None
    })
}

/// The key that a path ends with: `namespace/name.wasm` or `namespace/name/VERSION.wasm`.
pub(crate) fn key_of_path(alloc: Global, path: &str) -> Result<Option<String>, AllocError> {
    let Some((front, last)) = split_last(path) else {
        return Ok(None);
    };
    let Some(stem) = stem_of(last) else {
        return Ok(None);
    };
    if let Some((front, name)) = split_last(front) {
        let versioned = key_of(alloc, last_of(front), name, Some(stem))?;
        if versioned.is_some() {
            return Ok(versioned);
        }
    }
    key_of(alloc, last_of(front), stem, None)
}

/// What is before the last `/` of a path, and what is after it.
fn split_last(path: &str) -> Option<(&str, &str)> {
    path.rsplit_once('/')
}

/// What is after the last `/` of a path, if it has one; else the path.
pub(crate) fn last_of(path: &str) -> &str {
    match split_last(path) {
        Some((_, last)) => last,
        None => path,
    }
}

/// The name and the version of a key.
pub(crate) fn package_key(alloc: Global, key: &str) -> Result<PackageKey, AllocError> {
    match key.split_once('@') {
        Some((name, version)) => {
            let version = String::from_str(alloc, version)?;
            Ok(PackageKey {
                name: String::from_str(alloc, name)?,
                version: Some(version),
            })
        }
        None => Ok(PackageKey {
            name: String::from_str(alloc, key)?,
            version: None,
        }),
    }
}
