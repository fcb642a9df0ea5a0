//! How names are written in WAC, the parts of paths, and keys of packages.

use std::alloc::{AllocError, Global};
use std::test::Fail;
use wac_components_words::{Path, identifier, is_key, path_of};

/// Names, and how each is written, if it is an identifier.
static IDENTIFIERS: [(&str, Option<&str>); 6] = [
    ("get-value", Some("get-value")),
    ("use", Some("%use")),
    ("%use", None),
    ("a.b", None),
    ("2nd", None),
    ("", None),
];

/// How a name is written; asked once more where memory runs out.
fn identifier_again(alloc: Global, name: &str) -> Result<Option<String>, AllocError> {
    match identifier(alloc, name) {
        Err(_) => identifier(alloc, name),
        answer => answer,
    }
}

fn is_text(found: &Option<String>, wanted: Option<&str>) -> bool {
    match (found, wanted) {
        (Some(found), Some(wanted)) => found.as_str() == wanted,
        (None, None) => true,
        _ => false,
    }
}

fn are_written(alloc: Global) -> Result<bool, AllocError> {
    for (name, wanted) in IDENTIFIERS.iter() {
        let found = identifier_again(alloc, name)?;
        if !is_text(&found, *wanted) {
            return Ok(false);
        }
    }
    Ok(true)
}

#[test]
fn names_are_written_as_identifiers(rt: HostRuntime) -> Result<(), Fail> {
    let written = are_written(rt.alloc())?;
    assert!(rt; written);
    Ok(())
}

/// Whether a text is a path with these parts.
fn has_parts(text: &str, front: &str, name: &str, version: &str) -> bool {
    match path_of(text) {
        Some(path) => {
            path.front == front && path.name == name && path.version.unwrap_or("") == version
        }
        None => false,
    }
}

#[test]
fn paths_have_their_parts(rt: HostRuntime) -> Result<(), Fail> {
    assert!(rt; has_parts("wasi:http/types@0.2.0", "wasi:http", "types", "0.2.0"));
    assert!(rt; has_parts("a:b/c", "a:b", "c", ""));
    assert!(rt; path_of("a:b").is_none());
    assert!(rt; path_of("a:b/c/d").is_none());
    assert!(rt; path_of("a:%b/c").is_none());
    Ok(())
}

#[test]
fn keys_are_names_of_packages(rt: HostRuntime) -> Result<(), Fail> {
    assert!(rt; is_key("wasi:http@0.2.0"));
    assert!(rt; !is_key("a:b/c"));
    assert!(rt; !is_key("http"));
    Ok(())
}

/// Paths, keys of packages, and whether the path is one of that package.
static PACKAGES: [(&str, &str, bool); 6] = [
    ("wasi:http/types@0.2.0", "wasi:http@0.2.0", true),
    ("wasi:http/types@0.2.0", "wasi:http@0.2.1", false),
    ("wasi:http/types@0.2.0", "wasi:http", false),
    ("a:b/c", "a:b", true),
    ("a:b/c", "a:c", false),
    ("a:b/c", "a:b@0.2.0", false),
];

fn are_of_their_packages() -> bool {
    for (text, key, wanted) in PACKAGES.iter() {
        match path_of(text) {
            Some(path) if path.is_of(key) == *wanted => (),
            _ => return false,
        }
    }
    true
}

/// The key of a path's package; asked once more where memory runs out.
fn key_again(alloc: Global, path: Path<'_>) -> Result<String, AllocError> {
    match path.key(alloc) {
        Err(_) => path.key(alloc),
        answer => answer,
    }
}

fn has_key(alloc: Global, text: &str, key: &str) -> Result<bool, AllocError> {
    match path_of(text) {
        Some(path) => Ok(key_again(alloc, path)?.as_str() == key),
        None => Ok(false),
    }
}

#[test]
fn paths_are_of_their_packages(rt: HostRuntime) -> Result<(), Fail> {
    assert!(rt; are_of_their_packages());
    let versioned = has_key(rt.alloc(), "wasi:http/types@0.2.0", "wasi:http@0.2.0")?;
    assert!(rt; versioned);
    let plain = has_key(rt.alloc(), "a:b/c", "a:b")?;
    assert!(rt; plain);
    Ok(())
}
