//! Names that differ in their versions alone.

use indexmap::IndexMap;
use wac_graph::ItemKind;

/// The second number of a version, from the text after its first dot.
fn minor(rest: &str) -> &str {
    match rest.split_once('.') {
        Some((minor, _)) => minor,
        None => rest,
    }
}

/// Whether what is after the first numbers of two versions is compatible, if these numbers are 0.
fn are_minors_compatible(rest: &str, other_rest: &str) -> bool {
    if minor(rest) == "0" {
        rest == other_rest
    } else {
        minor(rest) == minor(other_rest)
    }
}

/// Whether a version is one before a release, as `1.0.0-rc.1`.
fn is_pre_release(version: &str) -> bool {
    match version.split_once('+') {
        Some((version, _)) => version.contains('-'),
        None => version.contains('-'),
    }
}

/// Whether two versions of releases are compatible: they share the first number, or where it is 0 the second one, or
/// where that is 0 too all of it.
fn are_compatible(a: &str, b: &str) -> bool {
    if is_pre_release(a) || is_pre_release(b) {
        return false;
    }
    match (a.split_once('.'), b.split_once('.')) {
        (Some((major, rest)), Some((other_major, other_rest))) => {
            major == other_major && (major != "0" || are_minors_compatible(rest, other_rest))
        }
        _ => false,
    }
}

/// Whether two names differ in their versions alone.
fn differ_in_version(a: &str, b: &str) -> bool {
    match (a.split_once('@'), b.split_once('@')) {
        (Some((name, version)), Some((other_name, other_version))) => {
            name == other_name && version != other_version
        }
        _ => false,
    }
}

/// Whether two names differ in their versions alone, and these are compatible: tools that match such names would take
/// one for the other.
pub fn are_compatible_names(a: &str, b: &str) -> bool {
    match (a.split_once('@'), b.split_once('@')) {
        (Some((_, version)), Some((_, other_version))) => {
            differ_in_version(a, b) && are_compatible(version, other_version)
        }
        _ => false,
    }
}

/// A name among these that differs from a name in its version alone.
pub fn same_but_version<'i>(items: &'i IndexMap<String, ItemKind>, name: &str) -> Option<&'i str> {
    for (item, _) in items.iter() {
        if differ_in_version(item.as_str(), name) {
            return Some(item.as_str());
        }
    }
    None
}

/// A name among these whose version is another, compatible one.
pub fn compatible_name<'i>(items: &'i IndexMap<String, ItemKind>, name: &str) -> Option<&'i str> {
    for (item, _) in items.iter() {
        if are_compatible_names(item.as_str(), name) {
            return Some(item.as_str());
        }
    }
    None
}
