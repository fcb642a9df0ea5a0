//! Names of imports and exports.
ghost use Rattle.std.specs.Prelude.{◌≡◌};
ghost use Rattle.wac_extern_names.specs.Names as names;

use crate::versions::is_version;
use crate::words::{is_kebab, is_lower_kebab};

fn is_versioned(text: &str) -> bool
    ensures { result ≡ names.is_versioned text.now }
{
    match text.split_once('@') {
        None => is_kebab(text),
        Some((interface, version)) => is_kebab(interface) && is_version(version),
    }
}

fn is_package_path(text: &str) -> bool
    ensures { result ≡ names.is_package_path text.now }
{
    match text.split_once('/') {
        None => false,
        Some((package, interface)) => is_kebab(package) && is_versioned(interface),
    }
}

fn is_member(text: &str) -> bool
    ensures { result ≡ names.is_member text.now }
{
    match text.split_once('.') {
        None => false,
        Some((resource, member)) => is_kebab(resource) && is_kebab(member),
    }
}

fn is_of_resource(mark: &str, text: &str) -> bool
    ensures { result ≡ names.is_of_resource mark.now text.now }
{
    match mark {
        "[constructor" => is_kebab(text),
        "[method" => is_member(text),
        "[static" => is_member(text),
        _ => false,
    }
}

fn is_interface_name(name: &str) -> bool
    ensures { result ≡ names.is_interface_name name.now }
{
    match name.split_once(':') {
        None => false,
        Some((namespace, rest)) => is_lower_kebab(namespace) && is_package_path(rest),
    }
}

fn is_function_of_resource(name: &str) -> bool
    ensures { result ≡ names.is_function_of_resource name.now }
{
    match name.split_once(']') {
        None => false,
        Some((mark, rest)) => is_of_resource(mark, rest),
    }
}

/// Whether an import or export may have a name.
///
/// A name is words joined by single hyphens, each a letter and then letters of its case and digits: `get-url`, `HTTP2`.
/// Or it is that of an interface, `namespace:package/interface`, with `@` and a version of SemVer or without: the
/// namespace is in lower case. Or it is that of a function of a resource: `[constructor]file`, `[method]file.read`,
/// `[static]file.open`. It takes no memory.
///
/// ```
/// assert!(is_extern_name("wasi:http/types@0.2.0"));
/// assert!(!is_extern_name("getUrl"));
/// ```
pub fn is_extern_name(name: &str) -> bool
    ensures { result ≡ names.is_extern_name name.now }
{
    is_kebab(name) || is_interface_name(name) || is_function_of_resource(name)
}
