//! Paths of interfaces, and keys of packages.
ghost use Rattle.std.specs.Prelude.{◌≡◌, ◌++◌, ℕ, IfOk, IfSome, IsTrue, List, codes, string_bytes};
ghost use Rattle.wac_components_words.specs.Words.{IsOneToken, versioned};
ghost use Rattle.wac_lexer.specs.declared.token.Token.TheVariants.{PackageName, PackagePath};

use crate::words::is_token;
use std::alloc::{AllocError, Global};
use wac_lexer::Token;

/// The path of an interface, as `wasi:http/types@0.2.0`: what is before the `/`, its name, and its version.
#[derive(Clone, Copy)]
pub struct Path<'t> {
    pub front: &'t str,
    pub name: &'t str,
    pub version: Option<&'t str>,
}

/// What is before the first `@` of a text, and what is after it, if there is one.
fn split_version(text: &str) -> (&str, Option<&str>)
    ensures { text.now ≡ versioned result.0.now result.1 }
{
    match text.split_once('@') {
        Some((front, version)) => (front, Some(version)),
        None => (text, None),
    }
}

/// The parts of a text that is the path of an interface. A `%` is in none.
///
/// ```text
/// path_of("wasi:http/types@0.2.0")    // front "wasi:http", name "types", version Some("0.2.0")
/// path_of("wasi:http")                // None
/// ```
pub fn path_of(text: &str) -> Option<Path<'_>>
    ensures token { IfSome result (λ path. IsOneToken text.now PackagePath) }
    ensures parts { IfSome result (λ path.
        text.now ≡ path.front.now ++ (codes "/" ++ versioned path.name.now path.version)) }
{
    if text.contains('%') || !is_token(text, Token::PackagePath) {
        return None;
    }
    let (front, rest) = text.split_once('/')?;
    let (name, version) = split_version(rest);
    if name.contains('/') {
        return None;
    }
    Some(Path {
        front,
        name,
        version,
    })
}

fn is_same(left: Option<&str>, right: Option<&str>) -> bool
    ensures { IsTrue result → (text : List ℕ) → versioned text left.entry ≡ versioned text right.entry }
{
    match (left, right) {
        (Some(left), Some(right)) => left == right,
        (None, None) => true,
        _ => false,
    }
}

impl<'t> Path<'t> {
    /// Whether it is a path of the package of that key.
    ///
    /// ```text
    /// path.is_of("wasi:http@0.2.0")
    /// ```
    pub fn is_of(self, key: &str) -> bool
        ensures { IsTrue result → key.now ≡ versioned self.entry.front.now self.entry.version }
    {
        let (front, version) = split_version(key);
        self.front == front && is_same(self.version, version)
    }

    /// The key of its package, as `wasi:http@0.2.0`.
    pub fn key(self, alloc: Global) -> Result<String, AllocError>
        ensures { IfOk result (λ key. string_bytes key ≡ versioned self.entry.front.now self.entry.version) }
    {
        let mut key = String::from_str(alloc, self.front)?;
        if let Some(version) = self.version {
            key.push_str("@")?;
            key.push_str(version)?;
        }
        Ok(key)
    }
}

/// Whether a text is the key of a package, as `wasi:http@0.2.0`, without `%`.
pub fn is_key(text: &str) -> bool
    ensures { IsTrue result → IsOneToken text.now PackageName }
{
    !text.contains('%') && is_token(text, Token::PackageName)
}
