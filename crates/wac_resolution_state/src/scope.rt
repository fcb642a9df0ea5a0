//! What is lent to all that resolves a part of a document.

use crate::Context;
use crate::root::Root;
use wac_graph::Rules;

/// What resolving is given besides a document: the packages it may use, and the rules of types and names.
#[derive(Clone, Copy)]
pub struct Given<'s, R: Rules> {
    /// The document's own package, and the packages that were supplied.
    pub context: &'s Context<'s>,
    /// The rules of types and names.
    pub rules: &'s R,
}

/// What an expression is resolved in: what resolving is given, and the names at root.
#[derive(Clone, Copy)]
pub struct Scope<'s, 'a, R: Rules> {
    /// The document's own package, and the packages that were supplied.
    pub context: &'s Context<'s>,
    /// The rules of types and names.
    pub rules: &'s R,
    /// The names that are bound at root.
    pub root: &'s Root<'a>,
}
