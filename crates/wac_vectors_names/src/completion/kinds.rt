//! Which kinds of tokens can stand at an offset.
//!
//! The kinds are in the order of `Token`: a keyword or a symbol by its text, and `id`, `str`, `name` and `path` for an
//! identifier, a string, a package name and a package path. Each list is worked out by hand from docs/GRAMMAR.md.

use std::alloc::{AllocError, Global};
use wac_completion::kinds_at;
use wac_lexer::Token;

/// What begins a statement.
pub(crate) const STATEMENT: &str =
    "import type variant record flags enum interface world export let";

/// What begins a type.
pub(crate) const TYPE: &str =
    "id tuple list option result borrow u8 s8 u16 s16 u32 s32 u64 s64 f32 f64 char bool string stream future error-context";

/// What begins an expression.
pub(crate) const EXPRESSION: &str = "id new (";

/// The text of a kind, as rows have it.
fn label(kind: Token) -> &'static str {
    match kind {
        Token::Ident => "id",
        Token::String => "str",
        Token::PackageName => "name",
        Token::PackagePath => "path",
        _ => match kind.name().split_once('`') {
            Some((_, rest)) => match rest.split_once('`') {
                Some((text, _)) => text,
                None => "?",
            },
            None => "?",
        },
    }
}

/// The kinds at an offset.
pub(crate) fn line_at(alloc: Global, text: &str, offset: usize) -> Result<String, AllocError> {
    let mut line = String::new(alloc);
    for kind in &kinds_at(alloc, text, offset)? {
        if !line.is_empty() {
            line.push(' ')?;
        }
        line.push_str(label(*kind))?;
    }
    Ok(line)
}
