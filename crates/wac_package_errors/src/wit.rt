//! What is said of a text that is no document, with helps for those who copy WIT.

use crate::texts::text_at;
use std::alloc::{AllocError, Global};
use wac_ast::Error;
use wac_diagnostics::Diagnostic;
use wac_first_error::parse_diagnostic;
use wac_lexer::SourceSpan;

/// What is said of a text that is no document. The help says where WAC isn't WIT.
pub fn syntax_diagnostic(
    alloc: Global,
    text: &str,
    error: &Error,
) -> Result<Diagnostic, AllocError> {
    let mut diagnostic = parse_diagnostic(alloc, error)?;
    if let (None, Some(span)) = (&diagnostic.help, diagnostic.span) {
        if let Some(help) = help_at(text, span) {
            diagnostic.help = Some(String::from_str(alloc, help)?);
        }
    }
    Ok(diagnostic)
}

/// What of WIT is at a place, and what to write in WAC.
fn help_at(text: &str, span: SourceSpan) -> Option<&'static str> {
    let before = text.get(..span.offset())?.trim_end();
    let rest = text.get(span.offset()..)?;
    if rest.starts_with('@') {
        return Some("WAC has no `@since`, `@unstable` or `@deprecated`: remove it");
    }
    if rest.starts_with('<') && before.ends_with("own") {
        return Some(
            "WAC has no `own`: the name of a resource is the owned type, as `r` for `own<r>`",
        );
    }
    word_help(text_at(text, span), before, rest)
}

/// The same of a word, or of a brace after a package's name.
fn word_help(word: &str, before: &str, rest: &str) -> Option<&'static str> {
    match word {
        "use" if !rest.starts_with("use-") => Some(
            "WAC has no `use` outside interfaces and worlds: name the path where it is needed, as in `use a:b/i.{t};`",
        ),
        "package" => Some("a document has one package: write a document for each"),
        "{" if is_directive(before) => Some(
            "WAC has no nested packages: write a document for each, which begins with `package a:b;`",
        ),
        _ => None,
    }
}

/// Whether a text ends with `package` and a name.
fn is_directive(before: &str) -> bool {
    match before.rsplit_once(' ') {
        Some((start, name)) => start.trim_end().ends_with("package") && name.contains(':'),
        None => false,
    }
}
