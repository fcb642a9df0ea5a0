//! Names that are used above their declarations.

use crate::texts::text_after;
use wac_lexer::SourceSpan;

/// Whether a text ends with a keyword after which a declared name comes.
fn is_declaration(before: &str) -> bool {
    before.ends_with("interface ")
        || before.ends_with("world ")
        || before.ends_with("resource ")
        || before.ends_with("record ")
        || before.ends_with("variant ")
        || before.ends_with("enum ")
        || before.ends_with("flags ")
        || before.ends_with("type ")
}

/// Whether a text may go on after a declared name.
fn is_after_name(text: &str) -> bool {
    text.starts_with(' ') || text.starts_with(';') || text.starts_with('=') || text.starts_with('{')
}

/// Whether a text declares a name.
fn declares(text: &str, name: &str) -> bool {
    for (at, _) in text.match_indices(name) {
        let before = text.get(..at).unwrap_or("");
        let after = text.get(at.saturating_add(name.len())..).unwrap_or("");
        if is_declaration(before) && is_after_name(after) {
            return true;
        }
    }
    false
}

/// That a name at a place is declared further down, if it is.
pub(crate) fn order_help(text: &str, name: &str, place: SourceSpan) -> Option<&'static str> {
    if declares(text_after(text, place), name) {
        Some("it is declared further down: WAC knows a name only below its declaration, unlike WIT")
    } else {
        None
    }
}
