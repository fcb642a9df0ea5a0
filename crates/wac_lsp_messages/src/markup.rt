//! The format in which a client shows texts.
use serde_json::Value;

/// The format of a text that a client shows.
#[derive(Clone, Copy, Debug, PartialEq, Eq)]
pub enum Markup {
    /// Plain text.
    PlainText,
    /// Markdown.
    Markdown,
}

/// The format of this name, if it is one of the protocol.
fn markup_named(name: &str) -> Option<Markup> {
    match name {
        "plaintext" => Some(Markup::PlainText),
        "markdown" => Some(Markup::Markdown),
        _ => None,
    }
}

/// The format in which a client is told what is said of a name: the first of its formats that the protocol has, and plain
/// text where it names none.
pub(crate) fn hover_markup(capabilities: &Value) -> Markup {
    let Some(Value::Array(formats)) = capabilities.pointer("/textDocument/hover/contentFormat")
    else {
        return Markup::PlainText;
    };
    for format in formats {
        if let Some(found) = format.as_str().and_then(markup_named) {
            return found;
        }
    }
    Markup::PlainText
}
