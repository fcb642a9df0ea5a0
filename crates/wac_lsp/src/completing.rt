//! What can stand at a place.
use crate::places::View;
use serde_json::{Value, json};
use std::alloc::{AllocError, Global};
use wac_completion::{Completed, Completion, Completions, completions_at};
use wac_lsp_texts::offset_at;
use wac_names::Kind;
use wac_positions::{ColumnUnit, Lines, Place};

/// The number of keywords in the protocol.
const KEYWORD: u8 = 14;

/// The number of operators, which all other symbols are told as.
const OPERATOR: u8 = 24;

/// The number of what binds a name.
fn number_of(kind: Kind) -> u8 {
    match kind {
        Kind::Method => 2,
        Kind::Function => 3,
        Kind::Field => 5,
        Kind::Import
        | Kind::Let
        | Kind::WorldImport
        | Kind::WorldExport
        | Kind::IncludedItem
        | Kind::Parameter
        | Kind::NamedResult => 6,
        Kind::Resource => 7,
        Kind::Interface => 8,
        Kind::World => 9,
        Kind::Variant | Kind::Flags | Kind::Enum => 13,
        Kind::Case | Kind::Flag => 20,
        Kind::Alias | Kind::Record | Kind::UsedType => 22,
    }
}

/// The number of a keyword or a symbol.
fn token_number(text: &str) -> u8 {
    match text.as_bytes().first() {
        Some(byte) if byte.is_ascii_lowercase() => KEYWORD,
        _ => OPERATOR,
    }
}

/// The number of a completion.
fn kind_of(completion: &Completion) -> u8 {
    match completion.what {
        Completed::Name(name) => number_of(name.kind),
        Completed::Token(_) => token_number(completion.label.as_str()),
    }
}

/// A name that can stand at a place, which others than the text of the document say.
#[derive(Clone, Copy, Debug)]
pub struct Suggestion<'s> {
    /// What is put there.
    pub label: &'s str,
    /// What is shown beside it.
    pub detail: &'s str,
    /// What it is, by the protocol's number of such completions.
    pub kind: u8,
    /// Where what it replaces begins, in bytes, if that isn't the beginning of the word before the place.
    pub start: Option<usize>,
}

/// Whether a text begins with a word, or does without its `%` or its quote.
fn begins_with(text: &str, word: &str) -> bool {
    let bare = text.strip_prefix('%').unwrap_or(text);
    let bare = bare.strip_prefix('"').unwrap_or(bare);
    text.starts_with(word) || bare.starts_with(word)
}

/// The part of a text that completions replace.
#[derive(Clone, Copy)]
struct Replaced<'v, 'a> {
    text: &'a str,
    view: &'v View<'a>,
    start: usize,
    end: usize,
}

/// What is put after a text: a blank comes first after a colon, which would make it the name of a package otherwise,
/// together with the word before.
fn insertion_after(alloc: Global, front: &str, text: &str) -> Result<String, AllocError> {
    if front.ends_with(':') {
        return format!(in alloc; " {text}");
    }
    String::from_str(alloc, text)
}

/// The text between two offsets.
fn text_between(text: &str, start: usize, end: usize) -> &str {
    text.get(start..end).unwrap_or("")
}

impl Replaced<'_, '_> {
    /// The edit that puts a text there, in the place of what begins at an offset. A name of a package is replaced from its
    /// beginning on, so that no colon is before it.
    fn edit(&self, alloc: Global, start: usize, text: &str) -> Result<Value, AllocError> {
        let range = self.view.range(alloc, start, self.end)?;
        let put = insertion_after(alloc, self.text.get(..start).unwrap_or(""), text)?;
        let new = put.as_str();
        json!(in alloc; {"range": range, "newText": new})
    }

    /// A completion.
    fn item(&self, alloc: Global, completion: &Completion) -> Result<Value, AllocError> {
        let label = completion.label.as_str();
        let kind = kind_of(completion);
        let edit = self.edit(alloc, self.start, label)?;
        json!(in alloc; {"label": label, "kind": kind, "textEdit": edit})
    }

    /// A completion that was suggested.
    fn suggested(&self, alloc: Global, suggestion: &Suggestion<'_>) -> Result<Value, AllocError> {
        let label = suggestion.label;
        let detail = suggestion.detail;
        let kind = suggestion.kind;
        let start = suggestion.start.unwrap_or(self.start);
        let edit = self.edit(alloc, start, label)?;
        json!(in alloc; {"label": label, "kind": kind, "detail": detail, "textEdit": edit})
    }

    /// Whether a suggestion is one for the word that is there: a client compares what replaces more than that.
    fn takes(&self, suggestion: &Suggestion<'_>) -> bool {
        let word = text_between(self.text, self.start, self.end);
        suggestion.start.is_some() || begins_with(suggestion.label, word)
    }

    /// Adds the suggestions for the word that is there.
    fn add_suggested(
        &self,
        alloc: Global,
        items: &mut Vec<Value>,
        suggestions: &[Suggestion<'_>],
    ) -> Result<(), AllocError> {
        for suggestion in suggestions {
            if self.takes(suggestion) {
                items.push(self.suggested(alloc, suggestion)?)?;
            }
        }
        Ok(())
    }
}

/// Whether one of some suggestions puts this text.
fn is_suggested(suggestions: &[Suggestion<'_>], text: &str) -> bool {
    suggestions
        .iter()
        .any(|suggestion| suggestion.label == text)
}

/// Suggestions, and then the completions that none of them is.
fn items(
    alloc: Global,
    replaced: &Replaced<'_, '_>,
    found: &Completions,
    suggestions: &[Suggestion<'_>],
) -> Result<Value, AllocError> {
    let mut items = Vec::new(alloc);
    replaced.add_suggested(alloc, &mut items, suggestions)?;
    for completion in &found.all {
        if !is_suggested(suggestions, completion.label.as_str()) {
            items.push(replaced.item(alloc, completion)?)?;
        }
    }
    Ok(Value::Array(items))
}

/// What can stand at a place of a text, each with the edit that replaces the word before the place, or what a suggestion
/// says: suggestions first, of which those that replace the word begin with it.
pub(crate) fn completed(
    alloc: Global,
    text: &str,
    place: Place,
    unit: ColumnUnit,
    suggestions: &[Suggestion<'_>],
) -> Result<Value, AllocError> {
    let lines = Lines::new(alloc, text)?;
    let Some(end) = offset_at(&lines, text.len(), place, unit) else {
        return json!(in alloc; {"isIncomplete": false, "items": []});
    };
    let found = completions_at(alloc, text, end)?;
    let view = View::new(alloc, text, unit)?;
    let replaced = Replaced {
        text,
        view: &view,
        start: found.start,
        end,
    };
    let is_incomplete = !found.is_complete;
    let items = items(alloc, &replaced, &found, suggestions)?;
    json!(in alloc; {"isIncomplete": is_incomplete, "items": items})
}
