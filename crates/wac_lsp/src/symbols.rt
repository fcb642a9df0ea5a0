//! What a document declares, as values of the protocol.
use crate::documents::Document;
use crate::members::put_member;
use crate::pieces::accepted;
use crate::places::View;
use crate::questions::Subject;
use serde_json::{Value, json};
use std::alloc::{AllocError, Global};
use wac_lexer::SourceSpan;
use wac_lsp_outline::{Kind, Symbol, in_one_line, outline};
use wac_positions::ColumnUnit;

/// The number of a kind in the protocol.
fn number_of(kind: Kind) -> u8 {
    match kind {
        Kind::World => 2,
        Kind::Resource => 5,
        Kind::Method => 6,
        Kind::Field => 8,
        Kind::Constructor => 9,
        Kind::Choice => 10,
        Kind::Interface => 11,
        Kind::Function => 12,
        Kind::Binding => 13,
        Kind::Case => 22,
        Kind::Record => 23,
        Kind::Alias => 26,
    }
}

/// The text of a span.
fn text_of(text: &str, span: SourceSpan) -> &str {
    let end = span.offset().saturating_add(span.len());
    text.get(span.offset()..end).unwrap_or("")
}

/// Adds what is said of a symbol, if something is.
fn put_detail(
    alloc: Global,
    value: &mut Value,
    text: &str,
    symbol: &Symbol,
) -> Result<(), AllocError> {
    let detail = in_one_line(alloc, text_of(text, symbol.detail))?;
    if detail.is_empty() {
        return Ok(());
    }
    put_member(alloc, value, "detail", Value::String(detail))
}

/// A symbol with those within it.
fn nested(
    alloc: Global,
    view: &View<'_>,
    text: &str,
    symbol: &Symbol,
    children: Vec<Value>,
) -> Result<Value, AllocError> {
    let name = text_of(text, symbol.name);
    let kind = number_of(symbol.kind);
    let range = view.range(alloc, symbol.start, symbol.end)?;
    let selection = view.span(alloc, symbol.name)?;
    let children = Value::Array(children);
    let mut value = json!(in alloc; {
        "name": name,
        "kind": kind,
        "range": range,
        "selectionRange": selection,
        "children": children
    })?;
    put_detail(alloc, &mut value, text, symbol)?;
    Ok(value)
}

/// A symbol alone.
fn flat(
    alloc: Global,
    view: &View<'_>,
    uri: &str,
    text: &str,
    symbol: &Symbol,
) -> Result<Value, AllocError> {
    let name = text_of(text, symbol.name);
    let kind = number_of(symbol.kind);
    let range = view.range(alloc, symbol.start, symbol.end)?;
    json!(in alloc; {"name": name, "kind": kind, "location": {"uri": uri, "range": range}})
}

/// A symbol that was turned into a value, with how many are around it.
#[derive(Drop)]
struct Made {
    value: Value,
    depth: usize,
}

/// Takes the symbols on top that have so many around them or more.
fn take_deeper(
    alloc: Global,
    made: &mut Vec<Made>,
    depth: usize,
) -> Result<Vec<Value>, AllocError> {
    let mut taken = Vec::new(alloc);
    for _ in 0..made.len() {
        match made.as_slice().last() {
            Some(top) if depth <= top.depth => {}
            _ => return Ok(taken),
        }
        if let Some(Made { value, .. }) = made.pop() {
            taken.push(value)?;
        }
    }
    Ok(taken)
}

/// Symbols, each with those within it. They are gone through from the last to the first: those within one come right
/// after it, and were turned into values before.
fn all_nested(
    alloc: Global,
    view: &View<'_>,
    text: &str,
    all: &[Symbol],
) -> Result<Vec<Value>, AllocError> {
    let mut made = Vec::new(alloc);
    for symbol in all.iter().rev() {
        let depth = symbol.depth;
        let children = take_deeper(alloc, &mut made, depth.saturating_add(1))?;
        let value = nested(alloc, view, text, symbol, children)?;
        made.push(Made { value, depth })?;
    }
    take_deeper(alloc, &mut made, 0)
}

/// Symbols in a list, without those within them.
fn all_flat(
    alloc: Global,
    view: &View<'_>,
    uri: &str,
    text: &str,
    all: &[Symbol],
) -> Result<Vec<Value>, AllocError> {
    let mut values = Vec::new(alloc);
    for symbol in all {
        values.push(flat(alloc, view, uri, text, symbol)?)?;
    }
    Ok(values)
}

/// What a text declares up to its first rejected character: symbols within symbols, for a client that takes these.
pub(crate) fn symbols(alloc: Global, about: &Subject<'_>) -> Result<Value, AllocError> {
    let text = about.text;
    let all = outline(alloc, accepted(text))?;
    let view = View::new(alloc, text, about.unit)?;
    let values = if about.features.nested_symbols {
        all_nested(alloc, &view, text, all.as_slice())?
    } else {
        all_flat(alloc, &view, about.uri, text, all.as_slice())?
    };
    Ok(Value::Array(values))
}

/// A document that isn't open, as its file has it.
#[derive(Drop)]
pub struct SavedText<'t> {
    /// The name by which the client would open it.
    pub uri: String,
    pub text: &'t str,
}

/// The declarations whose names have a text in them.
#[derive(Drop)]
struct Matches<'q> {
    query: &'q str,
    unit: ColumnUnit,
    values: Vec<Value>,
}

impl<'q> Matches<'q> {
    /// Adds those of a document.
    fn add(&mut self, alloc: Global, uri: &str, text: &str) -> Result<(), AllocError> {
        let view = View::new(alloc, text, self.unit)?;
        let all = outline(alloc, accepted(text))?;
        for symbol in all.as_slice() {
            if text_of(text, symbol.name).contains(self.query) {
                self.values.push(flat(alloc, &view, uri, text, symbol)?)?;
            }
        }
        Ok(())
    }

    /// Adds those of open documents whose texts are known.
    fn add_open(&mut self, alloc: Global, documents: &[Document]) -> Result<(), AllocError> {
        for document in documents {
            if !document.is_lost() {
                self.add(alloc, document.uri.as_str(), document.text.as_str())?;
            }
        }
        Ok(())
    }

    /// Adds those of documents that aren't open.
    fn add_saved(&mut self, alloc: Global, documents: &[SavedText<'_>]) -> Result<(), AllocError> {
        for document in documents {
            self.add(alloc, document.uri.as_str(), document.text)?;
        }
        Ok(())
    }
}

/// What open documents declare under names that have a text in them, and after it what those declare that aren't open.
pub(crate) fn workspace_symbols(
    alloc: Global,
    open: &[Document],
    saved: &[SavedText<'_>],
    query: &str,
    unit: ColumnUnit,
) -> Result<Value, AllocError> {
    let mut matches = Matches {
        query,
        unit,
        values: Vec::new(alloc),
    };
    matches.add_open(alloc, open)?;
    matches.add_saved(alloc, saved)?;
    let Matches { values, .. } = matches;
    Ok(Value::Array(values))
}
