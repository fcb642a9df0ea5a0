//! What is said of a name, as a client shows it.
use crate::documents::Document;
use crate::navigation::offset_of;
use crate::places::View;
use crate::questions::Subject;
use crate::server::Server;
use serde_json::{Value, json};
use std::alloc::{AllocError, Global};
use wac_lexer::SourceSpan;
use wac_lsp_messages::Markup;
use wac_lsp_names::{Hover, declared_hover, hover_at};
use wac_positions::Place;

/// The longest row of backticks in a text.
fn longest_row(text: &str) -> usize {
    let mut longest: usize = 0;
    let mut row: usize = 0;
    for byte in text.as_bytes() {
        row = if *byte == b'`' {
            row.saturating_add(1)
        } else {
            0
        };
        longest = longest.max(row);
    }
    longest
}

/// What begins and ends a block of code: more backticks than a text has in a row, and at least three.
fn fence(alloc: Global, text: &str) -> Result<String, AllocError> {
    let count = longest_row(text).saturating_add(1).max(3);
    let mut fence = String::new(alloc);
    for _ in 0..count {
        fence.push('`')?;
    }
    Ok(fence)
}

/// A declaration as a block of code, which no text of it ends.
fn block(alloc: Global, lines: &str) -> Result<String, AllocError> {
    let fence = fence(alloc, lines)?;
    let mut block = String::from_str(alloc, fence.as_str())?;
    block.push_str("wac\n")?;
    block.push_str(lines)?;
    block.push('\n')?;
    block.push_str(fence.as_str())?;
    Ok(block)
}

/// What is said, in a format: the declaration, and after an empty line its documentation.
fn said(alloc: Global, hover: &Hover, markup: Markup) -> Result<String, AllocError> {
    let lines = hover.declaration.as_str();
    let mut said = match markup {
        Markup::PlainText => String::from_str(alloc, lines)?,
        Markup::Markdown => block(alloc, lines)?,
    };
    if !hover.docs.is_empty() {
        said.push_str("\n\n")?;
        said.push_str(hover.docs.as_str())?;
    }
    Ok(said)
}

/// The protocol's name of a format.
fn name_of(markup: Markup) -> &'static str {
    match markup {
        Markup::PlainText => "plaintext",
        Markup::Markdown => "markdown",
    }
}

/// What is said of a name of a document, as a value.
fn hover_value(alloc: Global, about: &Subject<'_>, hover: &Hover) -> Result<Value, AllocError> {
    let view = View::new(alloc, about.text, about.unit)?;
    let range = view.span(alloc, hover.at)?;
    let kind = name_of(about.features.hover_markup);
    let said = said(alloc, hover, about.features.hover_markup)?;
    let text = said.as_str();
    json!(in alloc; {"contents": {"kind": kind, "value": text}, "range": range})
}

/// What is said of the name at a place: null where there is none.
pub(crate) fn hovered(
    alloc: Global,
    about: &Subject<'_>,
    place: Place,
) -> Result<Value, AllocError> {
    let offset = offset_of(alloc, about, place)?;
    match hover_at(alloc, about.text, offset)? {
        Some(hover) => hover_value(alloc, about, &hover),
        None => Ok(Value::Null),
    }
}

impl Server {
    /// The answer to the question what is said of a name of an open document, which another text declares in a span: none
    /// where that says nothing.
    pub fn declared_hover(
        &self,
        alloc: Global,
        document: &Document,
        at: SourceSpan,
        declared: (&str, SourceSpan),
    ) -> Result<Option<Value>, AllocError> {
        let (text, span) = declared;
        match declared_hover(alloc, text, span, at)? {
            Some(hover) => {
                let about = self.about(document);
                Ok(Some(hover_value(alloc, &about, &hover)?))
            }
            None => Ok(None),
        }
    }
}
