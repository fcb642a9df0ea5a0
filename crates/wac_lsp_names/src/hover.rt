//! What is said of a name.
ghost use Rattle.std.specs.Prelude.{◌≡◌, IfOk, IfSome, Some};
ghost use Rattle.wac_lsp_names.specs.Occurrences.{IsNameAt};
ghost use Rattle.wac_lsp_names.specs.Read.{IsRead, read_of};
ghost use Rattle.wac_lsp_names.specs.Said.{IsSaidAt};

use crate::declarations::{Declaration, declaration_of};
use crate::occurrences::{Occurrences, inner, occurrences_in};
use crate::reading::{Reading, read};
use std::alloc::{AllocError, Global};
use wac_lexer::{Lexer, SourceSpan};
use wac_names::name_in;

/// What is said of a name.
#[derive(Drop)]
pub struct Hover {
    /// Where the name is at the offset.
    pub at: SourceSpan,
    /// The lines that declare it, as far to the left as their first, with `\n` between them.
    pub declaration: String,
    /// Its documentation, with `\n` between its lines: empty where it has none.
    pub docs: String,
}

/// How many lines of a declaration are shown.
const MOST_LINES: usize = 24;

/// How many blanks and tabs a line begins with.
fn indent_of(line: &str) -> usize {
    line.as_bytes()
        .iter()
        .take_while(|byte| **byte == b' ' || **byte == b'\t')
        .count()
}

/// What the line has before an offset.
fn line_before(text: &str, offset: usize) -> &str {
    let before = text.get(..offset).unwrap_or("");
    match before.rsplit_once('\n') {
        Some((_, line)) => line,
        None => before,
    }
}

/// A line without so many blanks at its beginning, and without those at its end.
fn outdented(line: &str, indent: usize) -> &str {
    let cut = indent_of(line).min(indent);
    line.get(cut..).unwrap_or(line).trim_end()
}

/// Adds a line after others.
fn push_line(found: &mut String, line: &str) -> Result<(), AllocError> {
    if !found.is_empty() {
        found.push('\n')?;
    }
    found.push_str(line)
}

/// Adds the lines of a declaration, as far to the left as its first.
fn push_lines(found: &mut String, lines: &str, indent: usize) -> Result<(), AllocError> {
    for (number, line) in lines.split('\n').enumerate() {
        if number == MOST_LINES {
            return push_line(found, "// ...");
        }
        push_line(found, outdented(line, indent))?;
    }
    Ok(())
}

/// The lines of a declaration.
fn lines_of(alloc: Global, reading: &Reading, span: SourceSpan) -> Result<String, AllocError> {
    let lines = reading.slice(span).trim_end();
    let indent = indent_of(line_before(reading.text.as_str(), span.offset()));
    let mut found = String::new(alloc);
    push_lines(&mut found, lines, indent)?;
    Ok(found)
}

/// A lexer of a text after so many of its items.
fn lexer_after(text: &str, count: usize) -> Option<Lexer<'_>> {
    let Ok(mut lexer) = Lexer::new(text) else {
        return None;
    };
    for _ in 0..count {
        let _ = lexer.next();
    }
    Some(lexer)
}

/// Adds the lines of documentation.
fn push_docs(found: &mut String, docs: &str) -> Result<(), AllocError> {
    for line in docs.split('\n') {
        push_line(found, line.trim())?;
    }
    Ok(())
}

/// The documentation before the token of a number.
pub(crate) fn docs_before(alloc: Global, text: &str, token: usize) -> Result<String, AllocError> {
    let mut found = String::new(alloc);
    let Some(lexer) = lexer_after(text, token) else {
        return Ok(found);
    };
    let docs = lexer.comments(alloc)?;
    for (text, _) in &docs {
        push_docs(&mut found, text)?;
    }
    Ok(found)
}

/// What is said of a name at a place, which a part of the text declares.
fn said(
    alloc: Global,
    reading: &Reading,
    declared: Declaration,
    at: SourceSpan,
) -> Result<Hover, AllocError>
    ensures { IfOk result (λ hover. hover.at ≡ at) }
{
    let Declaration { first, span } = declared;
    let declaration = lines_of(alloc, reading, span)?;
    let docs = docs_before(alloc, reading.text.as_str(), first)?;
    Ok(Hover {
        at,
        declaration,
        docs,
    })
}

/// What is said of a name at a place, where no part of the text is known to declare it: the name itself.
fn named(alloc: Global, source: &str, at: SourceSpan) -> Result<Hover, AllocError>
    ensures { IfOk result (λ hover. hover.at ≡ at) }
{
    let declaration = String::from_str(alloc, name_in(source, at).unwrap_or(""))?;
    Ok(Hover {
        at,
        declaration,
        docs: String::new(alloc),
    })
}

/// The part of what was read that declares the name at an offset of the source.
fn declared_at(reading: &Reading, offset: usize) -> Option<Declaration> {
    let number = reading.names.binding_at(inner(reading, offset))?;
    declaration_of(reading, number)
}

/// What is said of a name that is found at an offset.
fn hover_of(
    alloc: Global,
    reading: &Reading,
    source: &str,
    found: &Occurrences,
    offset: usize,
) -> Result<Hover, AllocError>
    ensures { IfOk result (λ hover. hover.at ≡ found.now.at) }
{
    match declared_at(reading, offset) {
        Some(declared) => said(alloc, reading, declared, found.at),
        None => named(alloc, source, found.at),
    }
}

/// What is said of a name at an offset of a source, by what was read of it.
#[tactic(auto, using(crate::proofs::Finding::nothing_said))]
fn hover_in(
    alloc: Global,
    reading: &Reading,
    source: &str,
    offset: usize,
) -> Result<Option<Hover>, AllocError>
    requires { IsRead source.now (Some (read_of reading.now)) }
    ensures name { IfOk result (λ hover. IfSome hover (λ h. IsNameAt source.now offset h.at)) }
    ensures said { IfOk result (λ hover. IsSaidAt source.now offset hover) }
{
    match occurrences_in(alloc, reading, source, offset)? {
        Some(found) => Ok(Some(hover_of(alloc, reading, source, &found, offset)?)),
        None => Ok(None),
    }
}

/// What is said of the name at an offset: the lines that declare it, and its documentation. At most 24 lines are shown. The
/// error is that memory ran out.
#[tactic(auto, using(crate::proofs::Finding::nothing_read))]
pub fn hover_at(alloc: Global, source: &str, offset: usize) -> Result<Option<Hover>, AllocError>
    // It is said of a name in the source, which is at the offset.
    ensures name { IfOk result (λ hover. IfSome hover (λ h. IsNameAt source.now offset h.at)) }
    // It is the name that `occurrences_at` finds: nothing is said only where that finds none.
    ensures said { IfOk result (λ hover. IsSaidAt source.now offset hover) }
{
    match read(alloc, source)? {
        Some(reading) => hover_in(alloc, &reading, source, offset),
        None => Ok(None),
    }
}
