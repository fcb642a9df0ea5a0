//! Diagnostics as JSON.
use crate::diagnostic::{Diagnostic, Note};
use crate::places::Extent;
use crate::readable::readable;
use serde_json::Value;
use std::alloc::{AllocError, Global};
use wac_lexer::SourceSpan;
use wac_positions::Lines;

/// A diagnostic as a JSON object on one line, without the end of that line. Each key is always there, in the order of
/// the example; where there is no place, those of the place are null.
///
/// ```text
/// {"file":"app.wac","offset":21,"length":1,"line":2,"column":9,"end":{"line":2,"column":10},"severity":"error",
/// "code":"wac::undefined-name","message":"undefined name `y`","help":null,"notes":[]}
/// ```
///
/// Offsets and lengths are in bytes, lines and columns are counted from 1, and columns in characters; `end` is after
/// the last character. A note has `message`, `offset`, `length`, `line` and `column`. The error is that memory ran out.
pub fn json(
    alloc: Global,
    file: &str,
    text: &[u8],
    diagnostic: &Diagnostic,
) -> Result<String, AllocError> {
    let source = readable(alloc, text)?;
    let lines = Lines::new(alloc, &source)?;
    let mut out = String::from_str(alloc, "{\"file\":")?;
    push_text(alloc, &mut out, file)?;
    push_fields(alloc, &mut out, &lines, diagnostic)?;
    Ok(out)
}

/// Appends what stands after the name of the file, to the end of the object.
fn push_fields(
    alloc: Global,
    out: &mut String,
    lines: &Lines<'_>,
    diagnostic: &Diagnostic,
) -> Result<(), AllocError> {
    push_span(out, lines, diagnostic.span)?;
    out.push_str(",\"severity\":")?;
    push_text(alloc, out, diagnostic.severity.word())?;
    out.push_str(",\"code\":")?;
    push_text(alloc, out, diagnostic.code)?;
    push_message(alloc, out, diagnostic)?;
    push_notes(alloc, out, lines, &diagnostic.notes)?;
    out.push('}')
}

/// Appends the message, and what can be done.
fn push_message(
    alloc: Global,
    out: &mut String,
    diagnostic: &Diagnostic,
) -> Result<(), AllocError> {
    out.push_str(",\"message\":")?;
    push_text(alloc, out, &diagnostic.message)?;
    out.push_str(",\"help\":")?;
    match &diagnostic.help {
        Some(help) => push_text(alloc, out, help),
        None => out.push_str("null"),
    }
}

/// Appends a text as a JSON string.
fn push_text(alloc: Global, out: &mut String, text: &str) -> Result<(), AllocError> {
    let value = Value::String(String::from_str(alloc, text)?);
    out.push_str(&value.to_string(alloc)?)
}

/// Appends the keys of a place.
fn push_span(
    out: &mut String,
    lines: &Lines<'_>,
    span: Option<SourceSpan>,
) -> Result<(), AllocError> {
    let Some(span) = span else {
        return out.push_str(
            ",\"offset\":null,\"length\":null,\"line\":null,\"column\":null,\"end\":null",
        );
    };
    let extent = Extent::of(lines, span);
    push_start(out, span, extent)?;
    write!(
        out,
        ",\"end\":{{\"line\":{},\"column\":{}}}",
        extent.end_line, extent.end_column
    )
}

/// Appends where a place begins, and its length.
fn push_start(out: &mut String, span: SourceSpan, extent: Extent) -> Result<(), AllocError> {
    write!(
        out,
        ",\"offset\":{},\"length\":{},\"line\":{},\"column\":{}",
        span.offset(),
        span.len(),
        extent.line,
        extent.column
    )
}

fn push_notes(
    alloc: Global,
    out: &mut String,
    lines: &Lines<'_>,
    notes: &[Note],
) -> Result<(), AllocError> {
    out.push_str(",\"notes\":[")?;
    for (number, note) in notes.iter().enumerate() {
        if number > 0 {
            out.push(',')?;
        }
        out.push_str("{\"message\":")?;
        push_text(alloc, out, &note.message)?;
        push_start(out, note.span, Extent::of(lines, note.span))?;
        out.push('}')?;
    }
    out.push(']')?;
    Ok(())
}
