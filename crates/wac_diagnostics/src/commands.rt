//! Diagnostics as commands of a GitHub workflow.
ghost use Rattle.std.specs.Prelude.{◌≡◌, ◌++◌, OnOk, string_bytes, option_copied, option_map};
ghost use Rattle.wac_diagnostics.specs.Escapes.{data_escape, data_text, escaped, property_escape, property_text};

use crate::diagnostic::{Diagnostic, Note};
use crate::places::Extent;
use crate::readable::readable;
use std::alloc::{AllocError, Global};
use wac_excerpts::shown;
use wac_lexer::SourceSpan;
use wac_positions::Lines;

/// A diagnostic as a command of a GitHub workflow, on one line, without the end of that line.
///
/// ```text
/// ::error file=app.wac,line=2,col=9,endLine=2,endColumn=10,title=wac%3A%3Aundefined-name::undefined name `y`
/// ```
///
/// Lines and columns are counted from 1, and columns in characters; `endColumn` is after the last character. Without a
/// place there is neither line nor column. What can be done and the other places follow in lines of the message. What a
/// terminal could take for a command is U+FFFD, but CR and LF are escaped. The error is that memory ran out.
pub fn github(
    alloc: Global,
    file: &str,
    text: &[u8],
    diagnostic: &Diagnostic,
) -> Result<String, AllocError> {
    let source = readable(alloc, text)?;
    let lines = Lines::new(alloc, &source)?;
    let mut out = String::from_str(alloc, "::")?;
    push_command(&mut out, &lines, file, diagnostic)?;
    Ok(out)
}

/// Appends what stands after the first two colons.
fn push_command(
    out: &mut String,
    lines: &Lines<'_>,
    file: &str,
    diagnostic: &Diagnostic,
) -> Result<(), AllocError> {
    out.push_str(diagnostic.severity.word())?;
    out.push_str(" file=")?;
    push_property(out, file)?;
    push_place(out, lines, diagnostic.span)?;
    out.push_str(",title=")?;
    push_property(out, diagnostic.code)?;
    out.push_str("::")?;
    push_message(out, diagnostic)?;
    for note in &diagnostic.notes {
        push_note(out, lines, note)?;
    }
    Ok(())
}

/// Appends the message, and what can be done on a line of its own.
fn push_message(out: &mut String, diagnostic: &Diagnostic) -> Result<(), AllocError> {
    push_data(out, &diagnostic.message)?;
    if let Some(help) = &diagnostic.help {
        out.push_str("%0Ahelp: ")?;
        push_data(out, help)?;
    }
    Ok(())
}

/// Appends the properties of a place.
fn push_place(
    out: &mut String,
    lines: &Lines<'_>,
    span: Option<SourceSpan>,
) -> Result<(), AllocError> {
    let Some(span) = span else {
        return Ok(());
    };
    let extent = Extent::of(lines, span);
    write!(
        out,
        ",line={},col={},endLine={},endColumn={}",
        extent.line, extent.column, extent.end_line, extent.end_column
    )
}

/// Appends another place, on a line of the message.
fn push_note(out: &mut String, lines: &Lines<'_>, note: &Note) -> Result<(), AllocError> {
    let extent = Extent::of(lines, note.span);
    write!(out, "%0Anote: {}:{}: ", extent.line, extent.column)?;
    push_data(out, &note.message)
}

/// What a character is written as within the text of a command, where not as itself.
fn data_escape(c: char) -> Option<&'static str>
    ensures { option_map (λ text. text.now) result ≡ data_escape c }
{
    match c {
        '%' => Some("%25"),
        '\r' => Some("%0D"),
        '\n' => Some("%0A"),
        _ => None,
    }
}

/// What a character is written as within a property, where not as itself.
fn property_escape(c: char) -> Option<&'static str>
    ensures { option_map (λ text. text.now) result ≡ property_escape c }
{
    match c {
        ':' => Some("%3A"),
        ',' => Some("%2C"),
        _ => data_escape(c),
    }
}

/// Appends what a character is written as: where it has no escape, as people are shown it.
fn push_escaped(out: &mut String, escape: Option<&'static str>, c: char) -> Result<(), AllocError>
    ensures { OnOk result (string_bytes out.new ≡ string_bytes out.old ++ escaped (option_copied escape.entry) c) }
{
    match escape {
        Some(escape) => out.push_str(escape),
        None => out.push(shown(c)),
    }
}

/// Appends a text as the text of a command.
fn push_data(out: &mut String, text: &str) -> Result<(), AllocError>
    ensures { OnOk result (string_bytes out.new ≡ string_bytes out.old ++ data_text text.now) }
{
    for c in text.chars() {
        push_escaped(out, data_escape(c), c)?;
    }
    Ok(())
}

/// Appends a text as the value of a property.
fn push_property(out: &mut String, text: &str) -> Result<(), AllocError>
    ensures { OnOk result (string_bytes out.new ≡ string_bytes out.old ++ property_text text.now) }
{
    for c in text.chars() {
        push_escaped(out, property_escape(c), c)?;
    }
    Ok(())
}
