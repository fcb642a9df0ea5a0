//! Diagnostics for people.
use crate::diagnostic::{Diagnostic, Note, Severity};
use crate::places::Extent;
use crate::readable::readable;
use std::alloc::{AllocError, Global};
use wac_excerpts::{Paint, excerpt, push_shown};
use wac_lexer::SourceSpan;
use wac_positions::Lines;

/// Where a diagnostic is reported.
#[derive(Clone, Copy)]
struct Page<'p, 'a> {
    file: &'p str,
    lines: &'p Lines<'a>,
    color: bool,
}

/// A diagnostic as people read it: `PATH:L:C: error[wac::code]: text`, the lines of the place, what can be done, and
/// the other places with theirs. Each line ends with LF.
///
/// ```text
/// app.wac:2:9: error[wac::undefined-name]: undefined name `y`
/// 2 | let x = y;
///   |         ^
/// ```
///
/// `text` is what the file holds, also where it isn't UTF-8. Lines and columns are counted from 1, and columns in
/// characters. Without a place there is neither line nor column. What a terminal could take for a command is shown as
/// U+FFFD. The error is that memory ran out.
pub fn human(
    alloc: Global,
    file: &str,
    text: &[u8],
    diagnostic: &Diagnostic,
    color: bool,
) -> Result<String, AllocError> {
    let source = readable(alloc, text)?;
    let lines = Lines::new(alloc, &source)?;
    let page = Page {
        file,
        lines: &lines,
        color,
    };
    page.report(alloc, diagnostic)
}

impl Page<'_, '_> {
    fn report(&self, alloc: Global, diagnostic: &Diagnostic) -> Result<String, AllocError> {
        let mut out = String::new(alloc);
        let paint = match diagnostic.severity {
            Severity::Error => Paint::Error,
            Severity::Warning => Paint::Warning,
        };
        self.push_path(&mut out, diagnostic.span)?;
        out.push_str(self.begin(paint))?;
        write!(out, "{}[{}]", diagnostic.severity, diagnostic.code)?;
        out.push_str(self.end())?;
        self.push_message(&mut out, &diagnostic.message)?;
        self.push_excerpt(alloc, &mut out, diagnostic.span, paint)?;
        if let Some(help) = &diagnostic.help {
            self.push_label(&mut out, "help", Paint::Note)?;
            self.push_message(&mut out, help)?;
        }
        for note in &diagnostic.notes {
            self.push_note(alloc, &mut out, note)?;
        }
        Ok(out)
    }

    /// Appends the file and the place, up to the blank before the label.
    fn push_path(&self, out: &mut String, span: Option<SourceSpan>) -> Result<(), AllocError> {
        push_shown(out, self.file)?;
        if let Some(span) = span {
            let extent = Extent::of(self.lines, span);
            write!(out, ":{}:{}", extent.line, extent.column)?;
        }
        out.push_str(": ")
    }

    fn push_label(&self, out: &mut String, label: &str, paint: Paint) -> Result<(), AllocError> {
        out.push_str(self.begin(paint))?;
        out.push_str(label)?;
        out.push_str(self.end())
    }

    /// Appends what comes after a label.
    fn push_message(&self, out: &mut String, message: &str) -> Result<(), AllocError> {
        out.push_str(": ")?;
        push_shown(out, message)?;
        out.push('\n')?;
        Ok(())
    }

    fn push_excerpt(
        &self,
        alloc: Global,
        out: &mut String,
        span: Option<SourceSpan>,
        paint: Paint,
    ) -> Result<(), AllocError> {
        if let Some(span) = span {
            let paint = if self.color { paint } else { Paint::Plain };
            let text = excerpt(alloc, self.lines, span.offset(), span.len(), paint)?;
            out.push_str(&text)?;
        }
        Ok(())
    }

    fn push_note(&self, alloc: Global, out: &mut String, note: &Note) -> Result<(), AllocError> {
        self.push_path(out, Some(note.span))?;
        self.push_label(out, "note", Paint::Note)?;
        self.push_message(out, &note.message)?;
        self.push_excerpt(alloc, out, Some(note.span), Paint::Note)
    }

    fn begin(&self, paint: Paint) -> &'static str {
        if self.color { paint.begin() } else { "" }
    }

    fn end(&self) -> &'static str {
        if self.color { Paint::Note.end() } else { "" }
    }
}
