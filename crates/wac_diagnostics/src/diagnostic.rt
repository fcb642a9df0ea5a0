//! What is wrong with a text.
use std::fmt;
use wac_lexer::SourceSpan;

/// How grave a diagnostic is.
#[derive(Clone, Copy, Debug, PartialEq, Eq)]
pub enum Severity {
    /// The text can't be used.
    Error,
    /// The text can be used, and is probably not what was meant.
    Warning,
}

impl Severity {
    /// The word for it in each output.
    pub fn word(self) -> &'static str {
        match self {
            Severity::Error => "error",
            Severity::Warning => "warning",
        }
    }
}

impl fmt::Display for Severity {
    fn fmt<W: fmt::Write>(&self, f: &mut fmt::Formatter<W>) -> fmt::Result {
        f.write_str(self.word())
    }
}

/// Another place that a diagnostic speaks of, as that of an earlier definition.
#[derive(Debug, Drop)]
pub struct Note {
    /// What is there.
    pub message: String,
    /// The place, in bytes of the text.
    pub span: SourceSpan,
}

/// What is wrong with a text, or with the file that should have it.
#[derive(Debug, Drop)]
pub struct Diagnostic {
    /// How grave it is.
    pub severity: Severity,
    /// A stable name of what is wrong, as `wac::undefined-name`; docs/ERRORS.md has them all.
    pub code: &'static str,
    /// What is wrong, without places.
    pub message: String,
    /// The place, in bytes of the text, where there is one.
    pub span: Option<SourceSpan>,
    /// What can be done.
    pub help: Option<String>,
    /// Other places.
    pub notes: Vec<Note>,
}

impl Diagnostic {
    ghost use Rattle.std.specs.Prelude.{Some, None, string_bytes};
    ghost use Rattle.wac_diagnostics.specs.Reports.{Says, IsBare};

    /// An error at a place.
    pub fn at(code: &'static str, message: String, span: SourceSpan) -> Diagnostic
        ensures says { Says code.entry.now (string_bytes message) (Some span) result }
        ensures bare { IsBare result }
    {
        let notes = Vec::new(*message.allocator());
        Diagnostic {
            severity: Severity::Error,
            code,
            message,
            span: Some(span),
            help: None,
            notes,
        }
    }

    /// An error without a place, as that a file can't be read.
    pub fn without_place(code: &'static str, message: String) -> Diagnostic
        ensures says { Says code.entry.now (string_bytes message) None result }
        ensures bare { IsBare result }
    {
        let notes = Vec::new(*message.allocator());
        Diagnostic {
            severity: Severity::Error,
            code,
            message,
            span: None,
            help: None,
            notes,
        }
    }
}
