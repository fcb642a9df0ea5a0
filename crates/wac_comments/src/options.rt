// How a document is printed.
ghost use Rattle.std.specs.Prelude.{◌≡◌, IfOk, string_bytes};
ghost use Rattle.wac_printer_layout.specs.Joins.{AreBlanks};
ghost use Rattle.wac_comments.specs.Options.{indent_text, line_end_text};

use std::alloc::{AllocError, Global};

/// What indents a line by one level.
#[derive(Clone, Copy, Debug, PartialEq, Eq)]
pub enum Indent {
    /// A tab.
    Tab,
    /// So many blanks.
    Blanks(u8),
}

/// What ends a line, outside strings and block comments.
#[derive(Clone, Copy, Debug, PartialEq, Eq)]
pub enum LineEnd {
    /// LF.
    Lf,
    /// CR and LF.
    CrLf,
}

/// How a document is printed.
#[derive(Clone, Copy, Debug, PartialEq, Eq)]
pub struct Options {
    /// What indents a line by one level.
    pub indent: Indent,
    /// What ends a line.
    pub line_end: LineEnd,
}

impl Default for Options {
    ghost use Rattle.std.specs.Prelude.{◌≡◌};
    ghost use Rattle.wac_comments.specs.declared.options.Indent.TheVariants.{Blanks};
    ghost use Rattle.wac_comments.specs.declared.options.LineEnd.TheVariants.{Lf};

    ghost is_default = { λ options. options ≡ record { indent = Blanks 4; line_end = Lf } };

    /// Four blanks, and LF.
    fn default() -> Self {
        Options {
            indent: Indent::Blanks(4),
            line_end: LineEnd::Lf,
        }
    }
}

impl Indent {
    /// How many columns a tab takes in a text that is indented so.
    pub(crate) fn tab(self) -> usize {
        match self {
            Indent::Tab => 4,
            Indent::Blanks(_) => 1,
        }
    }

    /// The text of the indent.
    pub(crate) fn text(self, alloc: Global) -> Result<String, AllocError>
        ensures text { IfOk result (λ text. string_bytes text ≡ indent_text self) }
        ensures blanks { IfOk result (λ text. AreBlanks (string_bytes text)) }
    {
        let bytes = match self {
            Indent::Tab => vec![in alloc; b'\t'; 1]?,
            Indent::Blanks(count) => vec![in alloc; b' '; count as usize]?,
        };
        match String::from_utf8(bytes) {
            Ok(text) => Ok(text),
            Err(_) => Err(AllocError),
        }
    }
}

impl LineEnd {
    /// The text of the line end.
    pub(crate) fn text(self) -> &'static str
        ensures { result.now ≡ line_end_text self }
    {
        match self {
            LineEnd::Lf => "\n",
            LineEnd::CrLf => "\r\n",
        }
    }
}
