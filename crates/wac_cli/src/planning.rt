// What `fmt` makes of the bytes of a file.
ghost use Rattle.std.specs.Prelude.{◌≡◌, false, IfErr, IfOk, string_bytes};
ghost use Rattle.wac_comments.specs.Errors.{IsErrorOf};
ghost use Rattle.wac_cli.specs.Plans.{IsPlan, is_memory};
ghost use Rattle.wac_cli.specs.Tidying.{IsText, IsTidiedAs};

use crate::line_ends::chosen;
use crate::options::FormatOptions;
use std::alloc::{AllocError, Global};
use wac_comments::{Options, TidyError, tidy};
use wac_diagnostics::Diagnostic;
use wac_first_error::{Reading, read_text, tidy_diagnostic};

/// What `fmt` makes of the bytes of a file.
#[derive(Debug, Drop)]
pub enum Plan {
    /// They are its tidy text.
    Tidy,
    /// Its tidy text, which they are not.
    Untidy(String),
    /// They have an error.
    Rejected(Diagnostic),
}

impl Plan {
    /// What `fmt` makes of the bytes of a file. The error is that memory ran out.
    pub fn of(alloc: Global, bytes: &[u8], options: FormatOptions) -> Result<Plan, AllocError>
        ensures { IfOk result (λ plan. IsPlan options bytes.now plan) }
    {
        match read_text(alloc, bytes) {
            Ok(Reading::Text(text)) => Plan::of_text(alloc, text, options),
            Ok(Reading::Rejected(diagnostic)) => Ok(Plan::Rejected(diagnostic)),
            Err(error) => Err(error),
        }
    }

    /// What `fmt` makes of a text.
    fn of_text(alloc: Global, text: &str, options: FormatOptions) -> Result<Plan, AllocError>
        requires { IsText text.now }
        ensures { IfOk result (λ plan. IsPlan options text.now plan) }
    {
        match tidy_with(alloc, text, options) {
            Ok(tidy_text) if tidy_text.as_str() == text => Ok(Plan::Tidy),
            Ok(tidy_text) => Ok(Plan::Untidy(tidy_text)),
            Err(error) => Ok(Plan::Rejected(rejection_of(alloc, &error)?)),
        }
    }
}

/// The tidy text of a text, laid out as asked.
fn tidy_with(alloc: Global, text: &str, options: FormatOptions) -> Result<String, TidyError>
    ensures tidied { IfOk result (λ tidied. IsTidiedAs options text.now (string_bytes tidied)) }
    ensures only { IfErr result (λ e. IsErrorOf text.now e) }
{
    let layout = Options {
        indent: options.indent,
        line_end: chosen(options.line_ends, text),
    };
    tidy(alloc, text, layout)
}

/// What is said of a text that could not be tidied, unless memory ran out.
fn rejection_of(alloc: Global, error: &TidyError) -> Result<Diagnostic, AllocError>
    ensures { IfOk result (λ _. is_memory error.now ≡ false) }
{
    if is_memory(error) {
        return Err(AllocError);
    }
    tidy_diagnostic(alloc, error)
}

/// Whether memory ran out.
fn is_memory(error: &TidyError) -> bool
    ensures { result ≡ is_memory error.now }
{
    match error {
        TidyError::Parse(_) | TidyError::NestedTooDeep { .. } | TidyError::NotKept => false,
        TidyError::Memory(_) => true,
    }
}
